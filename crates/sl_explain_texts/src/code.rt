//! The codes of faults and of warnings: a letter for what is at fault (B a rulebook, R returns, L the law that they meet, C a code file) or for what is
//! likely a mistake (W), and a number.

ghost use Rattle.std.specs.Prelude.{◌≡◌};
ghost use Rattle.sl_explain_texts.specs.Codes.{code_named, code_word};

/// The code of a fault or of a warning. `word` says how it is written.
#[derive(Clone, Copy)]
pub enum FaultCode {
    /// A statute that the library lacks.
    B01,
    /// A rulebook that is too long.
    B02,
    /// A character that begins no token.
    B03,
    /// A text in quotes that is not closed.
    B04,
    /// A number that is too great.
    B05,
    /// A word that is too long.
    B06,
    /// A token that cannot stand where it stands, or one that is missing.
    B07,
    /// An expression too many levels down, or one too many in its stage.
    B08,
    /// A stage too many.
    B09,
    /// Something after the last clause.
    B10,
    /// A version that the language does not have, or `vacate` in the first version.
    B11,
    /// A house that is out of its range.
    B12,
    /// A threshold that is out of its range.
    B13,
    /// A second stage of one name.
    B14,
    /// A name that no stage above and no column has.
    B15,
    /// Arguments whose shapes do not fit.
    B16,
    /// Arguments whose units do not fit.
    B17,
    /// A stage with more than one split or growth.
    B18,
    /// An option that the method does not take.
    B19,
    /// A cap that is out of its range.
    B20,
    /// A last clause whose stage has no seats for each list.
    B21,
    /// A stage that the rulebook does not define.
    B22,
    /// A first record that is not the header.
    R01,
    /// A record without its cells, or with a cell filled or empty against its kind.
    R02,
    /// A kind of record that does not exist.
    R03,
    /// A name that is empty, too long, or has a byte that no name may have.
    R04,
    /// A number that is not one to twelve digits.
    R05,
    /// A number that is out of its range.
    R06,
    /// A name that is not declared.
    R07,
    /// A record that says what an earlier one said.
    R08,
    /// More votes counted than are valid.
    R09,
    /// More records of a kind than there may be.
    R10,
    /// Returns without a Land.
    R11,
    /// Returns that are too long.
    R12,
    /// More seats to be distributed than there may be.
    L01,
    /// Minima that sum to more than the seats.
    L02,
    /// Seats, and nobody to give them to.
    L03,
    /// A tie that no lot decides.
    L04,
    /// A majority of votes without a majority of seats.
    L05,
    /// A growth that reaches its cap.
    L06,
    /// A file that does not begin as a code file.
    C01,
    /// A version that the format does not have.
    C02,
    /// A byte that has no meaning at its place.
    C03,
    /// A code file that ends too early.
    C04,
    /// A code file that goes on after the code.
    C05,
    /// A number that is too great.
    C06,
    /// A jump to a place without a declaration.
    C07,
    /// A register that does not exist.
    C08,
    /// A register that may be 0, or a cursor that is not set.
    C09,
    /// A column or a stage that does not exist, or a column of another shape.
    C10,
    /// A need for another priority table.
    C11,
    /// Two ways that meet with unlike knowledge, or an instruction that none reaches.
    C12,
    /// An instruction that goes on where nothing stands.
    C13,
    /// A code file that is too long.
    C14,
    /// A run that takes too many steps.
    C15,
    /// Several Länder, all with the same people.
    W01,
    /// Länder without winners, where others have some.
    W02,
    /// A party with winners and without a list.
    W03,
    /// A party with winners in a Land in which it has no list.
    W04,
    /// Lists of which no valid vote is counted.
    W05,
    /// A party whose name says that it stands for several.
    W06,
    /// A lot at a place where the rulebook draws none.
    W07,
    /// A lot that names no entry of its place.
    W08,
    /// A house of the returns that is not the rulebook's.
    W09,
    /// So few parties that a threshold is likely one of too few votes.
    W10,
    /// Länder without lists, where others have some.
    W11,
    /// More valid votes in a Land than people.
    W12,
    /// Fewer second votes in a Land than half of the first votes there.
    W13,
    /// A Land with as many votes as all others together.
    W14,
    /// A party whose name is a word for a sum.
    W15,
    /// Parties of national minorities with lists in every Land.
    W16,
    /// Too few votes for the seats of the house.
    W17,
    /// One party alone takes part.
    W18,
    /// A lot of a party that takes no part, or of a list that does not exist.
    W19,
    /// Stages on which no seat depends.
    W20,
}

/// The codes in their order.
#[rattlefmt::skip]
pub static CODES: [FaultCode; 75] = [
    FaultCode::B01, FaultCode::B02, FaultCode::B03, FaultCode::B04, FaultCode::B05, FaultCode::B06,
    FaultCode::B07, FaultCode::B08, FaultCode::B09, FaultCode::B10, FaultCode::B11, FaultCode::B12,
    FaultCode::B13, FaultCode::B14, FaultCode::B15, FaultCode::B16, FaultCode::B17, FaultCode::B18,
    FaultCode::B19, FaultCode::B20, FaultCode::B21, FaultCode::B22, FaultCode::R01, FaultCode::R02,
    FaultCode::R03, FaultCode::R04, FaultCode::R05, FaultCode::R06, FaultCode::R07, FaultCode::R08,
    FaultCode::R09, FaultCode::R10, FaultCode::R11, FaultCode::R12, FaultCode::L01, FaultCode::L02,
    FaultCode::L03, FaultCode::L04, FaultCode::L05, FaultCode::L06, FaultCode::C01, FaultCode::C02,
    FaultCode::C03, FaultCode::C04, FaultCode::C05, FaultCode::C06, FaultCode::C07, FaultCode::C08,
    FaultCode::C09, FaultCode::C10, FaultCode::C11, FaultCode::C12, FaultCode::C13, FaultCode::C14,
    FaultCode::C15, FaultCode::W01, FaultCode::W02, FaultCode::W03, FaultCode::W04, FaultCode::W05,
    FaultCode::W06, FaultCode::W07, FaultCode::W08, FaultCode::W09, FaultCode::W10, FaultCode::W11,
    FaultCode::W12, FaultCode::W13, FaultCode::W14, FaultCode::W15, FaultCode::W16, FaultCode::W17,
    FaultCode::W18, FaultCode::W19, FaultCode::W20,
];

// How they are written, in the same order.
static WORDS: [&str; 75] = [
    "B01", "B02", "B03", "B04", "B05", "B06", "B07", "B08", "B09", "B10", "B11", "B12", "B13",
    "B14", "B15", "B16", "B17", "B18", "B19", "B20", "B21", "B22", "R01", "R02", "R03", "R04",
    "R05", "R06", "R07", "R08", "R09", "R10", "R11", "R12", "L01", "L02", "L03", "L04", "L05",
    "L06", "C01", "C02", "C03", "C04", "C05", "C06", "C07", "C08", "C09", "C10", "C11", "C12",
    "C13", "C14", "C15", "W01", "W02", "W03", "W04", "W05", "W06", "W07", "W08", "W09", "W10",
    "W11", "W12", "W13", "W14", "W15", "W16", "W17", "W18", "W19", "W20",
];

impl FaultCode {
    /// The code as it is written, such as `B05`.
    pub fn word(self) -> &'static str
        ensures { result.now ≡ code_word self }
    {
        WORDS[self as usize]
    }

    /// The code that a word is, in capital or in small letters, if it is one.
    pub fn of_word(word: &str) -> Option<FaultCode>
        ensures { result ≡ code_named word.now }
    {
        CODES
            .iter()
            .copied()
            .find(|code| code.word().eq_ignore_ascii_case(word))
    }
}
