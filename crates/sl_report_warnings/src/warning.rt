//! What a warning is.

ghost use Rattle.std.specs.Prelude.{◌≡◌};
ghost use Rattle.sl_report_warnings.specs.Heads.{code_of, key_of};

use sl_explain_texts::FaultCode;
use sl_stages::Shape;

/// What is likely a mistake. Länder, parties and lots have the numbers of their records, from 0.
#[derive(Clone, Copy)]
pub enum Warning {
    /// Several Länder, all with the same people.
    EqualPeople,
    /// A Land without constituency winners, where others have some.
    LandWithoutWinners {
        land: usize,
    },
    /// A party with so many winners, and without a list.
    WinnersWithoutList {
        party: usize,
        winners: u64,
    },
    /// A party with so many winners in a Land in which it has no list, while it has one elsewhere.
    WinnersBesideLists {
        land: usize,
        party: usize,
        winners: u64,
    },
    /// A party with so many lists that have valid votes, of which none is counted.
    NothingCounted {
        party: usize,
        lists: u64,
    },
    /// A party whose name says that it stands for several.
    SeveralParties {
        party: usize,
    },
    /// A lot at a place where the rulebook draws none.
    LotUnused {
        lot: usize,
    },
    /// A lot that names no entry of its place: that is of this shape, or among the winners of a list.
    LotOfNoEntry {
        lot: usize,
        shape: Option<Shape>,
    },
    /// A house of the returns, in seats, that is not the rulebook's.
    OtherHouse {
        returns: u32,
        book: u32,
    },
    /// So few parties that a threshold is likely one of too few votes.
    FewParties {
        parties: usize,
    },
    /// A Land with people and without a valid vote, where there are some elsewhere.
    LandWithoutVotes {
        land: usize,
    },
    /// A Land with more valid votes than people.
    MoreVotesThanPeople {
        land: usize,
        votes: u64,
        people: u32,
    },
    /// A Land with so many valid votes of lists, which are not half as many as the first votes.
    FewSecondVotes {
        land: usize,
        votes: u64,
        first: u64,
    },
    /// A Land with as many valid votes as all others together.
    LandIsSum {
        land: usize,
    },
    /// A party whose name is a word for a sum.
    SumOfParties {
        party: usize,
    },
    /// A party of a national minority with a list in every Land.
    MinorityEverywhere {
        party: usize,
    },
    /// So many valid votes for so many seats of the house.
    FewVotes {
        votes: u64,
        seats: u64,
    },
    /// The only one of several parties that takes part.
    OnePartyAlone {
        party: usize,
    },
    /// A lot of a party that takes no part, or of a list that does not exist.
    LotOfNoSeats {
        lot: usize,
    },
    /// A stage of the rulebook, by its number from 1, that no other clause names.
    StageUnused {
        stage: usize,
    },
}

impl Warning {
    /// The word by which programs know a warning of that kind.
    pub fn key(&self) -> &'static str
        ensures { result.now ≡ key_of self.now }
    {
        match self {
            Warning::EqualPeople => "people",
            Warning::LandWithoutWinners { .. } => "land_without_winners",
            Warning::WinnersWithoutList { .. } => "winners_without_list",
            Warning::WinnersBesideLists { .. } => "winners_beside_lists",
            Warning::NothingCounted { .. } => "nothing_counted",
            Warning::SeveralParties { .. } => "several_parties",
            Warning::LotUnused { .. } => "lot_unused",
            Warning::LotOfNoEntry { .. } => "lot_of_no_entry",
            Warning::OtherHouse { .. } => "house",
            Warning::FewParties { .. } => "few_parties",
            Warning::LandWithoutVotes { .. } => "land_without_votes",
            Warning::MoreVotesThanPeople { .. } => "more_votes_than_people",
            Warning::FewSecondVotes { .. } => "few_second_votes",
            Warning::LandIsSum { .. } => "land_is_sum",
            Warning::SumOfParties { .. } => "sum_of_parties",
            Warning::MinorityEverywhere { .. } => "minority_everywhere",
            Warning::FewVotes { .. } => "few_votes",
            Warning::OnePartyAlone { .. } => "one_party_alone",
            Warning::LotOfNoSeats { .. } => "lot_of_no_seats",
            Warning::StageUnused { .. } => "stage_unused",
        }
    }

    /// Its code, with which `seatlaw explain` says more of it.
    pub fn code(&self) -> FaultCode
        ensures { result ≡ code_of self.now }
    {
        match self {
            Warning::EqualPeople => FaultCode::W01,
            Warning::LandWithoutWinners { .. } => FaultCode::W02,
            Warning::WinnersWithoutList { .. } => FaultCode::W03,
            Warning::WinnersBesideLists { .. } => FaultCode::W04,
            Warning::NothingCounted { .. } => FaultCode::W05,
            Warning::SeveralParties { .. } => FaultCode::W06,
            Warning::LotUnused { .. } => FaultCode::W07,
            Warning::LotOfNoEntry { .. } => FaultCode::W08,
            Warning::OtherHouse { .. } => FaultCode::W09,
            Warning::FewParties { .. } => FaultCode::W10,
            Warning::LandWithoutVotes { .. } => FaultCode::W11,
            Warning::MoreVotesThanPeople { .. } => FaultCode::W12,
            Warning::FewSecondVotes { .. } => FaultCode::W13,
            Warning::LandIsSum { .. } => FaultCode::W14,
            Warning::SumOfParties { .. } => FaultCode::W15,
            Warning::MinorityEverywhere { .. } => FaultCode::W16,
            Warning::FewVotes { .. } => FaultCode::W17,
            Warning::OnePartyAlone { .. } => FaultCode::W18,
            Warning::LotOfNoSeats { .. } => FaultCode::W19,
            Warning::StageUnused { .. } => FaultCode::W20,
        }
    }
}
