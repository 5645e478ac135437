//! The words that the language keeps for itself.

ghost use Rattle.std.specs.Prelude.{◌≡◌};
ghost use Rattle.sl_lex.specs.Keywords.{spelling, keywords, keyword_of};

/// A keyword. Every other word is a name, `vacate` too.
#[derive(Clone, Copy, PartialEq, Eq)]
pub enum Keyword {
    Rulebook,
    Law,
    House,
    Eligible,
    Valid,
    At,
    Least,
    Per,
    Or,
    Stage,
    Seats,
    Counted,
    Winners,
    Outside,
    Independents,
    Population,
    Minority,
    Sum,
    Larger,
    Less,
    Split,
    Grow,
    Atleast,
    Majority,
    Prefer,
    Refuse,
    Party,
    Land,
    All,
    Adams,
    Dean,
    Hill,
    Webster,
    Jefferson,
    Hamilton,
    Keep,
    Cover,
}

/// The keywords, in the order in which a book has them.
pub static KEYWORDS: [Keyword; 37] = [
    Keyword::Rulebook,
    Keyword::Law,
    Keyword::House,
    Keyword::Eligible,
    Keyword::Valid,
    Keyword::At,
    Keyword::Least,
    Keyword::Per,
    Keyword::Or,
    Keyword::Stage,
    Keyword::Seats,
    Keyword::Counted,
    Keyword::Winners,
    Keyword::Outside,
    Keyword::Independents,
    Keyword::Population,
    Keyword::Minority,
    Keyword::Sum,
    Keyword::Larger,
    Keyword::Less,
    Keyword::Split,
    Keyword::Grow,
    Keyword::Atleast,
    Keyword::Majority,
    Keyword::Prefer,
    Keyword::Refuse,
    Keyword::Party,
    Keyword::Land,
    Keyword::All,
    Keyword::Adams,
    Keyword::Dean,
    Keyword::Hill,
    Keyword::Webster,
    Keyword::Jefferson,
    Keyword::Hamilton,
    Keyword::Keep,
    Keyword::Cover,
];

// Their spellings, in the same order.
static SPELLINGS: [&str; 37] = [
    "rulebook",
    "law",
    "house",
    "eligible",
    "valid",
    "at",
    "least",
    "per",
    "or",
    "stage",
    "seats",
    "counted",
    "winners",
    "outside",
    "independents",
    "population",
    "minority",
    "sum",
    "larger",
    "less",
    "split",
    "grow",
    "atleast",
    "majority",
    "prefer",
    "refuse",
    "party",
    "land",
    "all",
    "adams",
    "dean",
    "hill",
    "webster",
    "jefferson",
    "hamilton",
    "keep",
    "cover",
];

impl Keyword {
    /// The word that this keyword is.
    pub fn spelling(self) -> &'static str
        ensures { result.now ≡ spelling self }
    {
        SPELLINGS[self as usize]
    }

    /// The keyword that this word is, if it is one.
    pub fn from_word(word: &[u8]) -> Option<Keyword>
        ensures { result ≡ keyword_of word.now }
    {
        KEYWORDS
            .iter()
            .copied()
            .find(|keyword| keyword.spelling().as_bytes() == word)
    }
}
