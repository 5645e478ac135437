//! The schema of the records: the kinds, the columns, and what each cell holds.

ghost use Rattle.std.specs.Prelude.{◌≡◌, [], get_or};
ghost use Rattle.sl_returns.specs.Schema.{column_names, kind_named, word_of, content_of, least, greatest};

use sl_stages::{MAX_SEATS, MAX_SLATE, MAX_VOTES};

/// How many cells a record has.
pub const COLUMNS: usize = 6;

/// The columns, from 0.
pub const KIND: usize = 0;

pub const LAND: usize = 1;

pub const PARTY: usize = 2;

pub const A: usize = 3;

pub const B: usize = 4;

pub const C: usize = 5;

/// The name of a column, as the header has it; nothing where there is no such column.
pub fn column_name(column: usize) -> &'static [u8]
    ensures { result.now ≡ get_or column_names column [] }
{
    match column {
        KIND => b"kind",
        LAND => b"land",
        PARTY => b"party",
        A => b"a",
        B => b"b",
        C => b"c",
        _ => b"",
    }
}

/// What a record is about, by the word in its first cell.
#[derive(Clone, Copy, PartialEq, Eq)]
pub enum Kind {
    House,
    Land,
    Party,
    List,
    Win,
    Lot,
}

impl Kind {
    /// The kinds, in the order of docs/returns.md.
    pub const ALL: [Kind; 6] = [
        Kind::House,
        Kind::Land,
        Kind::Party,
        Kind::List,
        Kind::Win,
        Kind::Lot,
    ];

    /// Its word.
    pub fn word(self) -> &'static [u8]
        ensures { result.now ≡ word_of self }
    {
        match self {
            Kind::House => b"house",
            Kind::Land => b"land",
            Kind::Party => b"party",
            Kind::List => b"list",
            Kind::Win => b"win",
            Kind::Lot => b"lot",
        }
    }

    /// The kind that a word names.
    pub fn named(word: &[u8]) -> Option<Kind>
        ensures { result ≡ kind_named word.now }
    {
        match word {
            b"house" => Some(Kind::House),
            b"land" => Some(Kind::Land),
            b"party" => Some(Kind::Party),
            b"list" => Some(Kind::List),
            b"win" => Some(Kind::Win),
            b"lot" => Some(Kind::Lot),
            _ => None,
        }
    }

    /// What the cell of a column holds in a record of this kind.
    pub fn content(self, column: usize) -> Content
        ensures { result ≡ content_of self column }
    {
        match column {
            KIND => Content::Kind,
            LAND => self.land(),
            PARTY => self.party(),
            A => self.a(),
            B => self.b(),
            C => self.c(),
            _ => Content::Blank,
        }
    }

    // What the second cell holds.
    fn land(self) -> Content
        ensures { result ≡ content_of self LAND }
    {
        match self {
            Kind::House | Kind::Party => Content::Blank,
            Kind::Land => Content::NewName(Named::Land),
            Kind::List | Kind::Win => Content::KnownName(Named::Land),
            Kind::Lot => Content::KnownNameOrNone(Named::Land),
        }
    }

    // What the third cell holds.
    fn party(self) -> Content
        ensures { result ≡ content_of self PARTY }
    {
        match self {
            Kind::House | Kind::Land => Content::Blank,
            Kind::Party => Content::NewName(Named::Party),
            Kind::List => Content::KnownName(Named::Party),
            Kind::Win | Kind::Lot => Content::KnownNameOrNone(Named::Party),
        }
    }

    // What the cell a holds.
    fn a(self) -> Content
        ensures { result ≡ content_of self A }
    {
        match self {
            Kind::House => Content::Number(Quantity::House),
            Kind::Land => Content::Number(Quantity::Population),
            Kind::Party => Content::Number(Quantity::Minority),
            Kind::List => Content::Number(Quantity::Valid),
            Kind::Win => Content::NewName(Named::Constituency),
            Kind::Lot => Content::StageName,
        }
    }

    // What the cell b holds.
    fn b(self) -> Content
        ensures { result ≡ content_of self B }
    {
        match self {
            Kind::House | Kind::Land | Kind::Party => Content::Blank,
            Kind::List => Content::Number(Quantity::Counted),
            Kind::Win => Content::Number(Quantity::First),
            Kind::Lot => Content::KnownNameOrNone(Named::Constituency),
        }
    }

    // What the cell c holds.
    fn c(self) -> Content
        ensures { result ≡ content_of self C }
    {
        match self {
            Kind::House | Kind::Land | Kind::Party | Kind::Lot => Content::Blank,
            Kind::List => Content::NumberOrNone(Quantity::Slate),
            Kind::Win => Content::Number(Quantity::ValidFirst),
        }
    }
}

/// What a cell holds.
#[derive(Clone, Copy)]
pub enum Content {
    /// The word of the kind.
    Kind,
    /// Nothing: the cell is empty.
    Blank,
    /// A name that no record before declares.
    NewName(Named),
    /// A name that a record before declares.
    KnownName(Named),
    /// The same, or nothing.
    KnownNameOrNone(Named),
    /// The name of a stage, or `seats`.
    StageName,
    Number(Quantity),
    /// A number, or nothing.
    NumberOrNone(Quantity),
}

/// What a name stands for.
#[derive(Clone, Copy)]
pub enum Named {
    Land,
    Party,
    Constituency,
}

/// What a number counts.
#[derive(Clone, Copy)]
pub enum Quantity {
    /// The seats of the house.
    House,
    /// The people of a Land.
    Population,
    /// 1 for a party of a national minority, else 0.
    Minority,
    /// The valid votes of a list.
    Valid,
    /// Those of them that are counted.
    Counted,
    /// The names left on a list.
    Slate,
    /// The first votes of a winner.
    First,
    /// All valid first votes of a constituency.
    ValidFirst,
}

impl Quantity {
    /// The least that it may be.
    pub fn least(self) -> u32
        ensures { result ≡ least self }
    {
        match self {
            Quantity::House | Quantity::First => 1,
            Quantity::Population
            | Quantity::Minority
            | Quantity::Valid
            | Quantity::Counted
            | Quantity::Slate
            | Quantity::ValidFirst => 0,
        }
    }

    /// The greatest that it may be.
    pub fn greatest(self) -> u32
        ensures { result ≡ greatest self }
    {
        match self {
            Quantity::House => MAX_SEATS,
            Quantity::Minority => 1,
            Quantity::Slate => MAX_SLATE,
            Quantity::Population
            | Quantity::Valid
            | Quantity::Counted
            | Quantity::First
            | Quantity::ValidFirst => MAX_VOTES,
        }
    }
}
