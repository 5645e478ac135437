//! Rulebooks as trees.

ghost use Rattle.std.specs.Prelude.{◌≡◌, IsTrue, map};
ghost use Rattle.sl_law_meaning.specs.declared.book.Unit.TheVariants as unit;
ghost use Rattle.sl_law_meaning.specs.book.Trees.{stage_of};
ghost use Rattle.sl_law_meaning.specs.book.Typing.{column, shape_over};
ghost use Rattle.sl_law_meaning.specs.book.Limits.{is_within_limits, book_numbers, are_small};

use crate::fact::Fact;
use sl_base_quotients::Method;
use sl_base_terms::{Shape, Word};

/// What the numbers of a column count.
#[derive(Clone, Copy, PartialEq, Eq)]
pub enum Unit {
    Seats,
    Votes,
}

/// What a column has: a shape and a unit.
#[derive(Clone, Copy, PartialEq, Eq)]
pub struct ColumnType {
    pub shape: Shape,
    pub unit: Unit,
}

impl ColumnType {
    /// A column of seats.
    pub fn seats(shape: Shape) -> ColumnType
        ensures { result ≡ column shape unit.Seats }
    {
        ColumnType {
            shape,
            unit: Unit::Seats,
        }
    }

    /// A column of votes.
    pub fn votes(shape: Shape) -> ColumnType
        ensures { result ≡ column shape unit.Votes }
    {
        ColumnType {
            shape,
            unit: Unit::Votes,
        }
    }
}

/// What a sum leaves: a number for each party, for each Land, or one for all.
#[derive(Clone, Copy, Debug)]
pub enum Axis {
    Party,
    Land,
    All,
}

impl Axis {
    /// The shape of a sum.
    pub fn shape(self) -> Shape
        ensures { result ≡ shape_over self }
    {
        match self {
            Axis::Party => Shape::Party,
            Axis::Land => Shape::Land,
            Axis::All => Shape::One,
        }
    }
}

/// What two numbers of a pair of columns make.
#[derive(Clone, Copy, Debug)]
pub enum Pairing {
    /// The greater one.
    Larger,
    /// The first less the second, at least 0.
    Less,
}

/// The majority clause of a split or a growth.
#[derive(Clone, Copy, Debug)]
pub enum Majority {
    /// None is written.
    Free,
    /// An entry with more than half of the votes whose whole part is no more than half of the seats comes before all remainders.
    Prefer,
    /// An entry with more than half of the votes that gets no more than half of the seats ends the count.
    Refuse,
}

/// A number of a book, with the offset of its first byte.
#[derive(Clone, Copy)]
pub struct Number {
    pub value: u32,
    pub at: usize,
}

/// An expression. Each keeps the offset of its first token.
#[derive(Drop)]
pub enum Expr {
    /// A column that the returns tell.
    Fact {
        at: usize,
        fact: Fact,
    },
    /// The column of an earlier stage.
    Name {
        at: usize,
        name: Word,
    },
    Sum {
        at: usize,
        of: Box<Expr>,
        over: Axis,
    },
    /// Two columns of one type, taken number by number.
    Pair {
        at: usize,
        pairing: Pairing,
        left: Box<Expr>,
        right: Box<Expr>,
    },
    /// Seats distributed by votes; with minima, every entry has at least its own.
    Split {
        at: usize,
        seats: Box<Expr>,
        votes: Box<Expr>,
        method: Method,
        minima: Option<Box<Expr>>,
        majority: Majority,
    },
    /// Seats distributed by votes, more of them until every entry has its minimum.
    Grow {
        at: usize,
        seats: Box<Expr>,
        votes: Box<Expr>,
        method: Method,
        minima: Box<Expr>,
        cap: Number,
        majority: Majority,
    },
}

/// A condition under which a party takes part.
#[derive(Clone, Copy)]
pub enum Cond {
    /// At least `share` votes in each `per` of all valid votes.
    Valid { share: Number, per: u32 },
    /// At least so many winners.
    Winners { least: u32 },
    /// It is a party of a national minority.
    Minority,
    All,
}

/// A stage: a name, its offset, and what it stands for.
#[derive(Drop)]
pub struct Stage {
    pub name: Word,
    pub at: usize,
    pub expr: Expr,
}

/// Whose seats the lists have in the end.
#[derive(Drop)]
pub enum Base {
    Winners,
    Stage(Word),
}

/// What becomes of constituency winners.
#[derive(Clone, Copy, Debug)]
pub enum Seating {
    /// All are seated.
    Keep,
    /// They are seated as far as the seats of their list last.
    Cover,
}

/// The last clause, with the offsets of its base and of `vacate`, if that word is there.
#[derive(Drop)]
pub struct LastClause {
    pub base: Base,
    pub at: usize,
    pub seating: Seating,
    pub vacate: Option<usize>,
}

/// A rulebook, within the limits on stages, depth, parts and numbers.
#[derive(Drop)]
pub struct Book {
    pub version: Number,
    pub law: Vec<u8>,
    pub house: Number,
    pub eligible: Vec<Cond>,
    pub stages: Vec<Stage>,
    pub last: LastClause,
    pub ghost within_limits: { IsTrue (is_within_limits (map stage_of stages.items)) },
    pub ghost small_numbers: { IsTrue (are_small (book_numbers (record { version = version; law = law.items; house = house; eligible = eligible.items; stages = map stage_of stages.items; last = last }))) },
}
