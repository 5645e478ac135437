//! The clause of a rulebook in which a fault lies.

ghost use Rattle.std.specs.Prelude.{◌≡◌};
ghost use Rattle.sl_law_meaning.specs.book.Books.{book_of};
ghost use Rattle.sl_explain_books.specs.Further.{clause_at, clause_of, condition_left, house_left, is_last, is_stage, version_left};

use crate::tests::around;
use sl_law_meaning::{Book, CheckFault, Cond, Number};

/// A clause of a rulebook that can be left out.
#[derive(Clone, Copy)]
pub enum Clause {
    Version,
    House,
    /// The condition with the share at that offset.
    Condition(usize),
    /// The stage at that offset.
    Stage(usize),
    Last,
}

// The stage in which an offset lies, or the last clause.
fn clause_at(book: &Book, at: usize) -> Clause
    ensures { result ≡ clause_at (book_of book.now) at }
{
    match around(book.stages.as_slice(), at) {
        Some(stage) if at < book.last.at => Clause::Stage(stage.at),
        _ => Clause::Last,
    }
}

impl Clause {
    /// The clause in which a fault of a rulebook lies.
    pub fn of(book: &Book, fault: CheckFault) -> Clause
        ensures { result ≡ clause_of (book_of book.now) fault }
    {
        match fault {
            CheckFault::Version(_) => Clause::Version,
            CheckFault::HouseRange(_) => Clause::House,
            CheckFault::PerRange(at) => Clause::Condition(at),
            CheckFault::StageTwice(at) | CheckFault::TwoSplits(at) => Clause::Stage(at),
            CheckFault::StageUnknown(at)
            | CheckFault::Shape(at)
            | CheckFault::Unit(at)
            | CheckFault::MethodOption(at)
            | CheckFault::CapRange(at) => clause_at(book, at),
            CheckFault::SeatsShape(_) => Clause::Last,
        }
    }

    /// The version without this clause: one that has all clauses, where it is the version that is left out.
    pub fn version_left(self, version: Number) -> Number
        ensures { result ≡ version_left self version }
    {
        match self {
            Clause::Version => Number {
                value: 2,
                at: version.at,
            },
            _ => version,
        }
    }

    /// The house without this clause: one that may be, where it is the house that is left out.
    pub fn house_left(self, house: Number) -> Number
        ensures { result ≡ house_left self house }
    {
        match self {
            Clause::House => Number {
                value: 1,
                at: house.at,
            },
            _ => house,
        }
    }

    /// Whether a condition is there without this clause.
    pub fn leaves_condition(self, condition: Cond) -> bool
        ensures { result ≡ condition_left self condition }
    {
        match (self, condition) {
            (Clause::Condition(at), Cond::Valid { share, .. }) => share.at != at,
            _ => true,
        }
    }

    /// Whether it is the stage at that offset.
    pub fn is_stage(self, at: usize) -> bool
        ensures { result ≡ is_stage self at }
    {
        match self {
            Clause::Stage(stage) => stage == at,
            _ => false,
        }
    }

    /// Whether it is the last clause.
    pub fn is_last(self) -> bool
        ensures { result ≡ is_last self }
    {
        matches!(self, Clause::Last)
    }
}
