//! What keeps a rulebook from being well formed.

use std::error::Error;
use std::fmt;

/// The first test that a book fails, with the offset in bytes where it shows (docs/language.md, section 5).
#[derive(Clone, Copy)]
pub enum CheckFault {
    /// No such version of the language.
    Version(usize),
    /// A house that is not from 1 to `MAX_SEATS`.
    HouseRange(usize),
    /// A share out of its range.
    PerRange(usize),
    /// A stage with the name of an earlier one.
    StageTwice(usize),
    /// A name that no earlier stage has.
    StageUnknown(usize),
    /// Shapes that do not fit.
    Shape(usize),
    /// Units that do not fit.
    Unit(usize),
    /// A stage with more than one split or growth.
    TwoSplits(usize),
    /// A method that has no such option.
    MethodOption(usize),
    /// A cap that is not from 1 to `MAX_SEATS`.
    CapRange(usize),
    /// A base of the last clause that is no column of seats of lists.
    SeatsShape(usize),
}

impl CheckFault {
    // The text before the number, the number, and the text after it.
    fn words(self) -> (&'static str, usize, &'static str) {
        match self {
            CheckFault::Version(at) => ("no such version of the language at ", at, ""),
            CheckFault::HouseRange(at) => ("the house at ", at, " is out of range"),
            CheckFault::PerRange(at) => ("the share at ", at, " is out of range"),
            CheckFault::StageTwice(at) => ("the stage at ", at, " has the name of an earlier one"),
            CheckFault::StageUnknown(at) => ("no earlier stage has the name at ", at, ""),
            CheckFault::Shape(at) => ("the shapes at ", at, " do not fit"),
            CheckFault::Unit(at) => ("the units at ", at, " do not fit"),
            CheckFault::TwoSplits(at) => (
                "the stage at ",
                at,
                " has more than one split or growth",
            ),
            CheckFault::MethodOption(at) => ("the method at ", at, " has no such option"),
            CheckFault::CapRange(at) => ("the cap at ", at, " is out of range"),
            CheckFault::SeatsShape(at) => (
                "the base of the last clause at ",
                at,
                " is no column of seats of lists",
            ),
        }
    }
}

impl fmt::Display for CheckFault {
    fn fmt<W: fmt::Write>(&self, f: &mut fmt::Formatter<W>) -> fmt::Result {
        let (before, at, behind) = self.words();
        write!(f, "{before}{at}{behind}")
    }
}

/// Shows the text of `Display`.
impl fmt::Debug for CheckFault {
    fn fmt<W: fmt::Write>(&self, f: &mut fmt::Formatter<W>) -> fmt::Result {
        fmt::Display::fmt(self, f)
    }
}

impl Error for CheckFault {}
