//! What keeps a code from being well kinded.

use std::error::Error;
use std::fmt;

/// The first test that a code fails, with the number of its instruction, from 0 (docs/verifier.md, section 4).
#[derive(Clone, Copy)]
pub enum VerifyFault {
    /// It jumps to a place without a declaration.
    Jump(usize),
    /// It names a register that is not there.
    Register(usize),
    /// It needs a positive register or a cursor.
    Kind(usize),
    /// It names a column or a stage that is not there.
    Slot(usize),
    /// It needs another table.
    TableKind(usize),
    /// It goes on to what it does not imply, or is never reached.
    Meet(usize),
    /// Nothing stands after it.
    RunsOff(usize),
}

impl VerifyFault {
    // The text before the number, the number, and the text after it.
    fn words(self) -> (&'static str, usize, &'static str) {
        match self {
            VerifyFault::Jump(at) => (
                "instruction ",
                at,
                " jumps to a place without a declaration",
            ),
            VerifyFault::Register(at) => (
                "instruction ",
                at,
                " names a register that is not there",
            ),
            VerifyFault::Kind(at) => ("instruction ", at, " needs a positive register or a cursor"),
            VerifyFault::Slot(at) => (
                "instruction ",
                at,
                " names a column or a stage that is not there",
            ),
            VerifyFault::TableKind(at) => ("instruction ", at, " needs another table"),
            VerifyFault::Meet(at) => (
                "instruction ",
                at,
                " goes on to what it does not imply, or is never reached",
            ),
            VerifyFault::RunsOff(at) => ("nothing stands behind instruction ", at, ""),
        }
    }
}

impl fmt::Display for VerifyFault {
    fn fmt<W: fmt::Write>(&self, f: &mut fmt::Formatter<W>) -> fmt::Result {
        let (before, at, behind) = self.words();
        write!(f, "{before}{at}{behind}")
    }
}

/// Shows the text of `Display`.
impl fmt::Debug for VerifyFault {
    fn fmt<W: fmt::Write>(&self, f: &mut fmt::Formatter<W>) -> fmt::Result {
        fmt::Display::fmt(self, f)
    }
}

impl Error for VerifyFault {}
