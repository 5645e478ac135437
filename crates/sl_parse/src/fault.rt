//! Why tokens are no book.

ghost use Rattle.std.specs.Prelude.{◌≡◌};
ghost use Rattle.sl_parse.specs.declared.fault.Stop.TheVariants.{NoMemory as OutOfMemory};

use sl_base_quotients::NoMemory;
use std::alloc::{AllocError, AllocFailed};
use std::error::Error;
use std::fmt;

/// Why tokens are no book within the limits, with the offset in bytes at which it shows: that of a token, or the length of
/// the text where tokens are missing.
#[derive(Clone, Copy)]
pub enum ParseFault {
    /// No book goes on like this.
    Expected(usize),
    /// An expression too many levels down, or one too many in its stage.
    TooDeep(usize),
    /// One stage too many.
    TooManyStages(usize),
    /// Something follows the book.
    After(usize),
    /// Memory is wanting.
    NoMemory,
}

impl ParseFault {
    // The text before the offset, the offset, and the text after it. Out of memory has none.
    fn words(self) -> Option<(&'static str, usize, &'static str)> {
        match self {
            ParseFault::Expected(at) => Some(("no book goes on like this at ", at, "")),
            ParseFault::TooDeep(at) => Some((
                "the expression at ",
                at,
                " lies too deep, or is one too many in its stage",
            )),
            ParseFault::TooManyStages(at) => Some(("the stage at ", at, " is one too many")),
            ParseFault::After(at) => Some(("at ", at, " something follows the book")),
            ParseFault::NoMemory => None,
        }
    }
}

impl fmt::Display for ParseFault {
    fn fmt<W: fmt::Write>(&self, f: &mut fmt::Formatter<W>) -> fmt::Result {
        let Some((before, at, behind)) = self.words() else {
            return f.write_str("out of memory");
        };
        write!(f, "{before}{at}{behind}")
    }
}

/// Shows the text of `Display`.
impl fmt::Debug for ParseFault {
    fn fmt<W: fmt::Write>(&self, f: &mut fmt::Formatter<W>) -> fmt::Result {
        fmt::Display::fmt(self, f)
    }
}

impl Error for ParseFault {}

/// What is wrong at a token.
#[derive(Clone, Copy)]
pub enum Cause {
    /// It continues no book.
    Expected,
    /// It begins an expression too many levels down, or one too many in its stage.
    TooDeep,
    /// It begins one stage too many.
    TooManyStages,
    /// It stands after a whole book.
    After,
}

/// Why reading stopped, and at which token, counted from 0.
#[derive(Clone, Copy)]
pub(crate) enum Stop {
    At(Cause, usize),
    NoMemory,
}

impl From<NoMemory> for Stop {
    ghost from_gives = { λ _ e. e ≡ OutOfMemory };

    fn from(_e: NoMemory) -> Stop {
        Stop::NoMemory
    }
}

impl From<AllocError> for Stop {
    ghost from_gives = { λ _ e. e ≡ OutOfMemory };

    fn from(_e: AllocError) -> Stop {
        Stop::NoMemory
    }
}

impl<T: Drop> From<AllocFailed<T>> for Stop {
    ghost from_gives = { λ _ e. e ≡ OutOfMemory };

    fn from(_e: AllocFailed<T>) -> Stop {
        Stop::NoMemory
    }
}
