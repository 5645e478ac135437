//! Why bytes are no code file.

ghost use Rattle.std.specs.Prelude.{◌≡◌};
ghost use Rattle.sl_code.specs.declared.fault.Refusal.TheVariants as refusals;

use sl_base_quotients::NoMemory;
use std::alloc::AllocFailed;
use std::error::Error;
use std::fmt;

/// Why bytes are no code file, with the offset in bytes at which it shows.
#[derive(Clone, Copy)]
pub enum CodeFault {
    /// The file does not begin like a code file.
    Magic(usize),
    /// The version is not 1.
    Version(usize),
    /// The byte has no meaning there.
    Op(usize),
    /// The file ends where a byte is needed.
    Short(usize),
    /// Something follows the code.
    Trailing(usize),
    /// The number is too great.
    Limit(usize),
    /// Memory is wanting.
    NoMemory,
}

impl CodeFault {
    // The text before the offset, the offset, and the text after it. Out of memory has none.
    fn words(self) -> Option<(&'static str, usize, &'static str)> {
        match self {
            CodeFault::Magic(at) => Some(("the file does not begin like a code file at ", at, "")),
            CodeFault::Version(at) => Some(("the version at ", at, " is not 1")),
            CodeFault::Op(at) => Some(("the byte at ", at, " has no meaning there")),
            CodeFault::Short(at) => Some(("the file ends at ", at, ", where a byte is needed")),
            CodeFault::Trailing(at) => Some(("at ", at, " something follows the code")),
            CodeFault::Limit(at) => Some(("the number at ", at, " is too great")),
            CodeFault::NoMemory => None,
        }
    }
}

impl fmt::Display for CodeFault {
    fn fmt<W: fmt::Write>(&self, f: &mut fmt::Formatter<W>) -> fmt::Result {
        let Some((before, at, behind)) = self.words() else {
            return f.write_str("out of memory");
        };
        write!(f, "{before}{at}{behind}")
    }
}

/// Shows the text of `Display`.
impl fmt::Debug for CodeFault {
    fn fmt<W: fmt::Write>(&self, f: &mut fmt::Formatter<W>) -> fmt::Result {
        fmt::Display::fmt(self, f)
    }
}

impl Error for CodeFault {}

/// What is wrong at a byte.
#[derive(Clone, Copy)]
pub(crate) enum Cause {
    Magic,
    Version,
    Op,
    Short,
    Trailing,
    Limit,
}

/// Why reading stopped, and how many bytes were left from there on.
#[derive(Clone, Copy)]
pub(crate) struct Stop {
    pub cause: Cause,
    pub left: usize,
}

/// Why nothing was read.
#[derive(Clone, Copy)]
pub(crate) enum Refusal {
    Stop(Stop),
    NoMemory,
}

impl From<Stop> for Refusal {
    ghost from_gives = { λ stop e. e ≡ refusals.Stop stop };

    fn from(stop: Stop) -> Refusal {
        Refusal::Stop(stop)
    }
}

impl From<NoMemory> for Refusal {
    ghost from_gives = { λ _ e. e ≡ refusals.NoMemory };

    fn from(_e: NoMemory) -> Refusal {
        Refusal::NoMemory
    }
}

impl<T: Drop> From<AllocFailed<T>> for Refusal {
    ghost from_gives = { λ _ e. e ≡ refusals.NoMemory };

    fn from(_e: AllocFailed<T>) -> Refusal {
        Refusal::NoMemory
    }
}
