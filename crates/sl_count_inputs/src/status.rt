//! How a call of the desk ends.

ghost use Rattle.std.specs.Prelude.{◌≡◌};
ghost use Rattle.sl_count_inputs.specs.declared.status.DeskError.TheVariants.{NoMemory as OutOfMemory};

use sl_base_quotients::NoMemory;
use std::fmt;
use thiserror::Error;

/// What was written: a table, a refusal, a legal fault, or that the steps ran out.
#[derive(Clone, Copy, Debug, PartialEq, Eq)]
pub enum Status {
    Done = 0,
    Refused = 2,
    Legal = 3,
    Budget = 4,
}

impl Status {
    ghost use Rattle.sl_count_inputs.specs.Statuses.{status_number};

    /// The exit status of the program: 0, 2, 3 or 4.
    pub fn number(self) -> u8
        ensures { result ≡ status_number self }
    {
        self as u8
    }
}

/// Something that a call reads.
#[derive(Clone, Copy, Debug, PartialEq, Eq)]
pub enum Input {
    Book,
    Returns,
    Code,
    /// Full names of parties and Länder, for a report.
    Names,
    /// The seat table of an earlier count, for a report.
    Before,
}

impl Input {
    /// Its word, as messages and formats have it.
    pub fn word(self) -> &'static str {
        match self {
            Input::Book => "book",
            Input::Returns => "returns",
            Input::Code => "code",
            Input::Names => "names",
            Input::Before => "before",
        }
    }
}

impl fmt::Display for Input {
    fn fmt<W: fmt::Write>(&self, f: &mut fmt::Formatter<W>) -> fmt::Result {
        f.write_str(self.word())
    }
}

/// Why a call was not completed.
#[derive(Clone, Copy, Debug, PartialEq, Eq, Error)]
pub enum DeskError {
    #[error("read fault {0}")]
    Read(Input),
    #[error("write fault")]
    Write,
    #[error("out of memory")]
    NoMemory,
}

impl From<NoMemory> for DeskError {
    ghost from_gives = { λ _ e. e ≡ OutOfMemory };

    fn from(_e: NoMemory) -> DeskError {
        DeskError::NoMemory
    }
}
