//! The program, from its words to its exit status.

ghost use Rattle.std.specs.Prelude.{◌≡◌, map, string_bytes};
ghost use Rattle.sl_terminal_count.specs.Exits.{IsExit, exit_number, is_told};

use crate::counting::counted;
use crate::words::count_of;
use sl_count_inputs::{DeskError, Sink, Status};
use sl_terminal_outside::Outside;
use std::alloc::Global;
use std::fmt;

/// How the program ends.
#[derive(Clone, Copy)]
pub enum Exit {
    /// Its words ask for no count.
    NoCount,
    /// A text was written.
    Written(Status),
    /// It was not completed.
    Failed(DeskError),
}

impl Exit {
    /// The exit status.
    pub fn number(self) -> u8
        ensures { result ≡ exit_number self }
    {
        match self {
            Exit::NoCount => 1,
            Exit::Written(status) => status.number(),
            Exit::Failed(_) => 5,
        }
    }

    /// Whether there is a line for standard error.
    pub fn is_told(self) -> bool
        ensures { result ≡ is_told self }
    {
        !matches!(self, Exit::Written(_))
    }
}

impl fmt::Display for Exit {
    fn fmt<W: fmt::Write>(&self, f: &mut fmt::Formatter<W>) -> fmt::Result {
        match self {
            Exit::NoCount => write!(
                f,
                "this program takes count, steps or stage with their words, and no options"
            ),
            Exit::Written(_) => Ok(()),
            Exit::Failed(error) => write!(f, "{error}"),
        }
    }
}

/// Runs the program: counts what its words ask for, and writes it to `out`.
pub fn run<O: Outside, W: Sink>(alloc: Global, outside: &O, words: &[String], out: &mut W) -> Exit
    ensures { IsExit (O.bytes outside.now) (map string_bytes words.now) (W.contents out.old) (W.contents out.new) result }
{
    match count_of(words) {
        Some(count) => match counted(alloc, outside, count, out) {
            Ok(status) => Exit::Written(status),
            Err(error) => Exit::Failed(error),
        },
        None => Exit::NoCount,
    }
}
