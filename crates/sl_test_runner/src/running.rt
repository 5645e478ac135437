//! Commands, run over files in memory.

use crate::rows::{Call, Named};
use crate::shelf::{Shelf, bytes_of};
use sl_terminal_commands::{AllForms, Documented, Terminal, run};
use sl_terminal_count::{Exit, run as run_counting};
use sl_test_support::Narrow;
use std::alloc::Global;
use std::{fs, io};

/// What came of a command: what it wrote to standard output and standard error, its exit status, and the files that it made.
#[derive(Drop)]
pub(crate) struct Came {
    pub(crate) out: Vec<u8>,
    pub(crate) err: Vec<u8>,
    pub(crate) status: u8,
    pub(crate) made: Vec<Named>,
}

impl Came {
    /// Whether it is what is wanted.
    pub(crate) fn is_wanted(&self, call: &Call) -> bool {
        let (out, wanted) = (self.out.as_slice(), call.out.as_slice());
        let is_out = out == wanted || call.goes_on && out.starts_with(wanted);
        is_out && self.status == call.status && self.err.as_slice() == call.err.as_slice()
    }
}

fn shelf_of<'a>(
    alloc: Global,
    files: &'a [Named],
    variables: &'a [Named],
    step: usize,
) -> Shelf<'a> {
    Shelf {
        alloc,
        files,
        variables,
        step,
        made: Vec::new(alloc),
    }
}

// What the program that counts says of its end on standard error.
fn told(alloc: Global, exit: Exit) -> Vec<u8> {
    if exit.is_told() {
        if let Ok(line) = format!(in alloc; "{exit}\n") {
            return line.into_bytes();
        }
    }
    Vec::new(alloc)
}

// Runs the program that counts.
fn run_counter(alloc: Global, files: &[Named], words: &[String], step: usize) -> Came {
    let shelf = shelf_of(alloc, files, &[], step);
    let mut out = Narrow::new(alloc, step, 0);
    let exit = run_counting(alloc, &shelf, words, &mut out);
    Came {
        out: out.taken,
        err: told(alloc, exit),
        status: exit.number(),
        made: Vec::new(alloc),
    }
}

/// Runs the program that the first of the words names: `seatlaw`, or `seatlaw_count`.
pub(crate) fn run_program(
    alloc: Global,
    files: &[Named],
    variables: &[Named],
    words: &[String],
    step: usize,
) -> Came {
    if words
        .first()
        .is_some_and(|word| word.as_str() == "seatlaw_count")
    {
        return run_counter(alloc, files, words, step);
    }
    let shelf = shelf_of(alloc, files, variables, step);
    let (out, err) = (Narrow::new(alloc, step, 0), Narrow::new(alloc, step, 0));
    let mut terminal = Terminal::new(alloc, shelf, out, err);
    let status = run(&mut terminal, &AllForms, &Documented, words);
    let Terminal {
        outside,
        out,
        err,
        ..
    } = terminal;
    Came {
        out: out.taken,
        err: err.taken,
        status,
        made: outside.made,
    }
}

/// Whether the program that counts, where it has such a command, writes to standard output what the program writes, with its status.
pub(crate) fn counts_as_wanted(alloc: Global, files: &[Named], call: &Call, step: usize) -> bool {
    let came = run_counter(alloc, files, call.words.as_slice(), step);
    came.status == 1 || came.status == call.status && came.out.as_slice() == call.out.as_slice()
}

/// Adds the files that words name in a folder, where there are none of these names yet.
pub(crate) fn add_files(
    rt: &HostRuntime,
    files: &mut Vec<Named>,
    words: &[String],
    folder: &str,
) -> io::Result<()> {
    for word in words {
        let name = word.as_str();
        if bytes_of(files.as_slice(), name).is_none() {
            let alloc = rt.alloc();
            let path = format!(in alloc; "{folder}{name}")?;
            if let Ok(bytes) = fs::read(rt, path.as_str()) {
                files.push(Named::new(alloc, name, bytes.as_slice())?)?;
            }
        }
    }
    Ok(())
}
