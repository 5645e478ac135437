//! The calls of the desk over memory.

use sl_desk::{
    BookSource, DeskError, Status, check_book, code, count, law_text, run_code, stage, steps,
};
use sl_test_support::{Narrow, Slow};
use std::alloc::Global;

/// How a call over memory ends, with what was written.
#[derive(Drop)]
pub struct Ending {
    pub result: Result<Status, DeskError>,
    pub written: Vec<u8>,
}

/// How a call over memory goes: the bytes that a source gives or a sink takes at once, and the call of each that fails, from 1, or 0 for
/// none. A code file is read as a book is.
#[derive(Clone, Copy)]
pub struct Pace {
    pub step: usize,
    pub book_fails: u64,
    pub returns_fail: u64,
    pub file_fails: u64,
    pub out_fails: u64,
}

impl Pace {
    /// No call fails.
    pub fn of(step: usize) -> Pace {
        Pace {
            step,
            book_fails: 0,
            returns_fail: 0,
            file_fails: 0,
            out_fails: 0,
        }
    }

    // A source of a book or of a code file, and one of returns.
    fn first<'a>(self, bytes: &'a [u8]) -> Slow<'a> {
        Slow::new(bytes, self.step, self.book_fails)
    }

    fn returns<'a>(self, bytes: &'a [u8]) -> Slow<'a> {
        Slow::new(bytes, self.step, self.returns_fail)
    }
}

/// A call of the desk that writes to one sink, by a book, by a law of the library, or by a code file.
#[derive(Clone, Copy)]
pub enum Call {
    Count,
    CountBy(&'static str),
    Steps,
    Stage(&'static str),
    StageBy(&'static str, &'static str),
    Check,
    Run,
}

fn run(alloc: Global, file: &[u8], returns: &[u8], pace: Pace, out: &mut Narrow) -> Ended {
    run_code(
        alloc,
        &mut pace.first(file),
        &mut pace.returns(returns),
        out,
    )
}

/// A status, or what failed.
pub type Ended = Result<Status, DeskError>;

impl Call {
    // Its book, which is read, or named where it is one of the library's.
    fn book(self, bytes: &[u8], pace: Pace) -> BookSource<'_, Slow<'_>> {
        match self {
            Call::CountBy(law) | Call::StageBy(law, _) => BookSource::Library(law),
            _ => BookSource::Reader(pace.first(bytes)),
        }
    }

    /// How it ends on a book or a code file and on returns.
    pub fn on(
        self,
        alloc: Global,
        first: &[u8],
        returns: &[u8],
        pace: Pace,
        out: &mut Narrow,
    ) -> Ended {
        let mut book = self.book(first, pace);
        let mut source = pace.returns(returns);
        match self {
            Call::Count | Call::CountBy(_) => count(alloc, &mut book, &mut source, out),
            Call::Steps => steps(alloc, &mut book, &mut source, out),
            Call::Stage(name) | Call::StageBy(_, name) => {
                stage(alloc, &mut book, &mut source, name, out)
            }
            Call::Check => check_book(alloc, &mut book, out),
            Call::Run => run(alloc, first, returns, pace, out),
        }
    }

    /// The same over a sink of its own.
    pub fn ending(self, alloc: Global, first: &[u8], returns: &[u8], pace: Pace) -> Ending {
        let mut out = Narrow::new(alloc, pace.step, pace.out_fails);
        let result = self.on(alloc, first, returns, pace, &mut out);
        Ending {
            result,
            written: out.taken,
        }
    }
}

/// How compiling a book ends, over these sinks.
pub fn code_into(
    alloc: Global,
    book: &[u8],
    pace: Pace,
    file: &mut Narrow,
    out: &mut Narrow,
) -> Ended {
    code(alloc, &mut BookSource::Reader(pace.first(book)), file, out)
}

/// How it ends, with what was written to the file.
pub fn coded(alloc: Global, book: &[u8], pace: Pace) -> (Ending, Vec<u8>) {
    let mut file = Narrow::new(alloc, pace.step, pace.file_fails);
    let mut out = Narrow::new(alloc, pace.step, pace.out_fails);
    let result = code_into(alloc, book, pace, &mut file, &mut out);
    let ending = Ending {
        result,
        written: out.taken,
    };
    (ending, file.taken)
}

/// How writing a book of the library ends.
pub fn told(alloc: Global, law: &str, pace: Pace) -> Ending {
    let mut out = Narrow::new(alloc, pace.step, pace.out_fails);
    let result = law_text(law, &mut out);
    Ending {
        result,
        written: out.taken,
    }
}
