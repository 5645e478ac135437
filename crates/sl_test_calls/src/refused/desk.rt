//! The calls of the desk: where memory is refused nothing was written, and the same call again writes the row's text.

use crate::calls::{Call, Ended, Pace, code_into};
use crate::marks::{begin, end};
use crate::rows::{
    FIRST_BOOK, FIRST_RETURNS, FIRST_TABLE, FIVE_LAWS, HALT, HALT_TABLE, ONE_LIST, THREE_LISTS,
    THREE_LISTS_TABLE, THREE_METHODS,
};
use sl_desk::{DeskError, Status};
use sl_test_support::Narrow;
use std::alloc::Global;

// Bytes that a source gives at once, and room for those that a sink takes.
const STEP: usize = 4096;

const ROOM: usize = 65_536;

// A call, its book or code file, and its returns.
#[derive(Clone, Copy)]
struct Worked {
    call: Call,
    first: &'static str,
    returns: &'static str,
}

impl Worked {
    fn of(call: Call, first: &'static str, returns: &'static str) -> Worked {
        Worked {
            call,
            first,
            returns,
        }
    }

    // How it ends.
    fn on(&self, alloc: Global, out: &mut Narrow) -> Ended {
        let (first, returns) = (self.first.as_bytes(), self.returns.as_bytes());
        self.call.on(alloc, first, returns, Pace::of(STEP), out)
    }
}

// Whether a call ends well, or writes nothing where memory is refused and ends well when it is made again.
fn ends_well(alloc: Global, call: &Worked, out: &mut Narrow) -> bool {
    begin(alloc);
    let first = call.on(alloc, out);
    end(alloc);
    match first {
        Ok(status) => status == Status::Done,
        Err(DeskError::NoMemory) => {
            out.taken.is_empty() && call.on(alloc, out) == Ok(Status::Done)
        }
        Err(_) => false,
    }
}

// Whether it writes a text.
fn writes(alloc: Global, call: &Worked, text: &str) -> bool {
    match Narrow::with_room(alloc, ROOM) {
        Ok(mut out) => {
            ends_well(alloc, call, &mut out) && out.taken.as_slice() == text.as_bytes()
        }
        Err(_) => false,
    }
}

// Whether a book counts three lists so, with these steps.
fn counts_three(alloc: Global, book: &'static str, steps: &str) -> bool {
    let count = Worked::of(Call::Count, book, THREE_LISTS);
    let with_steps = Worked::of(Call::Steps, book, THREE_LISTS);
    writes(alloc, &count, THREE_LISTS_TABLE) && writes(alloc, &with_steps, steps)
}

#[test]
fn counts(rt: HostRuntime) {
    for (book, steps) in &THREE_METHODS {
        assert!(rt; counts_three(rt.alloc(), book, steps));
    }
}

// Other calls, and what they write.
static CALLS: [(Worked, &str); 4] = [
    (
        Worked {
            call: Call::Stage("pool"),
            first: FIRST_BOOK,
            returns: FIRST_RETURNS,
        },
        "all 7\n",
    ),
    (
        Worked {
            call: Call::StageBy("2013", "floor"),
            first: "",
            returns: FIVE_LAWS,
        },
        "A 9\nB 3\n",
    ),
    (
        Worked {
            call: Call::Check,
            first: FIRST_BOOK,
            returns: "",
        },
        "book 1 house 8 stages 1 law t\n",
    ),
    (
        Worked {
            call: Call::Run,
            first: HALT,
            returns: ONE_LIST,
        },
        HALT_TABLE,
    ),
];

#[test]
fn stages_checks_and_runs(rt: HostRuntime) {
    for (call, text) in &CALLS {
        assert!(rt; writes(rt.alloc(), call, text));
    }
}

// The first book is compiled.
fn coded(alloc: Global, file: &mut Narrow, out: &mut Narrow) -> Ended {
    code_into(alloc, FIRST_BOOK.as_bytes(), Pace::of(STEP), file, out)
}

// Whether that ends well, or writes nothing where memory is refused and ends well when it is done again.
fn is_coded(alloc: Global, file: &mut Narrow, out: &mut Narrow) -> bool {
    begin(alloc);
    let first = coded(alloc, file, out);
    end(alloc);
    match first {
        Ok(status) => status == Status::Done,
        Err(DeskError::NoMemory) => {
            file.taken.is_empty()
                && out.taken.is_empty()
                && coded(alloc, file, out) == Ok(Status::Done)
        }
        Err(_) => false,
    }
}

// Whether a listing is written.
fn is_listed(alloc: Global, file: &mut Narrow) -> bool {
    match Narrow::with_room(alloc, ROOM) {
        Ok(mut out) => is_coded(alloc, file, &mut out) && out.taken.as_slice().starts_with(b"0 "),
        Err(_) => false,
    }
}

// Whether a code file yields the table of the first book.
fn is_first(alloc: Global, file: &[u8]) -> bool {
    let ending = Call::Run.ending(alloc, file, FIRST_RETURNS.as_bytes(), Pace::of(STEP));
    ending.written.as_slice() == FIRST_TABLE.as_bytes()
}

// Whether the file of the first book is written, in addition to its listing.
fn is_file_written(alloc: Global) -> bool {
    match Narrow::with_room(alloc, ROOM) {
        Ok(mut file) => is_listed(alloc, &mut file) && is_first(alloc, file.taken.as_slice()),
        Err(_) => false,
    }
}

// The written file of a book yields its table.
#[test]
fn files(rt: HostRuntime) {
    assert!(rt; is_file_written(rt.alloc()));
}
