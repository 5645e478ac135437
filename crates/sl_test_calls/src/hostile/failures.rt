//! Readers of one byte a call and writers of three, which fail at each of their calls in turn.

use crate::assertions::assert_none;
use crate::calls::{Call, Ending, Pace, coded, told};
use crate::hostile::endings::status_of;
use crate::hostile::rows::{COVERING, THREE_SEATS};
use crate::rows::{
    FIRST_BOOK, FIRST_RETURNS, FIRST_TABLE, FIVE_LAWS, HALT, HALT_TABLE, ONE_LIST, TIED_RETURNS,
};
use sl_desk::{BookSource, DeskError, Failed, Input, Source, Status, check_book};
use sl_test_support::{Narrow, Slow};
use std::alloc::Global;

// A call that reads returns, or a book alone: its book or code file, its returns, and what it writes.
struct Worked {
    call: Call,
    first: &'static str,
    returns: &'static str,
    text: &'static str,
}

impl Worked {
    fn ending(&self, alloc: Global, pace: Pace) -> Ending {
        self.call.ending(alloc, self.first.as_bytes(), self.returns.as_bytes(), pace)
    }

    // What is read first.
    fn input(&self) -> Input {
        match self.call {
            Call::Run => Input::Code,
            _ => Input::Book,
        }
    }

    // The calls of a reader of one byte until it has reported the end of what is read first: none of a law.
    fn first_reads(&self) -> usize {
        match self.call {
            Call::CountBy(_) => 0,
            _ => self.first.len().saturating_add(1),
        }
    }

    // The same for the returns.
    fn second_reads(&self) -> usize {
        match self.call {
            Call::Check => 0,
            _ => self.returns.len().saturating_add(1),
        }
    }
}

static CALLS: [Worked; 8] = [
    Worked {
        call: Call::Count,
        first: FIRST_BOOK,
        returns: FIRST_RETURNS,
        text: FIRST_TABLE,
    },
    Worked {
        call: Call::Count,
        first: COVERING,
        returns: "kind,land,party,a,b,c\nland,X,,1000,,\nparty,,A,0,,\nlist,X,A,10,10,\nwin,X,A,w1,300,500\nwin,X,A,w2,400,1000\nwin,X,A,w3,360,900\n",
        text: "fault seats list X A tie 1 w2 w3\n",
    },
    Worked {
        call: Call::CountBy("2013"),
        first: "",
        returns: FIVE_LAWS,
        text: "total 13\nparty A 9 3\nparty B 4 0\nlist X A 6 0\nlist X B 3 0\nlist Y A 3 3\nlist Y B 1 0\n",
    },
    Worked {
        call: Call::Steps,
        first: THREE_SEATS,
        returns: TIED_RETURNS,
        text: "seat s all X/A 1 1 60/1\nseat s all X/A 2 2 60/3\nseat s all X/B 1 2 20/1\nbounds s all 60/3 60/5\ntotal 3\nparty A 2 0\nparty B 1 0\nlist X A 2 0\nlist X B 1 0\n",
    },
    Worked {
        call: Call::Stage("pool"),
        first: FIRST_BOOK,
        returns: FIRST_RETURNS,
        text: "all 7\n",
    },
    Worked {
        call: Call::Check,
        first: FIRST_BOOK,
        returns: "",
        text: "book 1 house 8 stages 1 law t\n",
    },
    Worked {
        call: Call::Run,
        first: HALT,
        returns: ONE_LIST,
        text: HALT_TABLE,
    },
    Worked {
        call: Call::Run,
        first: HALT,
        returns: "land,X,,1000,,\n",
        text: "refused returns 1 1\n",
    },
];

// Whether a call ends so, and this was written.
fn ends(ending: &Ending, expected: Result<Status, DeskError>, written: &[u8]) -> bool {
    ending.result == expected && ending.written.as_slice() == written
}

// Whether a call of the desk ends as it has to where a reader fails at a call of its own, after which so many are made.
fn is_read(ending: &Ending, input: Input, reads: usize, text: &[u8], at: usize) -> bool {
    if at <= reads {
        ends(ending, Err(DeskError::Read(input)), b"")
    } else {
        ends(ending, Ok(status_of(text)), text)
    }
}

impl Worked {
    // The first call of the reader of what is read first, such that a call of the desk does not end as it has to where it fails.
    fn first_read_wrong(&self, alloc: Global) -> Option<usize> {
        let reads = self.first_reads();
        for at in 1..=reads.saturating_add(1) {
            let pace = Pace {
                book_fails: at as u64,
                ..Pace::of(1)
            };
            let ending = self.ending(alloc, pace);
            if !is_read(&ending, self.input(), reads, self.text.as_bytes(), at) {
                return Some(at);
            }
        }
        None
    }

    // The same of the reader of the returns.
    fn second_read_wrong(&self, alloc: Global) -> Option<usize> {
        let reads = self.second_reads();
        for at in 1..=reads.saturating_add(1) {
            let pace = Pace {
                returns_fail: at as u64,
                ..Pace::of(1)
            };
            let ending = self.ending(alloc, pace);
            if !is_read(&ending, Input::Returns, reads, self.text.as_bytes(), at) {
                return Some(at);
            }
        }
        None
    }
}

#[test]
fn failing_readers(rt: HostRuntime) {
    for call in &CALLS {
        assert_none(&rt, call.first_read_wrong(rt.alloc()));
        assert_none(&rt, call.second_read_wrong(rt.alloc()));
    }
}

// Bytes that a writer takes at once.
const STEP: usize = 3;

// The calls in which a writer takes a text.
fn puts(text: &[u8]) -> usize {
    text.len().div_ceil(STEP)
}

// What it has taken of a text before a call, from 1.
fn taken_before(text: &[u8], at: usize) -> &[u8] {
    let length = at.saturating_sub(1).saturating_mul(STEP).min(text.len());
    &text[..length]
}

// Whether a writer which fails at a call of its own got the text up to there.
fn is_written(ending: &Ending, text: &[u8], at: usize) -> bool {
    let result = if at <= puts(text) {
        Err(DeskError::Write)
    } else {
        Ok(status_of(text))
    };
    ends(ending, result, taken_before(text, at))
}

// A writer that fails at a call, from 1.
fn failing_at(at: usize) -> Pace {
    Pace {
        out_fails: at as u64,
        ..Pace::of(STEP)
    }
}

// The first call of the writer that got something else where it fails.
fn first_write_wrong(alloc: Global, call: &Worked) -> Option<usize> {
    let text = call.text.as_bytes();
    for at in 1..=puts(text).saturating_add(1) {
        if !is_written(&call.ending(alloc, failing_at(at)), text, at) {
            return Some(at);
        }
    }
    None
}

#[test]
fn failing_writers(rt: HostRuntime) {
    for call in &CALLS {
        assert_none(&rt, first_write_wrong(rt.alloc(), call));
    }
}

// Two pieces of three bytes have gone out where the third fails.
#[test]
fn third_piece(rt: HostRuntime) {
    let (book, returns) = (FIRST_BOOK.as_bytes(), FIRST_RETURNS.as_bytes());
    let ending = Call::Count.ending(rt.alloc(), book, returns, failing_at(3));
    assert!(rt; ends(&ending, Err(DeskError::Write), b"total "));
}

// The same of a book of the library, of this text.
fn first_law_wrong(alloc: Global, text: &[u8]) -> Option<usize> {
    for at in 1..=puts(text).saturating_add(1) {
        if !is_written(&told(alloc, "2023", failing_at(at)), text, at) {
            return Some(at);
        }
    }
    None
}

#[test]
fn failing_writers_of_laws(rt: HostRuntime) {
    let text = told(rt.alloc(), "2023", Pace::of(4096)).written;
    assert!(rt; text.starts_with(b"rulebook 1;\n"));
    assert_none(&rt, first_law_wrong(rt.alloc(), text.as_slice()));
}

// Whether a code file is written up to a call at which it fails, and nothing is listed.
fn is_file_cut(alloc: Global, file: &[u8], at: usize) -> bool {
    let pace = Pace {
        file_fails: at as u64,
        ..Pace::of(STEP)
    };
    let (ending, taken) = coded(alloc, FIRST_BOOK.as_bytes(), pace);
    ends(&ending, Err(DeskError::Write), b"") && taken.as_slice() == taken_before(file, at)
}

// The first call at which that is not so.
fn first_file_wrong(alloc: Global, file: &[u8]) -> Option<usize> {
    for at in 1..=puts(file) {
        if !is_file_cut(alloc, file, at) {
            return Some(at);
        }
    }
    None
}

// The file is written before its listing: where it fails, nothing is listed.
#[test]
fn failing_files(rt: HostRuntime) {
    let (listed, file) = coded(rt.alloc(), FIRST_BOOK.as_bytes(), Pace::of(4096));
    assert!(rt; listed.result == Ok(Status::Done));
    assert_none(&rt, first_file_wrong(rt.alloc(), file.as_slice()));
}

// Whether a listing is written up to a call at which it fails, in addition to the whole file.
fn is_listing_cut(alloc: Global, listing: &[u8], file: &[u8], at: usize) -> bool {
    let (ending, taken) = coded(alloc, FIRST_BOOK.as_bytes(), failing_at(at));
    is_written(&ending, listing, at) && taken.as_slice() == file
}

// The first call at which that is not so.
fn first_listing_wrong(alloc: Global, listing: &[u8], file: &[u8]) -> Option<usize> {
    for at in 1..=puts(listing).saturating_add(1) {
        if !is_listing_cut(alloc, listing, file, at) {
            return Some(at);
        }
    }
    None
}

#[test]
fn failing_listings(rt: HostRuntime) {
    let (listed, file) = coded(rt.alloc(), FIRST_BOOK.as_bytes(), Pace::of(4096));
    let (listing, file) = (listed.written.as_slice(), file.as_slice());
    assert_none(&rt, first_listing_wrong(rt.alloc(), listing, file));
}

// Whether a reader that failed before a check of a book, and does not fail in it, is read.
fn is_read_after_failure(alloc: Global) -> bool {
    let mut source = Slow::new(FIRST_BOOK.as_bytes(), 1, 1);
    let mut buffer = [0u8; 4];
    let has_failed = source.fetch(&mut buffer) == Err(Failed);
    let mut book = BookSource::Reader(source);
    let mut out = Narrow::new(alloc, STEP, 0);
    has_failed
        && check_book(alloc, &mut book, &mut out) == Ok(Status::Done)
        && out.taken.as_slice() == b"book 1 house 8 stages 1 law t\n".as_slice()
}

#[test]
fn earlier_failures(rt: HostRuntime) {
    assert!(rt; is_read_after_failure(rt.alloc()));
}
