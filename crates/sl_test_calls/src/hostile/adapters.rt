//! The adapters of the desk, over a reader and a writer of std.

ghost use Rattle.std.specs.Prelude.{Some};

use crate::assertions::assert_none;
use crate::calls::Ending;
use crate::rows::{FIRST_BOOK, FIRST_RETURNS, FIRST_TABLE};
use sl_desk::{
    BookSource, DeskError, Failed, FromRead, Input, Sink, Source, Status, ToWrite, count,
};
use std::alloc::Global;
use std::io::{self, Error, ErrorKind, Read, Write};

// A reader of one byte a call. Its call numbered `fails_at`, from 1, is interrupted.
#[derive(Drop)]
struct Drip<'a> {
    rest: &'a [u8],
    calls: u64,
    fails_at: u64,
}

impl<'a> Drip<'a> {
    fn new(bytes: &'a [u8], fails_at: u64) -> Drip<'a> {
        Drip {
            rest: bytes,
            calls: 0,
            fails_at,
        }
    }
}

impl<'a> Read for Drip<'a> {
    ghost remaining = { λ r. Some r.rest.now };

    fn read(&mut self, buf: &mut [u8]) -> io::Result<usize> {
        self.calls = self.calls.saturating_add(1);
        if self.calls == self.fails_at {
            return Err(Error::from(ErrorKind::Interrupted));
        }
        let n = buf.len().min(self.rest.len()).min(1);
        let (prefix, rest) = self.rest.split_at(n);
        buf[..n].copy_from_slice(prefix);
        self.rest = rest;
        Ok(n)
    }
}

// What a writer does at the call where it stops.
#[derive(Clone, Copy)]
enum Stop {
    Fails,
    TakesNothing,
}

// A writer that takes one byte a call, but for that numbered `stops_at`, from 1.
#[derive(Drop)]
struct Sip {
    taken: Vec<u8>,
    calls: u64,
    stops_at: u64,
    stop: Stop,
}

impl Sip {
    fn new(alloc: Global, stops_at: u64, stop: Stop) -> Sip {
        Sip {
            taken: Vec::new(alloc),
            calls: 0,
            stops_at,
            stop,
        }
    }
}

impl Write for Sip {
    ghost contents = { λ w. Some w.taken.items };

    fn write(&mut self, buf: &[u8]) -> io::Result<usize> {
        self.calls = self.calls.saturating_add(1);
        if self.calls == self.stops_at {
            return match self.stop {
                Stop::Fails => Err(Error::from(ErrorKind::Interrupted)),
                Stop::TakesNothing => Ok(0),
            };
        }
        let n = buf.len().min(1);
        match self.taken.extend_from_slice(&buf[..n]) {
            Ok(()) => Ok(n),
            Err(_) => Err(Error::from(ErrorKind::OutOfMemory)),
        }
    }

    fn flush(&mut self) -> io::Result<()> {
        Ok(())
    }
}

// The calls at which a reader of the book, one of the returns, and a writer stop, from 1; none at 0.
#[derive(Clone, Copy)]
struct Stops {
    book: u64,
    returns: u64,
    out: u64,
    stop: Stop,
}

const NONE: Stops = Stops {
    book: 0,
    returns: 0,
    out: 0,
    stop: Stop::Fails,
};

// How the first count ends over them.
fn counted(alloc: Global, stops: Stops) -> Ending {
    let book = Drip::new(FIRST_BOOK.as_bytes(), stops.book);
    let mut book = BookSource::Reader(FromRead::new(book));
    let mut returns = FromRead::new(Drip::new(FIRST_RETURNS.as_bytes(), stops.returns));
    let mut under = Sip::new(alloc, stops.out, stops.stop);
    let mut out = ToWrite::new(&mut under);
    let result = count(alloc, &mut book, &mut returns, &mut out);
    Ending {
        result,
        written: under.taken,
    }
}

// Whether a count ends so, with this text written.
fn ends(alloc: Global, stops: Stops, expected: Result<Status, DeskError>, written: &[u8]) -> bool {
    let ending = counted(alloc, stops);
    ending.result == expected && ending.written.as_slice() == written
}

// Whether the failure of a call of the book's reader ends a count, and nothing is written.
fn ends_at_book(alloc: Global, call: u64) -> bool {
    let stops = Stops { book: call, ..NONE };
    ends(alloc, stops, Err(DeskError::Read(Input::Book)), b"")
}

// The same of a call of the returns' reader.
fn ends_at_returns(alloc: Global, call: u64) -> bool {
    let stops = Stops {
        returns: call,
        ..NONE
    };
    ends(alloc, stops, Err(DeskError::Read(Input::Returns)), b"")
}

// Some calls of a reader of a text: the last two are that of its last byte, and that of its end.
fn calls_of(text: &str) -> [usize; 5] {
    let last = text.len();
    [1, 2, 60, last, last.saturating_add(1)]
}

// The first of them whose failure does not end a count so.
fn first_book_call_wrong(alloc: Global) -> Option<usize> {
    for call in &calls_of(FIRST_BOOK) {
        if !ends_at_book(alloc, *call as u64) {
            return Some(*call);
        }
    }
    None
}

#[test]
fn readers_of_books(rt: HostRuntime) {
    assert_none(&rt, first_book_call_wrong(rt.alloc()));
}

fn first_returns_call_wrong(alloc: Global) -> Option<usize> {
    for call in &calls_of(FIRST_RETURNS) {
        if !ends_at_returns(alloc, *call as u64) {
            return Some(*call);
        }
    }
    None
}

#[test]
fn readers_of_returns(rt: HostRuntime) {
    assert_none(&rt, first_returns_call_wrong(rt.alloc()));
}

// Readers that stop after the end of what they read.
const NEVER: Stops = Stops {
    book: FIRST_BOOK.len() as u64 + 2,
    returns: FIRST_RETURNS.len() as u64 + 2,
    ..NONE
};

#[test]
fn readers_that_do_not_stop(rt: HostRuntime) {
    assert!(rt; ends(rt.alloc(), NEVER, Ok(Status::Done), FIRST_TABLE.as_bytes()));
}

// Whether a call of the writer that stops ends a count, and what came before is written.
fn ends_at_out(alloc: Global, call: usize, stop: Stop) -> bool {
    let stops = Stops {
        out: call as u64,
        stop,
        ..NONE
    };
    match FIRST_TABLE.as_bytes().get(..call.saturating_sub(1)) {
        Some(written) => ends(alloc, stops, Err(DeskError::Write), written),
        None => false,
    }
}

// The first call of which that is not so.
fn first_out_call_wrong(alloc: Global, stop: Stop) -> Option<usize> {
    for call in 1..=FIRST_TABLE.len() {
        if !ends_at_out(alloc, call, stop) {
            return Some(call);
        }
    }
    None
}

#[test]
fn writers_of_std(rt: HostRuntime) {
    assert_none(&rt, first_out_call_wrong(rt.alloc(), Stop::Fails));
    assert_none(&rt, first_out_call_wrong(rt.alloc(), Stop::TakesNothing));
}

// Whether a failure is counted and not tried again, and the next call goes on with the same byte.
fn goes_on_reading(source: &mut impl Source) -> bool {
    let mut buffer = [0u8; 4];
    source.fetch(&mut buffer) == Ok(1)
        && source.fetch(&mut buffer) == Err(Failed)
        && source.failures() == 1
        && source.fetch(&mut buffer) == Ok(1)
        && buffer[0] == b'b'
        && source.fetch(&mut buffer) == Ok(0)
        && source.failures() == 1
}

#[test]
fn a_fetch(rt: HostRuntime) {
    assert!(rt; goes_on_reading(&mut FromRead::new(Drip::new(b"ab", 2))));
}

// Whether a failure is counted, the next call goes on, and taking nothing of an empty piece is no failure.
fn goes_on_writing(sink: &mut impl Sink) -> bool {
    sink.put(b"ab") == Ok(1)
        && sink.put(b"") == Ok(0)
        && sink.failures() == 0
        && sink.put(b"b") == Err(Failed)
        && sink.failures() == 1
        && sink.put(b"b") == Ok(1)
        && sink.failures() == 1
}

#[test]
fn a_put(rt: HostRuntime) {
    let mut failing = ToWrite::new(Sip::new(rt.alloc(), 3, Stop::Fails));
    assert!(rt; goes_on_writing(&mut failing));
}

#[test]
fn a_put_of_which_nothing_is_taken(rt: HostRuntime) {
    let mut full = ToWrite::new(Sip::new(rt.alloc(), 3, Stop::TakesNothing));
    assert!(rt; goes_on_writing(&mut full));
}
