//! What is judged, read and written first, and what is left where that fails.

use crate::calls::{Call, Ending, Pace, coded};
use crate::hostile::endings::ends;
use crate::rows::{FIRST_BOOK, FIRST_RETURNS};
use sl_desk::{BookSource, DeskError, Input, Status, check_book, count};
use sl_test_support::{Narrow, Slow};
use std::alloc::Global;

const STEP: usize = 7;

// The first call of the reader of the returns fails.
const RETURNS_FAIL: Pace = Pace {
    step: STEP,
    book_fails: 0,
    returns_fail: 1,
    file_fails: 0,
    out_fails: 0,
};

// That of the reader of the book fails too.
const BOTH_FAIL: Pace = Pace {
    book_fails: 1,
    ..RETURNS_FAIL
};

// Whether a call ended in an error, and nothing was written.
fn failed(ending: &Ending, error: DeskError) -> bool {
    ending.result == Err(error) && ending.written.is_empty()
}

// The book is read first.
#[test]
fn books_before_returns(rt: HostRuntime) {
    let (book, returns) = (FIRST_BOOK.as_bytes(), FIRST_RETURNS.as_bytes());
    let ending = Call::Count.ending(rt.alloc(), book, returns, BOTH_FAIL);
    assert!(rt; failed(&ending, DeskError::Read(Input::Book)));
}

// The returns of a refused book are not read.
#[test]
fn returns_of_a_refused_book(rt: HostRuntime) {
    let ending = Call::Count.ending(rt.alloc(), b"", FIRST_RETURNS.as_bytes(), RETURNS_FAIL);
    assert!(rt; ends(&ending, b"refused book parse 1 0\n", Status::Refused));
}

// How showing a stage of the first book ends whose returns fail.
fn first_staged(alloc: Global, name: &'static str) -> Ending {
    let (book, returns) = (FIRST_BOOK.as_bytes(), FIRST_RETURNS.as_bytes());
    Call::Stage(name).ending(alloc, book, returns, RETURNS_FAIL)
}

// The name of a stage is judged before the returns are read.
#[test]
fn names_before_returns(rt: HostRuntime) {
    let ending = first_staged(rt.alloc(), "q");
    assert!(rt; ends(&ending, b"refused stage q\n", Status::Refused));
}

#[test]
fn returns_of_a_stage(rt: HostRuntime) {
    let ending = first_staged(rt.alloc(), "pool");
    assert!(rt; failed(&ending, DeskError::Read(Input::Returns)));
}

// A book that cannot be read leaves the file and the output empty.
#[test]
fn books_before_files(rt: HostRuntime) {
    let book = Pace {
        book_fails: 2,
        file_fails: 1,
        ..Pace::of(STEP)
    };
    let (ending, file) = coded(rt.alloc(), FIRST_BOOK.as_bytes(), book);
    assert!(rt; failed(&ending, DeskError::Read(Input::Book)) && file.is_empty());
}

type Named<'a> = BookSource<'a, Slow<'a>>;

// Whether a count by a book is refused with a line. The returns fail, if they are read.
fn count_is_refused(alloc: Global, book: &mut Named<'_>, line: &str) -> bool {
    let mut returns = Slow::new(b"", STEP, 1);
    let mut out = Narrow::new(alloc, STEP, 0);
    let result = count(alloc, book, &mut returns, &mut out);
    result == Ok(Status::Refused) && out.taken.as_slice() == line.as_bytes()
}

// Whether a check of a book is refused with a line.
fn check_is_refused(alloc: Global, book: &mut Named<'_>, line: &str) -> bool {
    let mut out = Narrow::new(alloc, STEP, 0);
    let result = check_book(alloc, book, &mut out);
    result == Ok(Status::Refused) && out.taken.as_slice() == line.as_bytes()
}

// Whether a name is refused with a line by both. The second call shows that the first leaves the name as it was.
fn is_refused(alloc: Global, name: &str, line: &str) -> bool {
    let mut book = BookSource::Library(name);
    count_is_refused(alloc, &mut book, line) && check_is_refused(alloc, &mut book, line)
}

#[test]
fn unknown_names_are_refused(rt: HostRuntime) {
    assert!(rt; is_refused(rt.alloc(), "1999", "refused law 1999\n"));
    assert!(rt; is_refused(rt.alloc(), "", "refused law \n"));
}
