//! Codes of books, and their runs on returns.

use crate::codes::{checked, compiled, ending};
use crate::marks::{begin, end};
use crate::rows::{THREE_LISTS, THREE_METHODS};
use sl_base_quotients::NoMemory;
use sl_code_semantics::Verified;
use sl_compile::compile;
use sl_machine::{Ending, Memory, budget, run, run_unrecorded};
use sl_returns::read_returns;
use sl_stages::{CheckedBook, Returns};
use std::alloc::Global;

// How a run ends that has as many steps as its budget, where memory may be refused.
fn refused_ending(alloc: Global, code: &Verified, returns: &Returns) -> Result<Ending, NoMemory> {
    let steps = budget(code.code().stages().len(), returns);
    begin(alloc);
    let first = run(alloc, code, returns, steps);
    end(alloc);
    match first {
        Ok(ending) => Ok(ending),
        Err(_) => run(alloc, code, returns, steps),
    }
}

// The same without records.
fn unrecorded_ending(
    alloc: Global,
    code: &Verified,
    returns: &Returns,
) -> Result<Ending, NoMemory> {
    let steps = budget(code.code().stages().len(), returns);
    begin(alloc);
    let first = run_unrecorded(alloc, code, returns, steps);
    end(alloc);
    match first {
        Ok(ending) => Ok(ending),
        Err(_) => run_unrecorded(alloc, code, returns, steps),
    }
}

// Whether what a run holds are the seats of three lists and so many steps.
fn are_seats(memory: &Memory, steps: usize) -> bool {
    memory.base() == [4, 3, 1].as_slice() && memory.steps().len() == steps
}

// Whether a run is done and holds them.
fn holds(ending: Result<Ending, NoMemory>, steps: usize) -> bool {
    match ending {
        Ok(Ending::Done(memory)) => are_seats(&memory, steps),
        _ => false,
    }
}

// Whether the run of a book's code holds them, and a step for each seat.
fn is_recorded(alloc: Global, book: &str, returns: &Returns) -> bool {
    match compiled(alloc, book.as_bytes()) {
        Ok(code) => holds(refused_ending(alloc, &code, returns), 8),
        Err(_) => false,
    }
}

// Whether it holds them without records, and no steps.
fn is_unrecorded(alloc: Global, book: &str, returns: &Returns) -> bool {
    match compiled(alloc, book.as_bytes()) {
        Ok(code) => holds(unrecorded_ending(alloc, &code, returns), 0),
        Err(_) => false,
    }
}

// The code of a checked book.
fn coded(alloc: Global, book: &CheckedBook) -> Result<Verified, NoMemory> {
    begin(alloc);
    let first = compile(alloc, book);
    end(alloc);
    match first {
        Ok(code) => Ok(code),
        Err(_) => compile(alloc, book),
    }
}

// Whether the run of that code holds the seats.
fn is_checked_coded(alloc: Global, book: &CheckedBook, returns: &Returns) -> bool {
    match coded(alloc, book) {
        Ok(code) => holds(ending(alloc, &code, returns), 8),
        Err(_) => false,
    }
}

fn is_coded(alloc: Global, book: &str, returns: &Returns) -> bool {
    match checked(alloc, book.as_bytes()) {
        Ok(book) => is_checked_coded(alloc, &book, returns),
        Err(_) => false,
    }
}

// How the code of a book is made and run.
enum Way {
    Recorded,
    Unrecorded,
    Coded,
}

// Whether a run that is made so holds what it has to.
fn is_right(alloc: Global, way: &Way, book: &str, returns: &Returns) -> bool {
    match way {
        Way::Recorded => is_recorded(alloc, book, returns),
        Way::Unrecorded => is_unrecorded(alloc, book, returns),
        Way::Coded => is_coded(alloc, book, returns),
    }
}

// Whether that is so of the book of each method.
fn are_right(alloc: Global, way: &Way, returns: &Returns) -> bool {
    for (book, _) in &THREE_METHODS {
        if !is_right(alloc, way, book, returns) {
            return false;
        }
    }
    true
}

// Whether it is on the returns of three lists.
fn are_right_on_three_lists(alloc: Global, way: &Way) -> bool {
    match read_returns(alloc, THREE_LISTS.as_bytes()) {
        Ok(returns) => are_right(alloc, way, &returns),
        Err(_) => false,
    }
}

#[test]
fn recorded(rt: HostRuntime) {
    assert!(rt; are_right_on_three_lists(rt.alloc(), &Way::Recorded));
}

#[test]
fn unrecorded(rt: HostRuntime) {
    assert!(rt; are_right_on_three_lists(rt.alloc(), &Way::Unrecorded));
}

#[test]
fn coded_books(rt: HostRuntime) {
    assert!(rt; are_right_on_three_lists(rt.alloc(), &Way::Coded));
}
