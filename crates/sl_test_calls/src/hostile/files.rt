//! Code files that are cut at every byte, which are refused with their length, and files with a byte changed, which are refused or run.

use crate::assertions::assert_none;
use crate::calls::{Call, Ending, Pace, coded};
use crate::hostile::endings::{STEPS, has_written};
use crate::rows::{FIRST_BOOK, HALT, MIXED, ONE_LIST};
use sl_desk::Status;
use std::alloc::{AllocError, Global};

// The code file of the first book.
fn compiled(alloc: Global) -> Vec<u8> {
    let (_, file) = coded(alloc, FIRST_BOOK.as_bytes(), Pace::of(4096));
    file
}

// Whether a file which is cut is refused with its length.
fn is_cut_refused(alloc: Global, cut: &[u8], step: usize) -> bool {
    let ending = Call::Run.ending(alloc, cut, ONE_LIST.as_bytes(), Pace::of(step));
    match format!(in alloc; "refused code file 4 {}\n", cut.len()) {
        Ok(line) => has_written(&ending, line.as_bytes()),
        Err(_) => false,
    }
}

// The first place where a file can be cut so that it is not.
fn first_cut_wrong(alloc: Global, file: &[u8], step: usize) -> Option<usize> {
    for cut in 0..file.len() {
        if !is_cut_refused(alloc, &file[..cut], step) {
            return Some(cut);
        }
    }
    None
}

#[test]
fn cut_files(rt: HostRuntime) {
    let file = compiled(rt.alloc());
    assert!(rt; file.starts_with(b"SLC\x01"));
    for step in &STEPS {
        assert_none(&rt, first_cut_wrong(rt.alloc(), HALT.as_bytes(), *step));
        assert_none(&rt, first_cut_wrong(rt.alloc(), MIXED, *step));
        assert_none(&rt, first_cut_wrong(rt.alloc(), file.as_slice(), *step));
    }
}

// Whether a word is a number.
fn is_number(word: &str) -> bool {
    for byte in word.as_bytes() {
        if !byte.is_ascii_digit() {
            return false;
        }
    }
    !word.is_empty()
}

// Whether a line is the number of a fault and a place.
fn are_numbers(line: &str) -> bool {
    match line.split_once(' ') {
        Some((fault, place)) => is_number(fault) && is_number(place),
        None => false,
    }
}

// Whether a line, with its line feed, is that.
fn ends_in_numbers(rest: &[u8]) -> bool {
    match std::str::from_utf8(rest) {
        Ok(rest) => rest.strip_suffix('\n').is_some_and(are_numbers),
        Err(_) => false,
    }
}

// Whether a line is the refusal of a code file or of a code.
fn is_refusal(line: &[u8]) -> bool {
    let file = line.strip_prefix(b"refused code file ".as_slice());
    let code = line.strip_prefix(b"refused code verify ".as_slice());
    match (file, code) {
        (Some(rest), _) | (_, Some(rest)) => ends_in_numbers(rest),
        _ => false,
    }
}

// Whether a run may end so: with a refusal of its code, a table, a legal fault, or at the end of its budget.
fn may_end(ending: &Ending) -> bool {
    let text = ending.written.as_slice();
    match ending.result {
        Ok(Status::Refused) => is_refusal(text),
        Ok(Status::Done) => text.starts_with(b"total ") && text.ends_with(b"\n"),
        Ok(Status::Legal) => text.starts_with(b"fault ") && text.ends_with(b"\n"),
        Ok(Status::Budget) => text == b"out of budget\n".as_slice(),
        Err(_) => false,
    }
}

// A file with another byte at a place.
fn changed(alloc: Global, file: &[u8], place: usize, byte: u8) -> Result<Vec<u8>, AllocError> {
    let mut changed = Vec::from_slice(alloc, file)?;
    if let Some(old) = changed.get_mut(place) {
        *old = byte;
    }
    Ok(changed)
}

// Whether a file with another byte at a place is refused or run.
fn may_be_changed(alloc: Global, file: &[u8], place: usize, byte: u8) -> bool {
    match changed(alloc, file, place, byte) {
        Ok(other) => {
            let (file, returns) = (other.as_slice(), ONE_LIST.as_bytes());
            may_end(&Call::Run.ending(alloc, file, returns, Pace::of(4096)))
        }
        Err(_) => false,
    }
}

// The first byte that may not stand at a place.
fn first_byte_wrong(alloc: Global, file: &[u8], place: usize) -> Option<u8> {
    for byte in 0..=u8::MAX {
        if !may_be_changed(alloc, file, place, byte) {
            return Some(byte);
        }
    }
    None
}

// The first place where one may not.
fn first_place_wrong(alloc: Global, file: &[u8]) -> Option<usize> {
    for place in 0..file.len() {
        if first_byte_wrong(alloc, file, place).is_some() {
            return Some(place);
        }
    }
    None
}

#[test]
fn changed_file(rt: HostRuntime) {
    assert_none(&rt, first_place_wrong(rt.alloc(), HALT.as_bytes()));
}

#[test]
fn changed_code_of_a_book(rt: HostRuntime) {
    let file = compiled(rt.alloc());
    assert_none(&rt, first_place_wrong(rt.alloc(), file.as_slice()));
}
