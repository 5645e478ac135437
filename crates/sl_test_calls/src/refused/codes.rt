//! Counting code: read from its bytes, spelled in bytes, and listed.

use crate::codes::compiled;
use crate::marks::{begin, end};
use crate::rows::{FIRST_BOOK, HALT, MIXED, MIXED_LISTING};
use sl_base_quotients::NoMemory;
use sl_code::{Code, CodeFault, from_bytes, listing, to_bytes};
use std::alloc::Global;

// The code of a file.
fn read(alloc: Global, file: &[u8]) -> Result<Code, CodeFault> {
    begin(alloc);
    let first = from_bytes(alloc, file);
    end(alloc);
    match first {
        Ok(code) => Ok(code),
        Err(CodeFault::NoMemory) => from_bytes(alloc, file),
        Err(fault) => Err(fault),
    }
}

// Whether bytes, if there was memory for them, are these.
fn are(bytes: Result<Vec<u8>, NoMemory>, expected: &[u8]) -> bool {
    match bytes {
        Ok(bytes) => bytes.as_slice() == expected,
        Err(_) => false,
    }
}

// Whether a file is read as a code that is spelled in its bytes.
fn is_read(alloc: Global, file: &[u8]) -> bool {
    match read(alloc, file) {
        Ok(code) => are(to_bytes(alloc, &code), file),
        Err(_) => false,
    }
}

#[test]
fn bytes_are_read(rt: HostRuntime) {
    assert!(rt; is_read(rt.alloc(), HALT.as_bytes()));
    assert!(rt; is_read(rt.alloc(), MIXED));
}

// Whether the code file of a book is.
fn is_file_read(alloc: Global, file: Result<Vec<u8>, NoMemory>) -> bool {
    match file {
        Ok(file) => is_read(alloc, file.as_slice()),
        Err(_) => false,
    }
}

fn is_book_read(alloc: Global, book: &str) -> bool {
    match compiled(alloc, book.as_bytes()) {
        Ok(code) => is_file_read(alloc, to_bytes(alloc, code.code())),
        Err(_) => false,
    }
}

#[test]
fn bytes_of_a_book_are_read(rt: HostRuntime) {
    assert!(rt; is_book_read(rt.alloc(), FIRST_BOOK));
}

// The bytes of a code.
fn spelled(alloc: Global, code: &Code) -> Result<Vec<u8>, NoMemory> {
    begin(alloc);
    let first = to_bytes(alloc, code);
    end(alloc);
    match first {
        Ok(bytes) => Ok(bytes),
        Err(_) => to_bytes(alloc, code),
    }
}

// Whether the code of a file is spelled in its bytes.
fn is_spelled(alloc: Global, file: &[u8]) -> bool {
    match from_bytes(alloc, file) {
        Ok(code) => are(spelled(alloc, &code), file),
        Err(_) => false,
    }
}

#[test]
fn bytes_are_spelled(rt: HostRuntime) {
    assert!(rt; is_spelled(rt.alloc(), HALT.as_bytes()));
    assert!(rt; is_spelled(rt.alloc(), MIXED));
}

// The listing of a code.
fn listed(alloc: Global, code: &Code) -> Result<Vec<u8>, NoMemory> {
    begin(alloc);
    let first = listing(alloc, code);
    end(alloc);
    match first {
        Ok(text) => Ok(text),
        Err(_) => listing(alloc, code),
    }
}

// Whether the code of a file has this listing.
fn is_listed(alloc: Global, file: &[u8], text: &[u8]) -> bool {
    match from_bytes(alloc, file) {
        Ok(code) => are(listed(alloc, &code), text),
        Err(_) => false,
    }
}

#[test]
fn listings(rt: HostRuntime) {
    assert!(rt; is_listed(rt.alloc(), HALT.as_bytes(), b"0 halt 0\n"));
    assert!(rt; is_listed(rt.alloc(), MIXED, MIXED_LISTING));
}
