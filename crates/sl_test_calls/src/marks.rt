//! Marks between which a test may be refused memory: check/refused.py knows them by the size of the room that they ask for.

use std::alloc::{AllocError, Global};

/// The room asked for where refusals may begin. Nothing else asks for so much.
pub const BEGIN: usize = 77_777;

/// The room asked for where they end.
pub const END: usize = 77_778;

// Asks for room, and gives it back. Whether there is any does not matter.
fn ask(alloc: Global, size: usize) {
    let _room: Result<Vec<u8>, AllocError> = Vec::with_capacity(alloc, size);
}

/// Memory may be refused from here on.
pub fn begin(alloc: Global) {
    ask(alloc, BEGIN);
}

/// Memory may be refused up to here.
pub fn end(alloc: Global) {
    ask(alloc, END);
}
