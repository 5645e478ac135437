//! What a command finds outside, as a trait: files by their paths, and the variables of the environment. `Host` is the outside of the system, and the one
//! place where a program meets it; `Shelf` has files that are handed over in memory, whose bytes are known.
//!
//! Stands on `sl_count_inputs`; used by the rooms terminal and page. Proved: a file that is opened has the bytes of its path, where these are known, and a
//! word names a statute or a path.
#![tactic(auto)]

mod host;
mod inputs;
mod outside;
mod shelf;

pub use host::Host;
pub use inputs::{Unopened, open, open_book};
pub use outside::{Outside, Writable};
pub use shelf::{File, Shelf};
