//! Copies of rulebooks.
//!
//! Stands on `sl_law_meaning`; used by the rooms explain and report. Proved: a copy has the tree of what it copies.
//!
//! Where an error is `NoMemory` alone, memory ran out, and nothing else is wrong.
#![tactic(auto)]

mod book;
mod copies;

pub use book::copy_book;
pub use copies::{copy_stage, copy_word};
