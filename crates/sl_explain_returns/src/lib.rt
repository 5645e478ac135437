//! Explains why returns are refused: the cell or the record that is at fault, what it holds, and what to write, in English or in German. Takes what
//! the reader of returns hands on, and the place of a cell from its scanner, so no text is split here.
//!
//! Stands on `sl_explain_texts` and `sl_returns_places`; used by the room explain. Proved: the code of each explanation is that of the fault,
//! and its place begins at a cell of the record that is refused, or at an end of the text.
//!
//! Where an error is `NoMemory` alone, memory ran out, and nothing else is wrong.
#![tactic(auto)]

mod case;
mod digits;
mod faults;
mod fields;
mod files;
mod form;
mod further;
mod header;
mod kinds;
mod letters;
mod names;
mod numbers;
mod quotes;
mod texts;
mod twice;
mod unknown;

pub use faults::{explain_long_returns, explain_returns};
