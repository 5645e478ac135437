//! Warnings of what is likely a mistake in returns, or in a rulebook and returns together: as values with their numbers, and as sentences.
//!
//! Stands on `sl_report_parties`, `sl_check` and `sl_explain_texts`; used by the room report. Proved: which warnings there are, and their order.
//!
//! Where an error is `NoMemory` alone, memory ran out, and nothing else is wrong.
#![tactic(auto)]

mod book;
mod lots;
mod returns;
mod sentences;
mod takers;
mod texts;
mod warning;

pub use book::warnings_of;
pub use sentences::{sentence, written};
pub use warning::Warning;
