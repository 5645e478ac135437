//! Explains why a rulebook is refused, and names of statutes and stages that do not exist: what is wrong, where, and what to do, in English or in
//! German. Takes what was read of the rulebook, and reads nothing again.
//!
//! Stands on `sl_book_copies`, `sl_explain_texts`, `sl_laws`, `sl_check` and `sl_parse`; used by the room explain. Proved: the code of each explanation is that of the
//! fault.
//!
//! Where an error is `NoMemory` alone, memory ran out, and nothing else is wrong.
#![tactic(auto)]

mod beginning;
mod clause;
mod further;
mod grammar;
mod keywords;
mod left_out;
mod meant;
mod near;
mod pieces;
mod tests;
mod texts;
mod tokens;
mod unknown;
mod whole;

pub use further::explain_test;
pub use grammar::explain_grammar;
pub use grammar::limits::explain_long_book;
pub use tokens::explain_tokens;
pub use unknown::{explain_unknown_stage, explain_unknown_statute};
