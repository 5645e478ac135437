//! The parser: from the tokens of a text to its rulebook.
//!
//! Stands on `sl_lex` and `sl_law_meaning`; used by the rooms count and explain. Proved: the tree is the one that the grammar gives, or the fault is
//! the only one.
//!
//! Where an error is `NoMemory` alone, memory ran out, and nothing else is wrong.
#![tactic(auto)]

mod book;
mod clause;
mod expr;
mod fault;
mod form;
mod head;
pub mod laws;
mod parser;
mod token;
mod words;

pub use fault::{Cause, ParseFault};
pub use parser::{parse, parse_spans};
pub use words::{keyword_method, method_keyword};
