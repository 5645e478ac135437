//! Tokens: a rulebook's bytes cut into words, numbers, texts and marks.
//!
//! Stands on `sl_base_quotients`; used by the room book. Proved: a text has exactly the tokens of the definition, or exactly one fault.
#![tactic(auto)]

mod fault;
mod keyword;
pub mod laws;
mod scan;
mod token;

pub use fault::LexFault;
pub use keyword::{KEYWORDS, Keyword};
pub use scan::lex;
pub use sl_base_quotients::MAX_NUMBER;
pub use token::{Kind, Mark, Token};
