//! What each code of a fault means, for `seatlaw explain CODE`: a title, what happened, an example, and what to do, in English or in German.
//!
//! Stands on `sl_explain_texts`; used by the room terminal. Proved: each code has an entry, and it is its own.
//!
//! Where an error is `NoMemory` alone, memory ran out, and nothing else is wrong.
#![tactic(auto)]

mod table;
mod texts;
mod wrapped;

pub use table::{Entry, entry_of, text_about};
