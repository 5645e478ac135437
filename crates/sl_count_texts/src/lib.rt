//! Texts of lines, and those of tables and of legal faults; with the bounds of a table's scopes.
//!
//! Stands on `sl_code_semantics`, `sl_stages` and `sl_ratio`; used by the room count. Proved: the bounds, and the bytes of each text.
//!
//! Where an error is `NoMemory` alone, memory ran out, and nothing else is wrong.
#![tactic(auto)]

mod bounds;
mod bounds_form;
mod fault_form;
pub mod laws;
mod line;
mod orders;
mod party_counts;
mod short_form;
mod steps_form;

pub use bounds::{ScopeBounds, bounds_in_order};
pub use fault_form::fault_text;
pub use line::Text;
pub use orders::steps_in_order;
pub use short_form::short_text;
pub use steps_form::{mark_words, steps_text};
