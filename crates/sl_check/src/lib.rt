//! The checker of rulebooks: which of them are well formed, and what is wrong with any other.
//!
//! Stands on `sl_law_meaning`; used by the rooms count, explain and report. Proved: a rulebook is typed, or the fault is that of the first test that
//! fails.
#![tactic(auto)]

mod checker;
mod columns;
pub mod laws;
mod names;
mod nodes;
mod parts;
mod shapes;
mod stages;

pub use checker::check;
pub use columns::Columns;
pub use names::{is_one_of, names_one_of};
pub use shapes::types_of;
pub use sl_law_meaning::{CheckFault, CheckedBook};
