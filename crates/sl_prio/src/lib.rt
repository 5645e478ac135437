//! Priority tables: entries of a scope, of which the greatest and those with its quotient are found.
//!
//! Stands on `sl_base_rankings`; used by the rooms code and test. Proved: what a table answers is that of the entries that it holds.
#![tactic(auto)]

mod awards;
mod heap;
mod lot;
mod peers;
mod places;
mod prio;

pub use awards::AwardTable;
pub use prio::{Drawn, Prio};
pub use sl_base_rankings::laws;
