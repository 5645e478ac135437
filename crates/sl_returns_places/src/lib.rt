//! Where the cells of a returns file stand, and a record that is refused, as an explanation speaks of it.
//!
//! Stands on `sl_returns`; used by the rooms explain and test. Proved: the cells that are found hold what the records hold.
#![tactic(auto)]

mod at_fault;
pub mod laws;
mod places;

pub use at_fault::RecordAtFault;
pub use places::{Place, cell_place};
