//! The statutes of the library: their trees, and what follows for each of them from the laws of rulebooks.
//!
//! Stands on `sl_law_fairness`; used by the room law. Proved: all of it.
#![tactic(auto)]

pub mod laws;
