//! Fairness: how allocations answer to a change of votes, of seats and of entries, and what rulebooks keep by their meaning. All is proved of the
//! definitions of `sl_law_meaning` alone.
//!
//! Stands on `sl_law_meaning`; used by the room law. Proved: all of it.
#![tactic(auto)]

pub mod laws;
