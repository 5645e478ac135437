//! The order in which entries are awarded seats: their ranking by quotient, the greatest and its peers, and the one that a lot draws, as definitions and
//! laws.
//!
//! Stands on `sl_base_quotients`; used by the rooms base, code and compile. Proved: the laws.
#![tactic(auto)]

pub mod laws;
