//! Certificates: of each scope of a count its seats and a cut, a rank that every seat won reaches and that no waiting claim exceeds. They show
//! the outcome without a count.
//!
//! Stands on `sl_law_margins`; used by the room law. Proved: what a certificate shows is what the rulebook means, and each outcome has one.
#![tactic(auto)]

pub mod laws;
