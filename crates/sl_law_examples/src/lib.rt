//! Small elections as laws: worked scopes and counts by the definitions of the meaning alone; elections in which a method does what no law of
//! `sl_law_fairness` rules out, in which a premise of a law is missing, or in which more votes cost a party a seat by a statute; and small ones in
//! which the premises of a law are met.
//!
//! Stands on `sl_law_statutes`; used by the room law. Proved: all of it.
#![tactic(auto)]

pub mod by_hand;
pub mod elections;
pub mod growth;
pub mod hamilton;
pub mod joins;
pub mod measures;
pub mod premises;
pub mod quota;
pub mod scopes;
pub mod tables;
pub mod votes;
