//! Elections whose outcomes are theorems, each by a certificate: the tables of 2013 and 2025, what the order of 2024 changes, and a tie.
//!
//! Stands on `sl_law_certificates` and `sl_law_examples`; nothing stands on it. Proved: all of it.
#![tactic(auto)]

pub mod laws;
