//! Theorems on the statutes of the library as the program counts them: their texts have the trees of which the theorems on statutes speak, what is
//! counted by a name is counted by that tree, and votes missing are enough in a whole count.
//!
//! Stands on `sl_desk`, `sl_law_margins` and `sl_law_statutes`; nothing stands on it. Proved: all of it.
#![tactic(auto)]

pub mod laws;
