//! The program that counts, over what lies outside.
//!
//! Stands on `sl_terminal_outside` and `sl_count_calls`; used by the rooms terminal and test. Proved: what is written and the exit status, from the
//! words of the command line on.
#![tactic(auto)]

mod counting;
mod exit;
mod words;

pub use counting::counted;
pub use exit::{Exit, run};
pub use words::{Count, count_of};
