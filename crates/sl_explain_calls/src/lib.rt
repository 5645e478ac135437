//! Why a command ended without what it was asked for, explained to a person: a value of what the inputs came to, and a text about its fault. Nothing
//! is read, judged or run here.
//!
//! Stands on `sl_desk`, `sl_explain_books`, `sl_explain_returns` and `sl_explain_faults`; used by the rooms report and terminal. Proved:
//! each explanation is of the fault that the value has, and there is none where it has none.
//!
//! Where an error is `NoMemory` alone, memory ran out, and nothing else is wrong.
#![tactic(auto)]

mod calls;
mod explained;
mod opening;
mod refusals;
mod texts;

pub use calls::{
    explain_check, explain_judged, explain_outcome, explain_read, explain_run, explain_verdict,
};
pub use explained::Explained;
pub use opening::{Lost, explain_failure, explain_kept, explain_opening, explain_writing};
pub use refusals::{explain_book, explain_code, explain_election};
