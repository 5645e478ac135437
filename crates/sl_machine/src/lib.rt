//! The counting machine.
//!
//! Stands on `sl_code_steps`; used by the rooms count and test. Proved: a run ends as the semantics say.
//!
//! Where an error is `NoMemory` alone, memory ran out, and nothing else is wrong.
#![tactic(auto)]

mod clock;
mod machine;
mod way;

pub use machine::{Ending, budget, run, run_unrecorded};
pub use sl_code_semantics::STEPS_EACH;
pub use sl_code_steps::Memory;
