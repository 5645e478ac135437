//! Structured plans of counting code: what they are, what they do, and which instructions they stand for.
//!
//! Stands on `sl_code_semantics`; used by the room compile. Proved: wherever a plan's instructions stand, a run of them does what the plan says,
//! within its cost.
#![tactic(auto)]

pub mod laws;
mod plan;

pub use plan::{Bound, Cursor, ONES, Test};
