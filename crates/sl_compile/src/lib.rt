//! The compiler: from a checked rulebook to counting code that the verifier accepts, and the laws of such code.
//!
//! Stands on `sl_blocks`; used by the room count. Proved: the code counts as the rulebook means.
#![tactic(auto)]

mod closing;
mod compiler;
mod conditions;
mod earlier;
mod exprs;
mod facts;
pub mod laws;
mod naming;
mod nodes;
mod slots;
mod stages;

pub use compiler::compile;
