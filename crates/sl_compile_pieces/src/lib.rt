//! The plans of the parts of a rulebook, from seats awarded in a priority table to the last clause, and what they achieve.
//!
//! Stands on `sl_compile_plans`; used by the room compile. Proved: each plan leaves what its part means, or ends with the fault that it means.
#![tactic(auto)]

mod arguments;
mod form;
pub mod laws;
pub mod registers;
pub mod slots;

pub use arguments::Arguments;
pub use form::Form;
