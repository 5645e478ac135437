//! Structured plans of counting code in the program, and how they are laid out as instructions.
//!
//! Stands on `sl_compile_plans`; used by the room compile. Proved: just the instructions of the plan are appended.
#![tactic(auto)]

mod emitter;
mod known;
mod plan;
mod totals;

pub use emitter::{emit, lay, put, size};
pub use plan::{Part, Plan};
pub use sl_compile_plans::{Bound, Cursor, ONES, Test};
pub use totals::sum_column;
