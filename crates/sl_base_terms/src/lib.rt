//! What rulebooks and counting code both speak of: the shapes of columns, the names of stages, and tests in their order.
//!
//! Stands on `sl_base_quotients`; used by the rooms law and code. Proved: which test of a list fails first.
#![tactic(auto)]

mod limits;
mod shape;
mod word;

pub use limits::MAX_STAGES;
pub use shape::{SHAPES, Shape};
pub use word::Word;
