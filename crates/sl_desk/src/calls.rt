//! The calls of the desk that do not count by a rulebook.

pub mod check;
pub mod code;
pub mod law;
pub mod run;
