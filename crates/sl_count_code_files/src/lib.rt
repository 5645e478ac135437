//! Code files as inputs: what their bytes come to, and the lines that refuse them.
//!
//! Stands on `sl_count_inputs`, `sl_code` and `sl_verify`; used by the room count. Proved: a code, or the first fault of the bytes.
//!
//! Where an error is `NoMemory` alone, memory ran out, and nothing else is wrong.
#![tactic(auto)]

mod code_file;
mod refusal;

pub use code_file::{ReadCode, judge_code, read_code};
pub use refusal::CodeRefusal;
