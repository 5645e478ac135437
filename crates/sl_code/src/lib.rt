//! Code files: the spelling of counting code in bytes, and its listing.
//!
//! Stands on `sl_code_instructions` and `sl_law_meaning`; used by the rooms count, explain and test. Proved: bytes spell one code or have one fault,
//! and a code has one spelling.
//!
//! Where an error is `NoMemory` alone, memory ran out, and nothing else is wrong.
#![tactic(auto)]

mod append;
mod decode;
mod fault;
mod file;
pub mod laws;
mod lines;
mod number;
mod reader;
mod spelling;

pub use fault::CodeFault;
pub use file::from_bytes;
pub use lines::listing;
pub use sl_code_instructions::{
    Code, CodeStage, Cursors, EndFault, Entries, Input, Instr, Kinds, MAX_INSTRS, MAX_SLOTS,
    Operand, Operands, Ranking, Registers, Rounding, ScopeKind, TableState,
};
pub use spelling::to_bytes;
