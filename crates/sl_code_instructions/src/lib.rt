//! Counting code in memory: instructions with their rows and operands, and codes of them.
//!
//! Stands on `sl_base_terms`; used by the room code. Proved: a code keeps the limits of its format, and its operands fit their bytes.
#![tactic(auto)]

mod code;
mod instr;
mod kinds;
mod number;
mod operand;
mod parts;
mod rows;

pub use code::{Code, CodeStage, MAX_INSTRS, MAX_SLOTS};
pub use instr::Instr;
pub use kinds::{Cursors, Kinds, Registers, TableState};
pub use operand::{
    END_FAULTS, ENTRY_KINDS, EndFault, Entries, INPUTS, Input, RANKINGS, Ranking, Rounding,
    SCOPE_KINDS, ScopeKind,
};
pub use parts::{Operand, Operands};
