//! The semantics of counting code, apart from the programs that verify and run it: what is known at each place of a code, and which codes are well
//! kinded; what each instruction does to a state of the machine, how a run ends, and that no run of a well-kinded code is stuck.
//!
//! Stands on `sl_code_instructions`, `sl_base_rankings` and `sl_law_meaning`; used by the rooms code, compile, count and explain.
//! Proved: no run of a well-kinded code is stuck.
#![tactic(auto)]

mod budget;
mod fault;
mod known;
pub mod laws;
mod leaves;
mod verified;

pub use budget::STEPS_EACH;
pub use fault::VerifyFault;
pub use known::{
    LAND_CURSOR, LAST_CLAUSE, LIST_CURSORS, NO_CURSORS, PARTY_CURSOR, REGISTERS, WIN_CURSOR,
    entry_cursors, table_cursors,
};
pub use leaves::{cursors_behind, table_behind, with_ready};
pub use verified::Verified;
