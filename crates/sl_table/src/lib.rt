//! Seat tables and columns of stages from what a run holds, and the texts of both.
//!
//! Stands on `sl_count_texts` and `sl_code_steps`; used by the room count. Proved: the table is that of what the run holds.
//!
//! Where an error is `NoMemory` alone, memory ran out, and nothing else is wrong.
#![tactic(auto)]

mod stage_form;
mod tables;

pub use sl_count_texts::{Text, fault_text, short_text, steps_text};
pub use stage_form::{column_text, stage_text};
pub use tables::{into_table, table_of};
