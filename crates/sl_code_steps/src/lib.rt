//! The steps of the counting machine: its state in memory, what each instruction does to it, and what a run leaves.
//!
//! Stands on `sl_code_semantics`, `sl_prio` and `sl_stages`; used by the rooms code and count. Proved: a step does what the semantics say.
//!
//! Where an error is `NoMemory` alone, memory ran out, and nothing else is wrong.
#![tactic(auto)]

mod arithmetic;
mod cell_cursors;
mod column;
mod columns;
mod cursor;
mod cursors;
mod draws;
mod ends;
mod lots;
mod memory;
mod priority;
mod records;
mod step;
mod store;
mod table;

pub use memory::Memory;
pub use step::{Drops, Effect, End, Keeps, Recording, Records};
pub use store::Store;
