//! The returns of an election, read from records of comma-separated cells.
//!
//! Stands on `sl_stages` and `sl_ratio`; used by the rooms returns and count. Proved: the election that the records tell, or the first fault.
//!
//! Where an error is `NoMemory` alone, memory ran out, and nothing else is wrong.
#![tactic(auto)]

mod builder;
mod cells;
mod fault;
mod header;
mod index;
mod join;
pub mod laws;
mod lot;
mod near;
mod read;
mod refused;
mod schema;
mod sieve;
mod told;

pub use builder::ReturnsBuilder;
pub use cells::{MAX_DIGITS, cell, spelled_number};
pub use fault::{FaultKind, RecordFault, ReturnsFault};
pub use read::{read_or_refuse, read_returns, reader_of};
pub use refused::{Before, MAX_FURTHER, RefusedRecord, RefusedReturns};
pub use schema::{
    A, B, C, COLUMNS, Content, KIND, Kind, LAND, Named, PARTY, Quantity, column_name,
};
pub use sieve::stopped;
