//! Blocks of counting code: those of facts, of columns, of a split, a growth and a covering, and of the last clause.
//!
//! Stands on `sl_compile_layout` and `sl_compile_pieces`; used by the room compile. Proved: each block does what its plan says, within its share of
//! steps, and passes the verifier wherever its slots are.
#![tactic(auto)]

mod awards;
mod batches;
mod blanks;
mod blocks;
mod columns;
mod covers;
mod easiest;
mod eligible;
mod entries;
mod facts;
mod fills;
mod form;
mod growths;
mod houses;
mod job;
mod majority;
mod scopes;
mod seating;
mod splits;
mod sums;

pub use columns::{copy_block, pair_block, sum_block};
pub use covers::cover_block;
pub use easiest::{Easiest, Share};
pub use eligible::eligible_block;
pub use facts::fact_block;
pub use growths::grow_block;
pub use job::Job;
pub use seating::{names_block, placing_block};
pub use splits::split_block;
