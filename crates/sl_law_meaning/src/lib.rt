//! What a rulebook, an election and an outcome are, and what a rulebook means.
//!
//! Stands on `sl_base_terms`; used by the rooms law, book, returns, code, compile and explain. Proved: a rulebook means exactly one outcome on returns.
#![tactic(auto)]

mod book;
mod check_fault;
mod checked;
mod count;
mod election;
mod fact;
mod fault;
mod label;
pub mod laws;
mod limits;
mod table;

pub use book::{
    Axis, Base, Book, ColumnType, Cond, Expr, LastClause, Majority, Number, Pairing, Seating,
    Stage, Unit,
};
pub use check_fault::CheckFault;
pub use checked::CheckedBook;
pub use count::{Column, Counted, End, Records};
pub use election::{ListVotes, Lot, Win};
pub use fact::{FACTS, Fact};
pub use fault::{FaultKind, Item, Items, LegalFault, Scope};
pub use label::Label;
pub use limits::{
    MAX_DEPTH, MAX_LANDS, MAX_LOTS, MAX_NUMBER, MAX_PARTIES, MAX_PARTS, MAX_PER, MAX_SEATS,
    MAX_SLATE, MAX_STAGES, MAX_VOTES, MAX_WINS,
};
pub use sl_base_terms::{SHAPES, Shape, Word};
pub use table::{ListSeats, Mark, Outcome, Placed, SeatStep, Table, Weight};
