//! The returns of an election in memory; hands on what a rulebook, an election and an outcome are, and the laws on what a rulebook means.
//!
//! Stands on `sl_law_meaning`; used by the rooms returns, code, count, explain and report. Proved: the returns are the election that was put into
//! them, in range.
#![tactic(auto)]

mod cell;
mod find;
mod returns;

pub use returns::Returns;
pub use sl_law_meaning::{
    Axis, Base, Book, CheckFault, CheckedBook, Column, ColumnType, Cond, Counted, End, Expr, FACTS,
    Fact, FaultKind, Item, Items, Label, LastClause, LegalFault, ListSeats, ListVotes, Lot,
    MAX_DEPTH, MAX_LANDS, MAX_LOTS, MAX_NUMBER, MAX_PARTIES, MAX_PARTS, MAX_PER, MAX_SEATS,
    MAX_SLATE, MAX_STAGES, MAX_VOTES, MAX_WINS, Majority, Mark, Number, Outcome, Pairing, Placed,
    Records, SHAPES, Scope, SeatStep, Seating, Shape, Stage, Table, Unit, Weight, Win, Word, laws,
};
