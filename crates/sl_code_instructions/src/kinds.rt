//! What is known of the machine's state at a place of the code.

use crate::operand::{Entries, Ranking};

/// A set of registers: bit r of the mask is set where register r is in it.
#[derive(Clone, Copy)]
pub struct Registers {
    pub mask: u16,
}

/// A set of cursors.
#[derive(Clone, Copy)]
pub struct Cursors {
    pub party: bool,
    pub land: bool,
    pub win: bool,
}

/// A priority table that is on: its entries, their ranking, and whether it is ready, known not to be empty.
#[derive(Clone, Copy)]
pub struct TableState {
    pub entries: Entries,
    pub ranking: Ranking,
    pub ready: bool,
}

/// What is known at a place: the registers that are positive, the cursors that are set, and the table, if it is on.
#[derive(Clone, Copy)]
pub struct Kinds {
    pub positive: Registers,
    pub cursors: Cursors,
    pub table: Option<TableState>,
}
