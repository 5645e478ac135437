//! The table and the columns of a count, or its legal fault.

use crate::fault::LegalFault;
use crate::table::Table;
use sl_base_terms::Shape;

/// Whether a table has the steps that won its seats, and the weights.
#[derive(Clone, Copy)]
pub enum Records {
    Kept,
    Dropped,
}

/// A column: a number for each entry of its shape. A column of lists has one for each pair of Land and party, by Land and then by party.
#[derive(Drop)]
pub struct Column {
    pub shape: Shape,
    pub cells: Vec<u64>,
}

/// The seat table, and the column of each stage, in the order of the stages.
#[derive(Drop)]
pub struct Counted {
    pub table: Table,
    pub columns: Vec<Column>,
}

/// How a count ends.
#[derive(Drop)]
pub enum End {
    /// With a table.
    Counted(Counted),
    /// With a legal fault.
    Fault(LegalFault),
}
