//! The law of places, over their definitions alone. The function does nothing: its contract is the law.

ghost use Rattle.sl_returns_places.specs.Laws.{CellsHoldRecords};

/// The cells of a text, whose places `cell_place` answers, hold what the `csv` crate reads: record by record, and cell by cell.
pub fn cells_hold_records()
    ensures { CellsHoldRecords }
{}
