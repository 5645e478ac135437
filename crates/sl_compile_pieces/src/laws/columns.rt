//! What these plans achieve. Each function does nothing: its contract is the law.

ghost use Rattle.sl_compile_pieces.specs.columns.Laws.{ColumnsAreCopied, PairsAreTaken, SumsAreTaken};

/// A column is copied.
pub fn columns_are_copied()
    ensures { ColumnsAreCopied }
{}

/// Two columns are paired, cell by cell.
pub fn pairs_are_taken()
    ensures { PairsAreTaken }
{}

/// The cells of a column are summed by party, by Land, or all.
pub fn sums_are_taken()
    ensures { SumsAreTaken }
{}
