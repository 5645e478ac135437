//! What is wrong with returns, and where.

ghost use Rattle.std.specs.Prelude.{◌≡◌};
ghost use Rattle.sl_returns.specs.Faults.{fault_at, fault_number, of_cell, of_record};

use std::{error, fmt};
use thiserror::Error;

/// What is wrong with returns, in the order of its numbers, from 1 (docs/returns.md, section 5).
#[derive(Clone, Copy, Debug, PartialEq, Eq)]
pub enum FaultKind {
    /// The first record is not the header.
    Header = 1,
    /// The record has not six cells, or a cell is filled or empty against its kind.
    Fields,
    /// There is no such kind of record.
    Kind,
    /// A name is empty, too long, or has a byte that no name may have.
    Name,
    /// A number is not one to twelve digits.
    Number,
    /// A number is out of its range.
    Range,
    /// A name is not declared.
    Unknown,
    /// It is given a second time.
    Twice,
    /// More votes are counted than are valid.
    Counted,
    /// There are more records of this kind than there may be.
    TooMany,
    /// There is no Land.
    NoLand,
    /// Out of memory.
    NoMemory,
}

impl FaultKind {
    // What it says.
    fn text(self) -> &'static str {
        match self {
            FaultKind::Header => "the first record is not the header",
            FaultKind::Fields =>
                "the record has not six cells, or a cell is filled or empty against its kind",
            FaultKind::Kind => "there is no such kind of record",
            FaultKind::Name => "a name is empty, too long, or has a byte that no name may have",
            FaultKind::Number => "a number is not one to twelve digits",
            FaultKind::Range => "a number is out of its range",
            FaultKind::Unknown => "a name is not declared",
            FaultKind::Twice => "it is told a second time",
            FaultKind::Counted => "more votes are counted than are valid",
            FaultKind::TooMany => "there are more records of this kind than there may be",
            FaultKind::NoLand => "there is no Land",
            FaultKind::NoMemory => "out of memory",
        }
    }

    /// Its number, from 1.
    pub fn number(self) -> u32
        ensures { result ≡ fault_number self }
    {
        self as u32
    }
}

impl fmt::Display for FaultKind {
    fn fmt<W: fmt::Write>(&self, f: &mut fmt::Formatter<W>) -> fmt::Result {
        f.write_str(self.text())
    }
}

impl error::Error for FaultKind {}

/// What is wrong with a record, and the column of the cell that is at fault, from 0; no column where it is the record as a whole.
#[derive(Clone, Copy, Debug, PartialEq, Eq)]
pub struct RecordFault {
    pub kind: FaultKind,
    pub column: Option<usize>,
}

impl FaultKind {
    // This fault of the cell of a column.
    pub(crate) fn of_cell(self, column: usize) -> RecordFault
        ensures { result ≡ of_cell self column }
    {
        RecordFault {
            kind: self,
            column: Some(column),
        }
    }

    // This fault of a record as a whole.
    pub(crate) fn of_record(self) -> RecordFault
        ensures { result ≡ of_record self }
    {
        RecordFault {
            kind: self,
            column: None,
        }
    }
}

/// What is wrong with returns: the row of the record, the header's being 1, the column of the cell that is at fault, from 0, and the fault.
/// There is no column where the record or the file is at fault as a whole. Out of memory has the row 0.
#[derive(Clone, Copy, Debug, PartialEq, Eq, Error)]
#[error("record {row}: {kind}")]
pub struct ReturnsFault {
    pub row: u32,
    pub column: Option<usize>,
    pub kind: FaultKind,
}

impl ReturnsFault {
    // What is wrong with the record of a row.
    pub(crate) fn at(row: u32, fault: RecordFault) -> ReturnsFault
        ensures { result ≡ fault_at row fault }
    {
        ReturnsFault {
            row: if fault.kind == FaultKind::NoMemory {
                0
            } else {
                row
            },
            column: fault.column,
            kind: fault.kind,
        }
    }
}
