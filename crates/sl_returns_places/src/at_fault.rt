//! A record that is refused, as an explanation speaks of it.

ghost use Rattle.std.specs.Prelude.{◌≡◌};
ghost use Rattle.csv.specs.Records.{fields_of};

use crate::places::{Place, cell_place};
use csv::ByteRecord;
use sl_returns::{Before, KIND, Kind, RefusedRecord, RefusedReturns, ReturnsFault, cell};

/// A record at fault, as an explanation speaks of it.
#[derive(Clone, Copy)]
pub struct RecordAtFault<'a> {
    pub fault: ReturnsFault,
    pub record: &'a ByteRecord,
    pub before: Before,
}

impl<'a> RecordAtFault<'a> {
    ghost use Rattle.sl_returns.specs.Cells.{cell};
    ghost use Rattle.sl_returns.specs.Schema.{kind_named};
    ghost use Rattle.sl_returns.specs.declared.schema.TheConstants.{KIND};
    ghost use Rattle.sl_returns_places.specs.Places.{place_in};

    /// The first record that is refused.
    pub fn first_of(returns: &'a RefusedReturns) -> RecordAtFault<'a>
        ensures fault { result.fault ≡ returns.now.fault }
        ensures fields { fields_of result.record.now ≡ fields_of returns.now.record }
    {
        RecordAtFault {
            fault: returns.fault,
            record: &returns.record,
            before: returns.before,
        }
    }

    /// A record that is refused, to be explained.
    pub fn of(refused: &'a RefusedRecord) -> RecordAtFault<'a>
        ensures fault { result.fault ≡ refused.now.fault }
        ensures fields { fields_of result.record.now ≡ fields_of refused.now.record }
    {
        RecordAtFault {
            fault: refused.fault,
            record: &refused.record,
            before: refused.before,
        }
    }

    /// What the cell of a column holds, nothing where there is none.
    pub fn cell(&self, column: usize) -> &'a [u8]
        ensures { result.now ≡ cell (fields_of self.now.record.now) column }
    {
        cell(self.record, column)
    }

    /// The kind of the record.
    pub fn kind(&self) -> Option<Kind>
        ensures { result ≡ kind_named (cell (fields_of self.now.record.now) KIND) }
    {
        Kind::named(self.cell(KIND))
    }

    /// Where the cell of a column stands in the text of the returns.
    pub fn place(&self, bytes: &[u8], column: usize) -> Option<Place>
        ensures { result ≡ place_in bytes.now self.now.fault.row column }
    {
        cell_place(bytes, self.fault.row, column)
    }
}
