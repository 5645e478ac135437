//! The header, which is the first record.

ghost use Rattle.std.specs.Prelude.{◌≡◌};
ghost use Rattle.std.specs.Str.{bytes_eq};
ghost use Rattle.csv.specs.Records.{fields_of};
ghost use Rattle.sl_returns.specs.Cells.{cell};
ghost use Rattle.sl_returns.specs.Headers.{is_header, version_of};
ghost use Rattle.sl_returns.specs.Tests.{may_tell_slate};

use crate::cells::cell;
use crate::schema::{A, B, C, COLUMNS, KIND, LAND, PARTY, column_name};
use csv::ByteRecord;

// The version of the returns, which the header tells. In the second, a list may tell the names left on it.
#[derive(Clone, Copy)]
pub(crate) enum Version {
    First,
    Second,
}

impl Version {
    // The version whose header a record is.
    pub(crate) fn of(fields: &ByteRecord) -> Option<Version>
        ensures { result ≡ version_of (fields_of fields.now) }
    {
        if is_header(fields, b"kind") {
            Some(Version::First)
        } else if is_header(fields, b"kind2") {
            Some(Version::Second)
        } else {
            None
        }
    }

    // Whether a list may tell the names left on it.
    pub(crate) fn may_tell_slate(self) -> bool
        ensures { result ≡ may_tell_slate self }
    {
        matches!(self, Version::Second)
    }
}

// Whether a record is the header that begins with this word.
fn is_header(fields: &ByteRecord, word: &[u8]) -> bool
    ensures { result ≡ is_header word.now (fields_of fields.now) }
{
    fields.len() == COLUMNS
        && is_cell(fields, KIND, word)
        && is_cell(fields, LAND, column_name(LAND))
        && is_cell(fields, PARTY, column_name(PARTY))
        && is_cell(fields, A, column_name(A))
        && is_cell(fields, B, column_name(B))
        && is_cell(fields, C, column_name(C))
}

// Whether the cell of a column is this word.
fn is_cell(fields: &ByteRecord, column: usize, word: &[u8]) -> bool
    ensures { result ≡ bytes_eq (cell (fields_of fields.now) column) word.now }
{
    cell(fields, column) == word
}
