//! The cells of a record, and the tests of each.

ghost use Rattle.std.specs.Prelude.{◌≡◌, ◌≤◌, None, Some, true, IfOk, IfErr, OnOk, if◌then◌else◌};
ghost use Rattle.std.specs.Option.{ForSome};
ghost use Rattle.std.specs.Char.{is_ascii_digit};
ghost use Rattle.csv.specs.Records.{fields_of};
ghost use Rattle.sl_base_quotients.specs.Names.{is_name};
ghost use Rattle.sl_returns.specs.Cells.{cell, is_blank, is_number, number_of, number_or_none};
ghost use Rattle.sl_returns.specs.Faults.{of_cell, of_record};
ghost use Rattle.sl_returns.specs.Schema.{least, greatest};
ghost use Rattle.sl_returns.specs.Tests.{Pass, FailBy, one_test, empty_tests, blanks, name_tests, new_tests, known_tests, known_or_none_tests, number_tests, number_or_none_tests};

use crate::fault::{FaultKind, RecordFault};
use crate::schema::{COLUMNS, Content, Kind, LAND, Quantity};
use csv::ByteRecord;
use sl_base_quotients::spelling_fault;

/// The greatest number of digits in a number.
pub const MAX_DIGITS: usize = 12;

/// The cell of a column, which is empty where the record has no such column.
pub fn cell(fields: &ByteRecord, column: usize) -> &[u8]
    ensures { result.now ≡ cell (fields_of fields.now) column }
{
    match fields.get(column) {
        Some(cell) => cell,
        None => &[],
    }
}

// A test of a record as a whole.
#[tactic(auto, unfolding(crate::specs::Tests::one_test))]
pub(crate) fn ensure(holds: bool, kind: FaultKind) -> Result<(), RecordFault>
    ensures passed { OnOk result (Pass (one_test holds (of_record kind))) }
    ensures held { OnOk result (holds ≡ true) }
    ensures failed { IfErr result (FailBy (one_test holds (of_record kind))) }
{
    if holds { Ok(()) } else { Err(kind.of_record()) }
}

// A test of the cell of a column.
#[tactic(auto, unfolding(crate::specs::Tests::one_test))]
pub(crate) fn ensure_cell(holds: bool, kind: FaultKind, column: usize) -> Result<(), RecordFault>
    ensures passed { OnOk result (Pass (one_test holds (of_cell kind column))) }
    ensures held { OnOk result (holds ≡ true) }
    ensures failed { IfErr result (FailBy (one_test holds (of_cell kind column))) }
{
    if holds {
        Ok(())
    } else {
        Err(kind.of_cell(column))
    }
}

// The test of the cell of a column, where it is to be empty.
#[tactic(auto, unfolding(crate::specs::Tests::one_test, crate::specs::Tests::blank_tests))]
fn empty(content: Content, column: usize, cell: &[u8]) -> Result<(), RecordFault>
    ensures passed { OnOk result (Pass (empty_tests content column cell.now)) }
    ensures failed { IfErr result (FailBy (empty_tests content column cell.now)) }
{
    match content {
        Content::Blank => ensure_cell(cell.is_empty(), FaultKind::Fields, column),
        Content::Kind
        | Content::NewName(_)
        | Content::KnownName(_)
        | Content::KnownNameOrNone(_)
        | Content::StageName
        | Content::Number(_)
        | Content::NumberOrNone(_) => Ok(()),
    }
}

// The tests of the cells that are to be empty in a record of a kind.
pub(crate) fn blanks(kind: Kind, fields: &ByteRecord) -> Result<(), RecordFault>
    ensures passed { OnOk result (Pass (blanks kind (fields_of fields.now))) }
    ensures failed { IfErr result (FailBy (blanks kind (fields_of fields.now))) }
{
    for column in LAND..COLUMNS {
        empty(kind.content(column), column, cell(fields, column))?;
    }
    Ok(())
}

// Whether a name is well spelled.
fn is_name(name: &[u8]) -> bool
    ensures { result ≡ is_name name.now }
{
    spelling_fault(name).is_none()
}

// The test of a name.
#[tactic(auto, unfolding(crate::specs::Tests::one_test, crate::specs::Tests::name_tests))]
pub(crate) fn name(column: usize, name: &[u8]) -> Result<(), RecordFault>
    ensures passed { OnOk result (Pass (name_tests column name.now)) }
    ensures spelled { OnOk result (is_name name.now ≡ true) }
    ensures failed { IfErr result (FailBy (name_tests column name.now)) }
{
    ensure_cell(is_name(name), FaultKind::Name, column)
}

// The tests of a name that is to be new, by its number in a list of names, if it is there.
#[tactic(auto, unfolding(crate::specs::Tests::one_test, crate::specs::Tests::name_tests, crate::specs::Tests::new_tests))]
pub(crate) fn new_name(column: usize, name: &[u8], found: Option<usize>) -> Result<(), RecordFault>
    ensures passed { OnOk result (Pass (new_tests found column name.now)) }
    ensures failed { IfErr result (FailBy (new_tests found column name.now)) }
{
    ensure_cell(is_name(name), FaultKind::Name, column)?;
    ensure_cell(found.is_none(), FaultKind::Twice, column)
}

// The number of a name that is to be known, by what was found of it, and its tests.
#[tactic(auto, unfolding(crate::specs::Tests::one_test, crate::specs::Tests::name_tests, crate::specs::Tests::known_tests))]
pub(crate) fn known_name(
    column: usize,
    name: &[u8],
    found: Option<usize>,
) -> Result<usize, RecordFault>
    ensures passed { OnOk result (Pass (known_tests found column name.now)) }
    ensures number { IfOk result (λ number. found ≡ Some number) }
    ensures failed { IfErr result (FailBy (known_tests found column name.now)) }
{
    ensure_cell(is_name(name), FaultKind::Name, column)?;
    found.ok_or(FaultKind::Unknown.of_cell(column))
}

// The same, where an empty cell stands for none.
#[tactic(auto, unfolding(crate::specs::Tests::known_or_none_tests))]
pub(crate) fn known_or_none(
    column: usize,
    name: &[u8],
    found: Option<usize>,
) -> Result<Option<usize>, RecordFault>
    ensures passed { OnOk result (Pass (known_or_none_tests found column name.now)) }
    ensures number { IfOk result (λ number. number ≡ (if is_blank name.now then None else found)) }
    ensures failed { IfErr result (FailBy (known_or_none_tests found column name.now)) }
{
    if name.is_empty() {
        return Ok(None);
    }
    let number = known_name(column, name, found)?;
    Ok(Some(number))
}

/// The number that a cell spells, if it is one to twelve digits.
pub fn spelled_number(cell: &[u8]) -> Option<u64>
    ensures { result ≡ (if is_number cell.now then Some (number_of cell.now) else None) }
{
    if cell.is_empty() || cell.len() > MAX_DIGITS {
        return None;
    }
    let mut number = 0;
    for byte in cell {
        if !byte.is_ascii_digit() {
            return None;
        }
        number = number * 10 + u64::from(*byte - b'0');
    }
    Some(number)
}

// The number of a cell, which is in the range of a quantity.
#[tactic(auto, unfolding(crate::specs::Tests::one_test, crate::specs::Tests::number_tests))]
pub(crate) fn number(column: usize, cell: &[u8], quantity: Quantity) -> Result<u32, RecordFault>
    ensures passed { IfOk result (λ n. Pass (number_tests (least quantity) (greatest quantity) column cell.now) × (n ≡ number_of cell.now) × (least quantity ≤ n) × (n ≤ greatest quantity)) }
    ensures failed { IfErr result (FailBy (number_tests (least quantity) (greatest quantity) column cell.now)) }
{
    let number = spelled_number(cell).ok_or(FaultKind::Number.of_cell(column))?;
    let least = u64::from(quantity.least());
    let greatest = u64::from(quantity.greatest());
    ensure_cell(
        least <= number && number <= greatest,
        FaultKind::Range,
        column,
    )?;
    Ok(number as u32)
}

// The same, where the cell may be empty.
#[tactic(auto, unfolding(crate::specs::Tests::number_or_none_tests))]
pub(crate) fn number_or_none(
    column: usize,
    cell: &[u8],
    quantity: Quantity,
) -> Result<Option<u32>, RecordFault>
    ensures passed { OnOk result (Pass (number_or_none_tests (least quantity) (greatest quantity) column cell.now)) }
    ensures number { IfOk result (λ n. n ≡ number_or_none cell.now) }
    ensures within { IfOk result (λ n. ForSome n (λ m. m ≤ greatest quantity)) }
    ensures failed { IfErr result (FailBy (number_or_none_tests (least quantity) (greatest quantity) column cell.now)) }
{
    if cell.is_empty() {
        return Ok(None);
    }
    let number = number(column, cell, quantity)?;
    Ok(Some(number))
}
