//! The sheets of several rulebooks, side by side.

ghost use Rattle.std.specs.Prelude.{◌≡◌, ◌<◌, All, IfOk, IfSome, OnOk, map, string_bytes};
ghost use Rattle.sl_report_forms.specs.Cells.{content_of};
ghost use Rattle.sl_report_forms.specs.Tables.{contents_of, table_of, under, with_heads};
ghost use Rattle.sl_report_tables.specs.Compare.{AreComparison, IsBooksTable, beyond, book_row, compare_table, compared_cell, compared_name, compared_row, fault_cell, seats_of, unseated};
ghost use Rattle.sl_report_tables.specs.inner.Seated.{AreSeated, IsSeated, books_of};
ghost use Rattle.sl_law_meaning.specs.returns.Election.{parties_of};

use crate::changes::{changes_sheet, each_sheet};
use crate::faults::kind_cell;
use crate::lists_compared::list_seats_sheet;
use crate::naming::{owned, text_of};
use crate::rows::{party as party_of, party_name};
use crate::seated::{Seated, seated_books, seats_in};
use crate::stages::stage_number;
use crate::texts::{COMPARED_TITLE, RULEBOOKS_TITLE};
use sl_base_quotients::NoMemory;
use sl_report_forms::{ALL, Cell, ColumnForm, Look, Sheet, Title};
use sl_report_parties::{house_of, open_winners, seats_in_all};
use sl_report_results::{Column, Counted};
use sl_stages::{Book, CheckedBook, LegalFault, Returns};
use std::alloc::Global;

/// A rulebook by the word that names it, with what it comes to: a count, or a legal fault.
#[derive(Drop)]
pub struct Judged {
    pub word: String,
    pub book: CheckedBook,
    pub counted: Option<Counted>,
    pub fault: Option<LegalFault>,
}

const BOOKS: [ColumnForm; 7] = [
    ("book", "book", "Regelwerk", Look::Text(20)),
    ("law", "law", "Gesetz", Look::Text(40)),
    ("seats", "seats", "Sitze", Look::Number),
    ("beyond", "beyond", "über Hausgröße", Look::Number),
    ("open", "not seated", "Sieger ohne Sitz", Look::Number),
    (
        "differs",
        "differs from",
        "erste andere Stufe",
        Look::Text(12),
    ),
    ("fault", "fault", "Fehler", Look::Text(14)),
];

/// Who is compared.
pub(crate) const COMPARE: [ColumnForm; 2] = [
    ("party", "", "", Look::Hidden),
    ("party_name", "party", "Partei", Look::Text(15)),
];

// The column of a stage of that name.
fn column_of<'a>(book: &Book, counted: &'a Counted, name: &[u8]) -> Option<&'a Column> {
    counted.columns.get(stage_number(book, name)?)
}

// Whether a book has no stage of that name with this column.
fn differs(judged: &Judged, name: &[u8], column: &Column) -> bool {
    let Some(counted) = &judged.counted else {
        return true;
    };
    match column_of(&judged.book.book, counted, name) {
        Some(other) => other.cells.as_slice() != column.cells.as_slice(),
        None => true,
    }
}

// The first stage of one book whose column another one has not.
fn first_difference<'a>(left: &'a Judged, right: &Judged) -> Option<&'a str> {
    let counted = left.counted.as_ref()?;
    let book = &left.book.book;
    for (number, column) in counted.columns.iter().enumerate() {
        if let Some(stage) = book.stages.get(number) {
            if differs(right, stage.name.as_bytes(), column) {
                return Some(text_of(stage.name.as_bytes()));
            }
        }
    }
    None
}

/// The kind of the fault to which a book comes.
pub(crate) fn fault_cell(judged: &Judged) -> Cell
    ensures { content_of result ≡ fault_cell judged.now.fault }
{
    match &judged.fault {
        Some(fault) => kind_cell(&fault.kind),
        None => Cell::Empty,
    }
}

// The name of the stage in which a count differs from that of the first book, if it does; nothing where there is no count.
fn difference_cell(
    alloc: Global,
    first: Option<&Judged>,
    judged: &Judged,
) -> Result<Cell, NoMemory> {
    if judged.counted.is_none() {
        return Ok(Cell::Empty);
    }
    match first.and_then(|first| first_difference(first, judged)) {
        Some(stage) => Ok(Cell::Text(owned(alloc, stage)?)),
        None => Ok(Cell::Empty),
    }
}

// The seats that a book distributes, where there is a count.
fn seats_of(judged: &Judged) -> Option<u64>
    ensures { result ≡ seats_of judged.now.counted }
{
    match &judged.counted {
        Some(counted) => Some(seats_in_all(&counted.table).seats),
        None => None,
    }
}

// Those of them beyond the house.
fn beyond(judged: &Judged, returns: &Returns) -> Option<u64>
    ensures { result ≡ beyond returns.now judged.now.book.book judged.now.counted }
{
    match seats_of(judged) {
        Some(seats) => Some(seats.saturating_sub(house_of(&judged.book.book, returns))),
        None => None,
    }
}

// The winners who are not seated, where there is a count.
fn unseated(judged: &Judged) -> Option<u64>
    ensures { result ≡ unseated judged.now.counted }
{
    match &judged.counted {
        Some(counted) => Some(open_winners(&counted.table)),
        None => None,
    }
}

// The row of a book, which differs so from the first one.
fn book_row(
    alloc: Global,
    returns: &Returns,
    judged: &Judged,
    difference: Cell,
) -> Result<Vec<Cell>, NoMemory>
    ensures { IfOk result (λ row. contents_of row.items ≡ book_row returns.now judged.now (content_of difference)) }
{
    Ok(vec![in alloc;
        Cell::Text(owned(alloc, judged.word.as_str())?),
        Cell::Text(owned(alloc, text_of(judged.book.book.law.as_slice()))?),
        Cell::known(seats_of(judged)),
        Cell::known(beyond(judged, returns)),
        Cell::known(unseated(judged)),
        difference,
        fault_cell(judged),
    ]?)
}

// A line for each book.
fn books_sheet(alloc: Global, returns: &Returns, books: &[Judged]) -> Result<Sheet, NoMemory>
    ensures { IfOk result (λ s. IsBooksTable returns.now books.now (table_of s)) }
{
    let mut sheet = Sheet::new(alloc, "books", Title::Words(RULEBOOKS_TITLE), &BOOKS)?;
    for (number, judged) in books.iter().enumerate() {
        let first = if number == 0 { None } else { books.first() };
        let difference = difference_cell(alloc, first, judged)?;
        sheet.push(book_row(alloc, returns, judged, difference)?)?;
    }
    Ok(sheet)
}

// The seats that a book gives a party, or all where no party is given; else the kind of its fault.
fn seats_cell(book: &Seated<'_>, returns: &Returns, party: Option<usize>) -> Cell
    requires book { IsSeated returns.now book.now }
    requires party { IfSome party (λ n. n < parties_of returns.now) }
    ensures { content_of result ≡ compared_cell returns.now party book.now.judged.now }
{
    match seats_in(book, returns, party) {
        Some(seats) => Cell::Number(seats),
        None => fault_cell(book.judged),
    }
}

/// A row that begins with the names of a party, or with the word for all.
pub(crate) fn compared_begin(alloc: Global, party: Option<usize>) -> Result<Vec<Cell>, NoMemory>
    ensures { IfOk result (λ row. contents_of row.items ≡ compared_name party) }
{
    Ok(vec![in alloc; party_of(party), party_name(party, ALL)]?)
}

// The row of a party, or of all, with a cell for each book.
fn compared_row(
    alloc: Global,
    returns: &Returns,
    books: &[Seated<'_>],
    party: Option<usize>,
) -> Result<Vec<Cell>, NoMemory>
    requires books { All (IsSeated returns.now) books.now }
    requires party { IfSome party (λ n. n < parties_of returns.now) }
    ensures { IfOk result (λ row. contents_of row.items ≡ compared_row returns.now (books_of books.now) party) }
{
    let mut row = compared_begin(alloc, party)?;
    for book in books {
        row.push(seats_cell(book, returns, party))?;
    }
    Ok(row)
}

/// Adds a column for each book.
pub(crate) fn push_heads(sheet: &mut Sheet, books: &[Judged]) -> Result<(), NoMemory>
    ensures { OnOk result (table_of sheet.new ≡ with_heads (table_of sheet.old) (map (λ j. under (string_bytes j.word)) books.now)) }
{
    for judged in books {
        sheet.push_word(judged.word.as_str())?;
    }
    Ok(())
}

// The parties in rows, with a column for each book.
fn seats_sheet(
    alloc: Global,
    returns: &Returns,
    books: &[Judged],
    seated: &[Seated<'_>],
) -> Result<Sheet, NoMemory>
    requires { AreSeated returns.now books.now seated.now }
    ensures { IfOk result (λ s. table_of s ≡ compare_table returns.now books.now) }
{
    let mut sheet = Sheet::new(alloc, "compare", Title::Words(COMPARED_TITLE), &COMPARE)?;
    push_heads(&mut sheet, books)?;
    sheet.push(compared_row(alloc, returns, seated, None)?)?;
    for party in 0..returns.parties() {
        sheet.push(compared_row(alloc, returns, seated, Some(party))?)?;
    }
    Ok(sheet)
}

/// The sheets of several books on the returns: a line for each book, the parties in rows with a column for each book, how they differ from the first
/// book, the lists in rows with a column for each book, and a row for each book and each party.
pub(crate) fn compare_sheets(
    alloc: Global,
    returns: &Returns,
    books: &[Judged],
) -> Result<Vec<Sheet>, NoMemory>
    ensures { IfOk result (λ sheets. AreComparison returns.now books.now (map table_of sheets.items)) }
{
    let seated = seated_books(alloc, books, returns)?;
    let seated = seated.as_slice();
    Ok(vec![in alloc;
        books_sheet(alloc, returns, books)?,
        seats_sheet(alloc, returns, books, seated)?,
        changes_sheet(alloc, returns, books, seated)?,
        list_seats_sheet(alloc, returns, books)?,
        each_sheet(alloc, returns, books, seated)?,
    ]?)
}
