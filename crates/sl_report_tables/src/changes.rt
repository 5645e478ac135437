//! By how many seats the counts of several rulebooks differ from that of the first one.

ghost use Rattle.std.specs.Prelude.{◌≡◌, ◌<◌, All, IfOk, IfSome, OnOk, map};
ghost use Rattle.sl_report_forms.specs.Cells.{content_of};
ghost use Rattle.sl_report_forms.specs.Tables.{contents_of, table_of, with_rows};
ghost use Rattle.sl_report_tables.specs.Compare.{change_cell, change_or_fault, change_row, changes_table, compared, seats_row, seats_table};
ghost use Rattle.sl_report_tables.specs.inner.Seated.{AreSeated, IsSeated, books_of};
ghost use Rattle.sl_law_meaning.specs.returns.Election.{parties_of};

use crate::compare::{COMPARE, Judged, compared_begin, fault_cell, push_heads};
use crate::naming::owned;
use crate::rows::{party as party_of, party_name};
use crate::seated::{Seated, seats_in};
use crate::texts::{CHANGES_TITLE, EACH_TITLE};
use sl_base_quotients::NoMemory;
use sl_report_forms::{ALL, Cell, ColumnForm, Look, Sheet, Title};
use sl_stages::Returns;
use std::alloc::Global;

// A row for each book and each party is for programs: for a person the books stand side by side.
const EACH: [ColumnForm; 5] = [
    ("book", "", "", Look::Hidden),
    ("party", "", "", Look::Hidden),
    ("party_name", "", "", Look::Hidden),
    ("seats", "", "", Look::Hidden),
    ("change", "", "", Look::Hidden),
];

// How many seats more or fewer a book gives a party than the first one does, or all parties where none is given; nothing where one of the two has no count.
fn change_cell(
    first: &Seated<'_>,
    book: &Seated<'_>,
    returns: &Returns,
    party: Option<usize>,
) -> Cell
    requires first { IsSeated returns.now first.now }
    requires book { IsSeated returns.now book.now }
    requires party { IfSome party (λ n. n < parties_of returns.now) }
    ensures { content_of result ≡ change_cell returns.now party first.now.judged.now.counted book.now.judged.now.counted }
{
    let before = seats_in(first, returns, party);
    match (before, seats_in(book, returns, party)) {
        (Some(before), Some(seats)) => Cell::Change(seats, before),
        (None, _) | (Some(_), None) => Cell::Empty,
    }
}

// That number, or the kind of the fault of a book.
fn change_or_fault(
    first: &Seated<'_>,
    book: &Seated<'_>,
    returns: &Returns,
    party: Option<usize>,
) -> Cell
    requires first { IsSeated returns.now first.now }
    requires book { IsSeated returns.now book.now }
    requires party { IfSome party (λ n. n < parties_of returns.now) }
    ensures { content_of result ≡ change_or_fault returns.now party first.now.judged.now.counted book.now.judged.now }
{
    match &book.judged.counted {
        Some(_) => change_cell(first, book, returns, party),
        None => fault_cell(book.judged),
    }
}

// The row of a party, or of all, with a cell for each book.
fn change_row(
    alloc: Global,
    returns: &Returns,
    first: &Seated<'_>,
    others: &[Seated<'_>],
    party: Option<usize>,
) -> Result<Vec<Cell>, NoMemory>
    requires first { IsSeated returns.now first.now }
    requires others { All (IsSeated returns.now) others.now }
    requires party { IfSome party (λ n. n < parties_of returns.now) }
    ensures { IfOk result (λ row. contents_of row.items ≡ change_row returns.now first.now.judged.now (books_of others.now) party) }
{
    let mut row = compared_begin(alloc, party)?;
    for book in others {
        row.push(change_or_fault(first, book, returns, party))?;
    }
    Ok(row)
}

/// How many seats more or fewer than the first book the others give: the parties in rows, with a column for each of these books. A single book has no
/// row, nor have several of which the first has a legal fault.
pub(crate) fn changes_sheet(
    alloc: Global,
    returns: &Returns,
    books: &[Judged],
    seated: &[Seated<'_>],
) -> Result<Sheet, NoMemory>
    requires { AreSeated returns.now books.now seated.now }
    ensures { IfOk result (λ s. table_of s ≡ changes_table returns.now books.now) }
{
    let mut sheet = Sheet::new(alloc, "changes", Title::Words(CHANGES_TITLE), &COMPARE)?;
    if books.len() < 2 {
        return Ok(sheet);
    }
    push_heads(&mut sheet, &books[1..])?;
    let first = &seated[0];
    if first.judged.counted.is_none() {
        return Ok(sheet);
    }
    let others = &seated[1..];
    sheet.push(change_row(alloc, returns, first, others, None)?)?;
    for party in 0..returns.parties() {
        sheet.push(change_row(alloc, returns, first, others, Some(party))?)?;
    }
    Ok(sheet)
}

// The row of a book and a party, or of all parties.
fn each_row(
    alloc: Global,
    returns: &Returns,
    first: &Seated<'_>,
    book: &Seated<'_>,
    party: Option<usize>,
) -> Result<Vec<Cell>, NoMemory>
    requires first { IsSeated returns.now first.now }
    requires book { IsSeated returns.now book.now }
    requires party { IfSome party (λ n. n < parties_of returns.now) }
    ensures { IfOk result (λ row. contents_of row.items ≡ seats_row returns.now first.now.judged.now book.now.judged.now party) }
{
    Ok(vec![in alloc;
        Cell::Text(owned(alloc, book.judged.word.as_str())?),
        party_of(party),
        party_name(party, ALL),
        Cell::known(seats_in(book, returns, party)),
        change_cell(first, book, returns, party),
    ]?)
}

// Adds the rows of a book.
fn push_book(
    alloc: Global,
    sheet: &mut Sheet,
    returns: &Returns,
    first: &Seated<'_>,
    book: &Seated<'_>,
) -> Result<(), NoMemory>
    requires first { IsSeated returns.now first.now }
    requires book { IsSeated returns.now book.now }
    ensures { OnOk result (table_of sheet.new ≡ with_rows (table_of sheet.old) (map (seats_row returns.now first.now.judged.now book.now.judged.now) (compared returns.now))) }
{
    sheet.push(each_row(alloc, returns, first, book, None)?)?;
    for party in 0..returns.parties() {
        sheet.push(each_row(alloc, returns, first, book, Some(party))?)?;
    }
    Ok(())
}

/// A row for each book and each party: its seats, and their difference from those by the first book.
pub(crate) fn each_sheet(
    alloc: Global,
    returns: &Returns,
    books: &[Judged],
    seated: &[Seated<'_>],
) -> Result<Sheet, NoMemory>
    requires { AreSeated returns.now books.now seated.now }
    ensures { IfOk result (λ s. table_of s ≡ seats_table returns.now books.now) }
{
    let mut sheet = Sheet::new(alloc, "seats", Title::Words(EACH_TITLE), &EACH)?;
    let Some(first) = seated.first() else {
        return Ok(sheet);
    };
    for book in seated {
        push_book(alloc, &mut sheet, returns, first, book)?;
    }
    Ok(sheet)
}
