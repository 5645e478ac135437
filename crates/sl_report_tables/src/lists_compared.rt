//! The seats of lists by several rulebooks, side by side.

ghost use Rattle.std.specs.Prelude.{◌≡◌, ◌<◌, IfOk, OnOk, map, sum_by};
ghost use Rattle.sl_report_forms.specs.Cells.{content_of};
ghost use Rattle.sl_report_forms.specs.Tables.{contents_of, table_of, with_rows};
ghost use Rattle.sl_report_tables.specs.Compare.{gives_seats, has_seats, list_seats_cell, list_seats_row, list_seats_rows, list_seats_table, seats_at};
ghost use Rattle.sl_report_parties.specs.Sums.{capped};
ghost use Rattle.sl_report_tables.specs.inner.Seen.{seen, with_land};
ghost use Rattle.sl_law_meaning.specs.returns.Election.{lands_of, parties_of};

use crate::compare::{Judged, fault_cell, push_heads};
use crate::local::{Local, lines_in};
use crate::rows::name;
use crate::texts::LIST_SEATS_TITLE;
use sl_base_quotients::NoMemory;
use sl_report_forms::{Cell, ColumnForm, Look, Sheet, Title};
use sl_stages::{Item, ListSeats, Returns};
use std::alloc::Global;

const LISTS: [ColumnForm; 4] = [
    ("land", "", "", Look::Hidden),
    ("land_name", "Land", "Land", Look::Text(22)),
    ("party", "", "", Look::Hidden),
    ("party_name", "party", "Partei", Look::Text(15)),
];

// The seats of a line, if it is that of the list.
fn seats_at(line: ListSeats, land: usize, party: usize) -> u64
    ensures { result ≡ seats_at land party line }
{
    if line.land == land && line.party == party {
        line.seats
    } else {
        0
    }
}

// Each book beside its lines in a Land.
fn locals<'a>(alloc: Global, books: &'a [Judged], land: usize) -> Result<Vec<Local<'a>>, NoMemory>
    ensures { IfOk result (λ all. map seen all.items ≡ map (with_land land) books.now) }
{
    let mut all: Vec<Local<'a>> = Vec::new(alloc);
    for judged in books {
        let lines = lines_in(alloc, judged, land)?;
        all.push(Local {
            judged,
            land,
            lines,
        })?;
    }
    Ok(all)
}

// The seats of a party's list in the Land.
fn list_seats(local: &Local<'_>, party: usize) -> u64
    ensures { result ≡ capped (sum_by (seats_at local.now.land party) local.now.lines.items) }
{
    let mut seats: u64 = 0;
    for line in &local.lines {
        seats = seats.saturating_add(seats_at(*line, local.land, party));
    }
    seats
}

// Whether the party's list in the Land has seats by a book.
fn gives_seats(local: &Local<'_>, party: usize) -> bool
    ensures { result ≡ gives_seats local.now.land party local.now.judged.now }
{
    list_seats(local, party) > 0
}

// Whether the party has a list in the Land with seats by one of the books, which stand beside their lines in it.
fn is_given(
    returns: &Returns,
    books: &[Judged],
    locals: &[Local<'_>],
    land: usize,
    party: usize,
) -> bool
    requires land { land < lands_of returns.now }
    requires party { party < parties_of returns.now }
    requires locals { map seen locals.now ≡ map (with_land land) books.now }
    ensures { result ≡ has_seats returns.now books.now land party }
{
    returns.is_list(land, party) && locals.iter().any(|local| gives_seats(local, party))
}

// The seats that a book gives the list; else the kind of its fault.
fn seats_cell(local: &Local<'_>, party: usize) -> Cell
    ensures { content_of result ≡ list_seats_cell local.now.land party local.now.judged.now }
{
    match &local.judged.counted {
        Some(_) => Cell::Number(list_seats(local, party)),
        None => fault_cell(local.judged),
    }
}

// The row of a list, by the books beside their lines in the Land.
fn list_row(
    alloc: Global,
    books: &[Judged],
    locals: &[Local<'_>],
    land: usize,
    party: usize,
) -> Result<Vec<Cell>, NoMemory>
    requires { map seen locals.now ≡ map (with_land land) books.now }
    ensures { IfOk result (λ row. contents_of row.items ≡ list_seats_row books.now land party) }
{
    let mut row = vec![in alloc;
        Cell::Entry(Item::Land(land)),
        name(Item::Land(land)),
        Cell::Entry(Item::Party(party)),
        name(Item::Party(party)),
    ]?;
    for local in locals {
        row.push(seats_cell(local, party))?;
    }
    Ok(row)
}

// Adds the rows of the lists in a Land.
fn push_lists(
    alloc: Global,
    sheet: &mut Sheet,
    returns: &Returns,
    books: &[Judged],
    land: usize,
) -> Result<(), NoMemory>
    requires { land < lands_of returns.now }
    ensures { OnOk result (table_of sheet.new ≡ with_rows (table_of sheet.old) (list_seats_rows returns.now books.now land)) }
{
    let locals = locals(alloc, books, land)?;
    let locals = locals.as_slice();
    for party in 0..returns.parties() {
        if is_given(returns, books, locals, land, party) {
            sheet.push(list_row(alloc, books, locals, land, party)?)?;
        }
    }
    Ok(())
}

/// The lists in rows that have seats by one of the books, with a column for each book.
pub(crate) fn list_seats_sheet(
    alloc: Global,
    returns: &Returns,
    books: &[Judged],
) -> Result<Sheet, NoMemory>
    ensures { IfOk result (λ s. table_of s ≡ list_seats_table returns.now books.now) }
{
    let mut sheet = Sheet::new(alloc, "list_seats", Title::Words(LIST_SEATS_TITLE), &LISTS)?;
    push_heads(&mut sheet, books)?;
    for land in 0..returns.lands() {
        push_lists(alloc, &mut sheet, returns, books, land)?;
    }
    Ok(sheet)
}
