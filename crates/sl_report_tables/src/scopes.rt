//! The sheets of scopes: a line for each, and the entries of each.

ghost use Rattle.std.specs.Prelude.{◌≡◌, ◌∷◌, [], IfOk, OnOk, Some, if◌then◌else◌, option_map, slice_get};
ghost use Rattle.sl_report_forms.specs.Cells.{a_number, content_of, nothing};
ghost use Rattle.sl_report_forms.specs.Tables.{contents_of, table_of};
ghost use Rattle.sl_report_tables.specs.Scopes.{border_cell, claimants_cell, divisor_cell, entries_at, entries_table, entry_row, scope_row, scopes_table};

use crate::lowest::lowest;
use crate::rows::{fraction, fraction_exact, keyword, land_side, party_side};
use crate::texts::{DISTRIBUTIONS_TITLE, STAGE_TITLE};
use crate::words::method_word;
use sl_base_quotients::{NoMemory, Ratio};
use sl_report_forms::{Cell, ColumnForm, Look, Sheet, Title};
use sl_report_results::{Entry, Fraction, Scoped};
use sl_stages::Item;
use std::alloc::Global;

/// The columns of scopes.
pub(crate) const SCOPES: [ColumnForm; 14] = [
    ("stage", "stage", "Stufe", Look::Text(10)),
    ("scope", "", "", Look::Hidden),
    ("scope_name", "scope", "Bereich", Look::Text(20)),
    ("method", "method", "Verfahren", Look::Text(9)),
    ("grows", "", "", Look::Hidden),
    ("minima", "", "", Look::Hidden),
    ("votes", "", "", Look::Hidden),
    ("seats", "seats", "Sitze", Look::Number),
    ("divisor", "divisor", "Divisor", Look::Number),
    ("quota", "quota", "Quote", Look::Number),
    ("quota_exact", "", "", Look::Hidden),
    ("last", "last seat", "letzter Sitz", Look::Text(14)),
    ("next", "next claim", "nächster Anspruch", Look::Text(14)),
    ("lot", "", "", Look::Hidden),
];

const ENTRIES: [ColumnForm; 14] = [
    ("stage", "", "", Look::Hidden),
    ("scope", "", "", Look::Hidden),
    ("entry", "", "", Look::Hidden),
    ("entry_name", "entry", "Eintrag", Look::Text(36)),
    ("land", "", "", Look::Hidden),
    ("party", "", "", Look::Hidden),
    ("votes", "votes", "Stimmen", Look::Number),
    ("quotient", "quotient", "Quotient", Look::Number),
    ("quotient_exact", "", "", Look::Hidden),
    ("seats", "seats", "Sitze", Look::Number),
    ("minimum", "minimum", "Minimum", Look::Number),
    ("missing", "votes missing", "Stimmen fehlen", Look::Number),
    ("lot", "lot", "Los", Look::Text(4)),
    ("place", "drawn", "gezogen", Look::Number),
];

// The entry of that number, if there is one.
fn entry_at(scoped: &Scoped, number: usize) -> Option<Item>
    ensures { result ≡ option_map (λ x. x.item) (slice_get scoped.now.entries.items number) }
{
    scoped.entries.get(number).map(|entry| entry.item)
}

// The entries of these numbers.
fn entries_at(alloc: Global, scoped: &Scoped, numbers: &[usize]) -> Result<Vec<Item>, NoMemory>
    ensures { IfOk result (λ found. found.items ≡ entries_at scoped.now numbers.now) }
{
    let mut found: Vec<Item> = Vec::new(alloc);
    for number in numbers {
        if let Some(entry) = entry_at(scoped, *number) {
            found.push(entry)?;
        }
    }
    Ok(found)
}

// The names of the entries of these numbers, an empty cell for none.
fn claimants(alloc: Global, scoped: &Scoped, numbers: &[usize]) -> Result<Cell, NoMemory>
    ensures { IfOk result (λ cell. content_of cell ≡ claimants_cell scoped.now numbers.now) }
{
    if numbers.is_empty() {
        return Ok(Cell::Empty);
    }
    let found = entries_at(alloc, scoped, numbers)?;
    Ok(Cell::Claimants(found, scoped.scope))
}

// The divisor on a border of equal claims: a whole number, or a fraction.
fn border(claim: Ratio) -> Cell
    ensures { content_of result ≡ border_cell (Some claim) }
{
    let exact = lowest(Fraction::of_claim(claim));
    match exact.decimal(0) {
        Some(whole) if exact.den == 1 => Cell::Decimal(whole),
        _ => Cell::Fraction(exact.num, exact.den),
    }
}

// The divisor of a scope, or that on the border of equal claims, if there is one.
fn divisor(scoped: &Scoped) -> Cell
    ensures { content_of result ≡ divisor_cell scoped.now }
{
    match (&scoped.divisor, &scoped.border) {
        (Some(divisor), _) => Cell::Decimal(*divisor),
        (None, Some(claim)) => border(*claim),
        (None, None) => Cell::Empty,
    }
}

/// The row of a scope.
pub(crate) fn scope_row(alloc: Global, scoped: &Scoped) -> Result<Vec<Cell>, NoMemory>
    ensures { IfOk result (λ row. contents_of row.items ≡ scope_row scoped.now) }
{
    let last = claimants(alloc, scoped, scoped.last.as_slice())?;
    let next = claimants(alloc, scoped, scoped.next.as_slice())?;
    Ok(vec![in alloc;
        Cell::Stage(scoped.stage),
        Cell::Scope(scoped.scope),
        Cell::ScopeName(scoped.scope),
        keyword(method_word(scoped.method)),
        Cell::Flag(scoped.grows),
        Cell::Flag(scoped.has_minima),
        Cell::Number(scoped.weight),
        Cell::Number(scoped.seats),
        divisor(scoped),
        fraction(scoped.quota),
        fraction_exact(scoped.quota),
        last,
        next,
        Cell::known_flag(scoped.drawn),
    ]?)
}

/// A line for each scope.
#[tactic(auto, using(crate::proofs::MoreRows::rows_next))]
pub(crate) fn scopes_sheet(alloc: Global, scopes: &[Scoped]) -> Result<Sheet, NoMemory>
    ensures { IfOk result (λ s. table_of s ≡ scopes_table scopes.now) }
{
    let mut sheet = Sheet::new(alloc, "scopes", Title::Words(DISTRIBUTIONS_TITLE), &SCOPES)?;
    for scoped in scopes {
        sheet.push(scope_row(alloc, scoped)?)?;
    }
    Ok(sheet)
}

// The row of an entry of a scope.
fn entry_row(alloc: Global, scoped: &Scoped, entry: Entry) -> Result<Vec<Cell>, NoMemory>
    ensures { IfOk result (λ row. contents_of row.items ≡ entry_row scoped.now entry) }
{
    Ok(vec![in alloc;
        Cell::Stage(scoped.stage),
        Cell::Scope(scoped.scope),
        Cell::Entry(entry.item),
        Cell::EntryName(entry.item, scoped.scope),
        land_side(entry.item),
        party_side(entry.item),
        Cell::Number(entry.weight),
        fraction(entry.quotient),
        fraction_exact(entry.quotient),
        Cell::Number(entry.seats),
        Cell::known(scoped.has_minima.then_some(entry.minimum)),
        Cell::known(entry.missing),
        Cell::known_flag(entry.lot),
        Cell::known(entry.place),
    ]?)
}

/// The entries of a scope.
pub(crate) fn entries_sheet(alloc: Global, scoped: &Scoped) -> Result<Sheet, NoMemory>
    ensures { IfOk result (λ s. table_of s ≡ entries_table scoped.now) }
{
    let title = Title::Scope(STAGE_TITLE, scoped.stage, scoped.scope);
    let mut sheet = Sheet::new(alloc, "entries", title, &ENTRIES)?;
    for entry in &scoped.entries {
        sheet.push(entry_row(alloc, scoped, *entry)?)?;
    }
    Ok(sheet)
}
