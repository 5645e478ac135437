//! Cells that several tables have, and sheets under a title.

ghost use Rattle.std.specs.Prelude.{◌≡◌, ◌++◌, ◌∷◌, [], IfOk, Ok, OnOk};
ghost use Rattle.sl_law_meaning.specs.declared.fault.Scope.TheVariants as scopes;
ghost use Rattle.sl_report_forms.specs.Cells.{a_name, a_word, content_of};
ghost use Rattle.sl_report_forms.specs.declared.sheet.Sheet.{Sheet};
ghost use Rattle.sl_report_forms.specs.Tables.{blank_table, contents_of, heads_of, table_of, with_rows};
ghost use Rattle.sl_report_tables.specs.Parts.{condition_cell, exact_cell, fraction_cell, fraction_exact_cell, land_side, party_cell, party_name_cell, party_side, percent_cell, percent_exact_cell, rounded_cell};

use crate::lowest::lowest;
use sl_base_quotients::NoMemory;
use sl_explain_texts::Message;
use sl_report_forms::{Cell, ColumnForm, Sheet, Title};
use sl_report_results::Fraction;
use sl_stages::{Cond, Item, Scope};
use std::alloc::Global;

// Decimal places of fractions that are no percentages.
const PLACES: u32 = 4;

/// The name of an entry that a reader sees.
pub(crate) fn name(entry: Item) -> Cell
    ensures { content_of result ≡ a_name entry scopes.All }
{
    Cell::EntryName(entry, Scope::All)
}

/// The short name of a party, if there is one.
pub(crate) fn party(party: Option<usize>) -> Cell
    ensures { content_of result ≡ party_cell party }
{
    match party {
        Some(party) => Cell::Entry(Item::Party(party)),
        None => Cell::Empty,
    }
}

/// The name of a party that a reader sees, or a word in its place.
pub(crate) fn party_name(party: Option<usize>, otherwise: Message) -> Cell
    ensures { content_of result ≡ party_name_cell party otherwise.entry.0.now otherwise.entry.1.now }
{
    match party {
        Some(party) => name(Item::Party(party)),
        None => Cell::Word(otherwise),
    }
}

/// A word that is the same in every language.
pub(crate) fn keyword(word: &'static str) -> Cell
    ensures { content_of result ≡ a_word word.now word.now }
{
    Cell::Word((word, word))
}

/// The short name of the Land of an entry, if it has one.
pub(crate) fn land_side(entry: Item) -> Cell
    ensures { content_of result ≡ land_side entry }
{
    match entry {
        Item::Land(land) | Item::List(land, _) => Cell::Entry(Item::Land(land)),
        Item::Party(_) | Item::Win(_) => Cell::Empty,
    }
}

/// The short name of the party of an entry, if it has one.
pub(crate) fn party_side(entry: Item) -> Cell
    ensures { content_of result ≡ party_side entry }
{
    match entry {
        Item::Party(party) | Item::List(_, party) => Cell::Entry(Item::Party(party)),
        Item::Land(_) | Item::Win(_) => Cell::Empty,
    }
}

/// The condition of that number among these, or an empty cell.
pub(crate) fn condition(conditions: &[Cond], met: Option<usize>) -> Cell
    ensures { content_of result ≡ condition_cell conditions.now met }
{
    match met.and_then(|number| conditions.get(number)) {
        Some(cond) => Cell::Condition(*cond),
        None => Cell::Empty,
    }
}

// A fraction in lowest terms.
fn exact(fraction: Fraction) -> Cell
    ensures { content_of result ≡ exact_cell fraction }
{
    let exact = lowest(fraction);
    Cell::Fraction(exact.num, exact.den)
}

/// So many of so many in percent, cut in three places.
pub(crate) fn percent(part: u64, whole: u64) -> Cell
    ensures { content_of result ≡ percent_cell part whole }
{
    Cell::known_decimal(Fraction::percent(part, whole).decimal(3))
}

/// The same as a fraction in lowest terms, where there are decimals.
pub(crate) fn percent_exact(part: u64, whole: u64) -> Cell
    ensures { content_of result ≡ percent_exact_cell part whole }
{
    let percent = Fraction::percent(part, whole);
    match percent.decimal(3) {
        Some(_) => exact(percent),
        None => Cell::Empty,
    }
}

/// So many of so many in percent, rounded to one place.
pub(crate) fn rounded(part: u64, whole: u64) -> Cell
    ensures { content_of result ≡ rounded_cell part whole }
{
    Cell::known_decimal(Fraction::percent_half_up(part, whole).decimal(1))
}

/// A fraction in decimals, where there is one and where it has some.
pub(crate) fn fraction(fraction: Option<Fraction>) -> Cell
    ensures { content_of result ≡ fraction_cell fraction }
{
    Cell::known_decimal(fraction.and_then(|fraction| fraction.decimal(PLACES)))
}

/// A fraction in lowest terms, where there is one.
pub(crate) fn fraction_exact(fraction: Option<Fraction>) -> Cell
    ensures { content_of result ≡ fraction_exact_cell fraction }
{
    match fraction {
        Some(fraction) => exact(fraction),
        None => Cell::Empty,
    }
}

/// A sheet of this row, under a title.
pub(crate) fn one_row_sheet(
    alloc: Global,
    key: &'static str,
    title: Message,
    columns: &[ColumnForm],
    row: Vec<Cell>,
) -> Result<Sheet, NoMemory>
    ensures { IfOk result (λ s. table_of s ≡ with_rows (blank_table key.now (heads_of columns.now)) (contents_of row.items ∷ [])) }
{
    let mut sheet = Sheet::new(alloc, key, Title::Words(title), columns)?;
    sheet.push(row).and(Ok(sheet))
}

/// Adds a sheet, if there was memory for it.
pub(crate) fn add_sheet(
    sheets: &mut Vec<Sheet>,
    sheet: Result<Sheet, NoMemory>,
) -> Result<(), NoMemory>
    ensures { OnOk result ((s : Sheet) × (sheet ≡ Ok s) × (sheets.new.items ≡ sheets.old.items ++ s ∷ [])) }
{
    sheets.push(sheet?)?;
    Ok(())
}
