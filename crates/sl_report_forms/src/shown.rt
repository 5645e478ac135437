//! What a person sees of sheets, as texts: of each the columns that are not hidden, and in which a row has something.

ghost use Rattle.std.specs.Prelude.{◌≡◌, ◌==◌, IfOk, length, map, slice_get, string_bytes};
ghost use Rattle.sl_report_forms.specs.Shown as spec;

use crate::cell::{Cell, Reader};
use crate::draft::copied;
use crate::names::Names;
use crate::sheet::{Head, Look, Sheet};
use sl_base_quotients::NoMemory;
use sl_explain_texts::{Filled, Language};
use std::alloc::Global;

/// A column of a sheet that is shown: its place, and its look.
#[derive(Clone, Copy)]
pub(crate) struct ShownColumn {
    pub(crate) place: usize,
    pub(crate) look: Look,
}

/// What is shown of a sheet: its key, its title, the columns, their titles, and the rows. No text is cut.
#[derive(Drop)]
pub struct Shown {
    pub(crate) key: &'static str,
    pub(crate) title: String,
    pub(crate) columns: Vec<ShownColumn>,
    pub(crate) titles: Vec<String>,
    pub(crate) rows: Vec<Vec<String>>,
}

fn is_hidden(look: Look) -> bool
    ensures { result ≡ spec.is_hidden look }
{
    matches!(look, Look::Hidden)
}

// Whether a row has something at a place.
fn is_filled(row: &[Cell], place: usize) -> bool
    ensures { result ≡ spec.is_filled (slice_get row.now place) }
{
    match row.get(place) {
        Some(Cell::Empty) | None => false,
        Some(_) => true,
    }
}

// Whether a row of a sheet has something at a place.
fn has_text(sheet: &Sheet, place: usize) -> bool
    ensures { result ≡ spec.has_text sheet.now place }
{
    sheet
        .rows
        .iter()
        .any(|row| is_filled(row.as_slice(), place))
}

// Whether a column is shown: one that is not hidden, and in which a row has something.
fn is_shown(sheet: &Sheet, column: ShownColumn) -> bool
    ensures { result ≡ spec.is_shown sheet.now column }
{
    !is_hidden(column.look) && has_text(sheet, column.place)
}

// The column of a head at a place.
fn place_of(place: usize, head: &Head) -> ShownColumn
    ensures { result ≡ spec.place_of (place, head.now) }
{
    ShownColumn {
        place,
        look: head.look(),
    }
}

fn columns(alloc: Global, sheet: &Sheet) -> Result<Vec<ShownColumn>, NoMemory>
    ensures { IfOk result (λ v. v.items ≡ spec.shown_columns sheet.now) }
{
    let mut columns = Filled::new(alloc);
    for (place, head) in sheet.heads.iter().enumerate() {
        let column = place_of(place, head);
        if is_shown(sheet, column) {
            columns.push(Ok(column));
        }
    }
    columns.finished()
}

fn titles(
    alloc: Global,
    language: Language,
    heads: &[Head],
    columns: &[ShownColumn],
) -> Result<Vec<String>, NoMemory>
    ensures { IfOk result (λ v. map string_bytes v.items ≡ spec.titles_in language columns.now heads.now) }
{
    let mut titles = Filled::new(alloc);
    for column in columns {
        if let Some(head) = heads.get(column.place) {
            titles.push(copied(alloc, head.text(language)));
        }
    }
    titles.finished()
}

// The texts of a row in these columns.
fn shown_row(
    alloc: Global,
    language: Language,
    names: &Names,
    row: &[Cell],
    columns: &[ShownColumn],
) -> Result<Vec<String>, NoMemory>
    ensures { IfOk result (λ v. map string_bytes v.items ≡ spec.texts_in language names.now columns.now row.now) }
{
    let mut texts = Filled::new(alloc);
    for column in columns {
        if let Some(cell) = row.get(column.place) {
            texts.push(cell.text(alloc, names, Reader::Person(language)));
        }
    }
    texts.finished()
}

fn shown_rows(
    alloc: Global,
    language: Language,
    names: &Names,
    sheet: &Sheet,
    columns: &[ShownColumn],
) -> Result<Vec<Vec<String>>, NoMemory>
    ensures { IfOk result (λ v. map (λ r. map string_bytes r.items) v.items ≡ map (λ r. spec.texts_in language names.now columns.now r.items) sheet.now.rows.items) }
{
    let mut rows = Filled::new(alloc);
    for row in &sheet.rows {
        rows.push(shown_row(alloc, language, names, row.as_slice(), columns));
    }
    rows.finished()
}

impl Shown {
    // Whether no column is shown.
    fn is_empty(&self) -> bool
        ensures { result ≡ (length self.now.columns.items == 0) }
    {
        self.columns.is_empty()
    }
}

// What is shown of a sheet: nothing where no row has something in a column that is not hidden.
fn shown_of(
    alloc: Global,
    language: Language,
    names: &Names,
    sheet: &Sheet,
) -> Result<Shown, NoMemory>
    ensures { IfOk result (λ v. spec.view_in v ≡ spec.view_of language names.now sheet.now) }
{
    let title = sheet.title.text(alloc, language, names)?;
    let columns = columns(alloc, sheet)?;
    let titles = titles(alloc, language, sheet.heads.as_slice(), columns.as_slice())?;
    let rows = shown_rows(alloc, language, names, sheet, columns.as_slice())?;
    Ok(Shown {
        key: sheet.key,
        title,
        columns,
        titles,
        rows,
    })
}

/// What is shown in a language of each sheet that has a column which is, by these names.
pub fn shown_sheets(
    alloc: Global,
    language: Language,
    names: &Names,
    sheets: &[Sheet],
) -> Result<Vec<Shown>, NoMemory>
    ensures { IfOk result (λ v. map spec.view_in v.items ≡ spec.views_of language names.now sheets.now) }
{
    let mut all: Vec<Shown> = Vec::new(alloc);
    for sheet in sheets {
        let shown = shown_of(alloc, language, names, sheet)?;
        if !shown.is_empty() {
            all.push(shown)?;
        }
    }
    Ok(all)
}
