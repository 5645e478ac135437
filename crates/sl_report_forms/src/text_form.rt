//! What is shown of sheets as aligned text, by the columns that a terminal needs for each character.

ghost use Rattle.std.specs.Prelude.{◌≡◌, ◌∷◌, [], false, IfOk, OnOk, map, replicate, string_bytes};
ghost use Rattle.std.specs.Char.{encode_utf8};
ghost use Rattle.std.specs.List.{flat_map};
ghost use Rattle.std.specs.Str.{chars, encode_utf8_all};
ghost use Rattle.sl_report_forms.specs.Drafts.{Grows};
ghost use Rattle.sl_report_forms.specs.MarkdownForm.{Becomes, with_blocks};
ghost use Rattle.sl_report_forms.specs.Shown.{view_in};
ghost use Rattle.sl_report_forms.specs.TextForm as spec;

use crate::draft::Draft;
use crate::markdown_form::put_gap;
use crate::sheet::Look;
use crate::shown::{Shown, ShownColumn};
use sl_base_quotients::NoMemory;
use sl_explain_texts::Filled;
use std::alloc::Global;
use unicode_width::{UnicodeWidthChar, UnicodeWidthStr};

// The width up to which no text is cut, and the same for a table that would be wider than the first even with its texts cut.
const NARROW: u8 = 80;

const WIDE: u8 = 100;

// How a column looks, and the columns of a terminal that it takes.
#[derive(Clone, Copy)]
struct Column {
    look: Look,
    width: usize,
}

// Adds the begin of a text that takes fewer than so many columns.
fn put_begin(out: &mut Draft, text: &str, most: usize)
    ensures { Grows out.old out.new (encode_utf8_all (spec.begin_under most (chars text.now))) }
{
    let mut left = most;
    for character in text.chars() {
        let width = character.width().unwrap_or(0);
        if width >= left {
            return;
        }
        left -= width;
        out.push(character);
    }
}

// Adds a text, and of one that takes more than so many columns the begin with a mark after it.
fn put_within(out: &mut Draft, text: &str, most: usize)
    ensures { Grows out.old out.new (spec.cut_to most text.now) }
{
    if text.width() > most {
        put_begin(out, text, most);
        out.push('…');
    } else {
        out.push_str(text);
    }
}

// Adds a text as it is cut in a column.
fn put_cut(out: &mut Draft, look: Look, text: &str)
    ensures { Grows out.old out.new (spec.cut_text look text.now) }
{
    match look {
        Look::Text(most) => put_within(out, text, most),
        Look::Hidden | Look::Number => out.push_str(text),
    }
}

fn cut(alloc: Global, look: Look, text: &str) -> Result<String, NoMemory>
    ensures { IfOk result (λ t. string_bytes t ≡ spec.cut_text look text.now) }
{
    let mut cut = Draft::new(alloc);
    put_cut(&mut cut, look, text);
    cut.finished()
}

fn cut_row(alloc: Global, columns: &[ShownColumn], row: &[String]) -> Result<Vec<String>, NoMemory>
    ensures { IfOk result (λ v. map string_bytes v.items ≡ spec.cut_row columns.now (map string_bytes row.now)) }
{
    let mut texts = Filled::new(alloc);
    for (place, column) in columns.iter().enumerate() {
        if let Some(text) = row.get(place) {
            texts.push(cut(alloc, column.look, text.as_str()));
        }
    }
    texts.finished()
}

// The rows with their texts cut.
fn cut_rows(alloc: Global, shown: &Shown) -> Result<Vec<Vec<String>>, NoMemory>
    ensures { IfOk result (λ v. map (λ r. map string_bytes r.items) v.items ≡ map (spec.cut_row shown.now.columns.items) (view_in shown.now).rows) }
{
    let mut rows = Filled::new(alloc);
    for row in &shown.rows {
        rows.push(cut_row(alloc, shown.columns.as_slice(), row.as_slice()));
    }
    rows.finished()
}

// The width of the text at a place of a line, if it has one there.
fn width_in(line: &[String], place: usize) -> usize
    ensures { result ≡ spec.width_in place (map string_bytes line.now) }
{
    match line.get(place) {
        Some(text) => text.as_str().width(),
        None => 0,
    }
}

// The width of the widest text at a place of the rows, or of the title there.
fn width_at(titles: &[String], rows: &[Vec<String>], place: usize) -> usize
    ensures { result ≡ spec.widest place (spec.lines_in titles.now rows.now) }
{
    let mut most = width_in(titles, place);
    for row in rows {
        most = most.max(width_in(row.as_slice(), place));
    }
    most
}

// A column at its place, as wide as its widest text.
fn column_in(titles: &[String], rows: &[Vec<String>], place: usize, column: ShownColumn) -> Column
    ensures { result ≡ spec.column_in (spec.lines_in titles.now rows.now) (place, column) }
{
    Column {
        look: column.look,
        width: width_at(titles, rows, place),
    }
}

// The columns of these rows.
fn columns(alloc: Global, shown: &Shown, rows: &[Vec<String>]) -> Result<Vec<Column>, NoMemory>
    ensures { IfOk result (λ v. v.items ≡ spec.columns_of shown.now.columns.items (spec.lines_in shown.now.titles.items rows.now)) }
{
    let mut columns = Filled::new(alloc);
    for (place, column) in shown.columns.iter().enumerate() {
        columns.push(Ok(column_in(shown.titles.as_slice(), rows, place, *column)));
    }
    columns.finished()
}

// Whether columns with the two blanks between them take no more than so many.
fn fits(columns: &[Column], most: u8) -> bool
    ensures { result ≡ spec.fits most columns.now }
{
    let mut width = 0usize;
    for column in columns {
        width = width.saturating_add(column.width).saturating_add(2);
    }
    width.saturating_sub(2) <= usize::from(most)
}

fn put_blanks(out: &mut Draft, count: usize)
    ensures { Grows out.old out.new (replicate count 32) }
{
    for _ in 0..count / 8 {
        out.push_str("        ");
    }
    for _ in 0..count % 8 {
        out.push_str(" ");
    }
}

// Adds a text at the left or at the right of its column.
fn put_text(out: &mut Draft, text: &str, column: Column)
    ensures { Grows out.old out.new (spec.in_column column text.now) }
{
    let blanks = column.width.saturating_sub(text.width());
    match column.look {
        Look::Number => {
            put_blanks(out, blanks);
            out.push_str(text);
        }
        Look::Hidden | Look::Text(_) => {
            out.push_str(text);
            put_blanks(out, blanks);
        }
    }
}

// Adds the texts of a line in their columns, with two blanks after each.
fn put_texts(out: &mut Draft, line: &[String], columns: &[Column])
    ensures { Grows out.old out.new (spec.padded_line columns.now (map string_bytes line.now)) }
{
    for (place, column) in columns.iter().enumerate() {
        if let Some(text) = line.get(place) {
            put_text(out, text.as_str(), *column);
            out.push_str("  ");
        }
    }
}

// A line, with blanks at its end.
fn padded(alloc: Global, line: &[String], columns: &[Column]) -> Result<String, NoMemory>
    ensures { IfOk result (λ t. string_bytes t ≡ spec.padded_line columns.now (map string_bytes line.now)) }
{
    let mut padded = Draft::with_room(alloc, usize::from(WIDE));
    put_texts(&mut padded, line, columns);
    padded.finished()
}

// Adds a line, without blanks at its end.
fn put_line(
    alloc: Global,
    out: &mut Draft,
    line: &[String],
    columns: &[Column],
) -> Result<(), NoMemory>
    ensures { OnOk result (Grows out.old out.new (spec.aligned_line columns.now (map string_bytes line.now))) }
{
    let padded = padded(alloc, line, columns)?;
    out.push_str(padded.as_str().trim_end());
    out.push('\n');
    Ok(())
}

// Adds the titles of the columns, and then the rows.
fn put_lines(
    alloc: Global,
    out: &mut Draft,
    titles: &[String],
    rows: &[Vec<String>],
    columns: &[Column],
) -> Result<(), NoMemory>
    ensures { OnOk result (Grows out.old out.new (flat_map (spec.aligned_line columns.now) (spec.lines_in titles.now rows.now))) }
{
    put_line(alloc, out, titles, columns)?;
    for row in rows {
        put_line(alloc, out, row.as_slice(), columns)?;
    }
    Ok(())
}

// Adds a table that is wider than `NARROW` with these columns of its whole texts. They are cut where it then is not, or where it is wider than
// `WIDE`.
fn put_wide(alloc: Global, out: &mut Draft, shown: &Shown, whole: &[Column]) -> Result<(), NoMemory>
    requires columns { whole.now ≡ spec.columns_of shown.now.columns.items (spec.whole_lines (view_in shown.now)) }
    requires wide { spec.fits 80 whole.now ≡ false }
    ensures { OnOk result (Grows out.old out.new (spec.aligned_table (view_in shown.now))) }
{
    let titles = shown.titles.as_slice();
    let rows = cut_rows(alloc, shown)?;
    let columns = columns(alloc, shown, rows.as_slice())?;
    if fits(whole, WIDE) && !fits(columns.as_slice(), NARROW) {
        put_lines(alloc, out, titles, shown.rows.as_slice(), whole)
    } else {
        put_lines(alloc, out, titles, rows.as_slice(), columns.as_slice())
    }
}

// Adds the titles of the columns of a sheet, and its rows.
fn put_table(alloc: Global, out: &mut Draft, shown: &Shown) -> Result<(), NoMemory>
    ensures { OnOk result (Grows out.old out.new (spec.aligned_table (view_in shown.now))) }
{
    let rows = shown.rows.as_slice();
    let columns = columns(alloc, shown, rows)?;
    if fits(columns.as_slice(), NARROW) {
        put_lines(
            alloc,
            out,
            shown.titles.as_slice(),
            rows,
            columns.as_slice(),
        )
    } else {
        put_wide(alloc, out, shown, columns.as_slice())
    }
}

// Adds what is shown of a sheet: its title and its table.
fn put_block(alloc: Global, out: &mut Draft, shown: &Shown) -> Result<(), NoMemory>
    ensures { OnOk result (Grows out.old out.new (spec.aligned_block (view_in shown.now))) }
{
    out.push_str(shown.title.as_str());
    out.push('\n');
    put_table(alloc, out, shown)
}

// Adds what is shown of a sheet, after an empty line where it is not the first one.
fn put_shown(alloc: Global, out: &mut Draft, shown: &Shown) -> Result<(), NoMemory>
    ensures { OnOk result (Becomes out.old out.new (with_blocks (spec.aligned_block (view_in shown.now) ∷ []))) }
{
    put_gap(out);
    put_block(alloc, out, shown)
}

fn put_sheets(alloc: Global, out: &mut Draft, sheets: &[Shown]) -> Result<(), NoMemory>
    ensures { OnOk result (Becomes out.old out.new (with_blocks (map (λ shown. spec.aligned_block (view_in shown)) sheets.now))) }
{
    for shown in sheets {
        put_shown(alloc, out, shown)?;
    }
    Ok(())
}

/// What is shown of sheets as aligned text, with an empty line between them. Texts are cut where their table would be too wide.
pub fn aligned_text(alloc: Global, sheets: &[Shown]) -> Result<String, NoMemory>
    ensures { IfOk result (λ t. string_bytes t ≡ spec.aligned_of (map view_in sheets.now)) }
{
    let mut out = Draft::new(alloc);
    let put = put_sheets(alloc, &mut out, sheets);
    put.and(out.finished())
}
