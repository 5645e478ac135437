//! What is shown of sheets as Markdown: a heading and a table for each.

ghost use Rattle.std.specs.Prelude.{◌≡◌, ◌++◌, ◌∷◌, [], IfOk, codes, map, option_map, string_bytes};
ghost use Rattle.std.specs.Char.{encode_utf8};
ghost use Rattle.sl_report_forms.specs.Drafts.{Grows};
ghost use Rattle.sl_report_forms.specs.MarkdownForm as spec;
ghost use Rattle.sl_report_forms.specs.Shown.{view_in};

use crate::draft::Draft;
use crate::sheet::Look;
use crate::shown::{Shown, ShownColumn};
use sl_base_quotients::NoMemory;
use std::alloc::Global;

// Whether Markdown may read a character as a mark.
fn is_mark(character: char) -> bool
    ensures { result ≡ spec.is_mark character }
{
    matches!(
        character,
        '\\' | '`' | '*' | '_' | '[' | '<' | '&' | '|' | '~' | '$' | '#'
    )
}

// A blank for the end of a line, and any other character itself.
fn on_one_line(character: char) -> char
    ensures { result ≡ spec.on_one_line character }
{
    match character {
        '\n' | '\r' => ' ',
        _ => character,
    }
}

// Adds a character of a text: a mark after a backslash, and a blank for the end of a line.
fn put_character(out: &mut Draft, character: char)
    ensures { Grows out.old out.new (spec.markdown_escaped (encode_utf8 character)) }
{
    if is_mark(character) {
        out.push('\\');
        out.push(character);
    } else {
        out.push(on_one_line(character));
    }
}

// Adds a text that is read as it stands.
fn put_text(out: &mut Draft, text: &str)
    ensures { Grows out.old out.new (spec.markdown_escaped text.now) }
{
    for character in text.chars() {
        put_character(out, character);
    }
}

fn put_cell(out: &mut Draft, text: &str)
    ensures { Grows out.old out.new (spec.markdown_cell text.now) }
{
    out.push(' ');
    put_text(out, text);
    out.push_str(" |");
}

fn put_line(out: &mut Draft, texts: &[String])
    ensures { Grows out.old out.new (spec.markdown_line (map string_bytes texts.now)) }
{
    out.push('|');
    for text in texts {
        put_cell(out, text.as_str());
    }
    out.push('\n');
}

// Adds the line below the titles, which says of each column at which side its texts stand.
fn put_sides(out: &mut Draft, columns: &[ShownColumn])
    ensures { Grows out.old out.new (spec.markdown_sides columns.now) }
{
    out.push('|');
    for column in columns {
        out.push_str(match column.look {
            Look::Number => "---:|",
            Look::Hidden | Look::Text(_) => "---|",
        });
    }
    out.push('\n');
}

fn put_table(out: &mut Draft, shown: &Shown)
    ensures { Grows out.old out.new (spec.markdown_table (view_in shown.now)) }
{
    put_line(out, shown.titles.as_slice());
    put_sides(out, shown.columns.as_slice());
    for row in &shown.rows {
        put_line(out, row.as_slice());
    }
}

/// Adds an empty line after what is written, if anything is.
pub(crate) fn put_gap(out: &mut Draft)
    ensures { spec.Becomes out.old out.new spec.parted }
{
    if !out.is_empty() {
        out.push('\n');
    }
}

// Adds what is shown of a sheet.
fn put_block(out: &mut Draft, shown: &Shown)
    ensures { Grows out.old out.new (spec.markdown_block (view_in shown.now)) }
{
    out.push_str("## ");
    put_text(out, shown.title.as_str());
    out.push_str("\n\n");
    put_table(out, shown);
}

// Adds what is shown of a sheet, after an empty line where it is not the first one.
fn put_shown(out: &mut Draft, shown: &Shown)
    ensures { spec.Becomes out.old out.new (spec.with_blocks (spec.markdown_block (view_in shown.now) ∷ [])) }
{
    put_gap(out);
    put_block(out, shown);
}

fn put_sheets(out: &mut Draft, sheets: &[Shown])
    ensures { spec.Becomes out.old out.new (spec.with_blocks (map (λ shown. spec.markdown_block (view_in shown)) sheets.now)) }
{
    for shown in sheets {
        put_shown(out, shown);
    }
}

// Adds the line of a legal fault, as a block of code.
fn put_fault(out: &mut Draft, line: &str)
    ensures { Grows out.old out.new ((codes "    " ++ line.now) ++ codes "\n") }
{
    out.push_str("    ");
    out.push_str(line);
    out.push('\n');
}

/// What is shown of sheets as Markdown, after the line of a legal fault, without its end, if there is one. No text is cut.
pub fn markdown_text(
    alloc: Global,
    line: Option<&str>,
    sheets: &[Shown],
) -> Result<String, NoMemory>
    ensures { IfOk result (λ t. string_bytes t ≡ spec.markdown_of (option_map (λ l. l.now) line.entry) (map view_in sheets.now)) }
{
    let mut out = Draft::new(alloc);
    if let Some(line) = line {
        put_fault(&mut out, line);
    }
    put_sheets(&mut out, sheets);
    out.finished()
}
