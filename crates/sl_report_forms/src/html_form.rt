//! What is shown of sheets as a page of HTML, for a screen of any width and for paper. It needs no other file.

ghost use Rattle.std.specs.Prelude.{◌≡◌, ◌<◌, ◌++◌, ◌∷◌, [], ℕ, IfOk, List, MatchOption, map, option_map, string_bytes};
ghost use Rattle.std.specs.Char.{encode_utf8};
ghost use Rattle.std.specs.List.{flat_map};
ghost use Rattle.sl_report_forms.specs.Drafts.{Grows};
ghost use Rattle.sl_report_forms.specs.HtmlForm as spec;
ghost use Rattle.sl_report_forms.specs.Shown.{view_in};

use crate::draft::Draft;
use crate::heading::Heading;
use crate::sheet::Look;
use crate::shown::{Shown, ShownColumn};
use sl_base_quotients::NoMemory;
use sl_explain_texts::{Language, Message};
use std::alloc::Global;

// The titles of the pages of the commands.
static TITLES: [(&str, Message); 5] = [
    (
        "report",
        ("Report on a count", "Bericht über eine Auszählung"),
    ),
    (
        "report --short",
        ("Result of a count", "Ergebnis einer Auszählung"),
    ),
    ("stages", ("Stages of a count", "Stufen einer Auszählung")),
    (
        "totals",
        ("Totals of returns", "Summen von Wahlergebnissen"),
    ),
    (
        "compare",
        ("Rulebooks side by side", "Regelwerke im Vergleich"),
    ),
];

// The code of a language, as the head of a page names it.
static LANGUAGE: Message = ("en", "de");

static STYLE: &str = ":root { color-scheme: light dark; }
body { max-width: 64rem; margin: 1rem auto; padding: 0 1rem; font: 1rem/1.4 system-ui, sans-serif; }
h1 { font-size: 1.4rem; }
h2 { font-size: 1.1rem; margin: 1.6rem 0 0.4rem; break-after: avoid; }
code { overflow-wrap: anywhere; }
.table { overflow-x: auto; }
table { border-collapse: collapse; font-variant-numeric: tabular-nums; }
th, td { padding: 0.2rem 0.6rem; border-bottom: 1px solid #8886; text-align: left; vertical-align: top; }
thead th { border-bottom-color: #888; vertical-align: bottom; }
tbody th { font-weight: normal; }
th:first-child, td:first-child { padding-left: 0; }
.number { text-align: right; white-space: nowrap; }
@media print {
body { max-width: none; margin: 0; padding: 0; font-size: 9pt; }
.table { overflow-x: visible; }
tr { break-inside: avoid; }
}
";

// The tag of a cell: of the title of a column, of the first cell of a row, and of any other.
#[derive(Clone, Copy)]
enum Tag {
    Title,
    First,
    Other,
}

// What stands for a character that HTML would read as markup.
fn escaped(character: char) -> Option<&'static str>
    ensures { MatchOption result (spec.html_byte character ≡ character ∷ []) (λ entity. (character < 128) × (entity.now ≡ spec.html_byte character)) }
{
    match character {
        '&' => Some("&amp;"),
        '<' => Some("&lt;"),
        '>' => Some("&gt;"),
        '"' => Some("&quot;"),
        _ => None,
    }
}

fn put_character(out: &mut Draft, character: char)
    ensures { Grows out.old out.new (spec.html_escaped (encode_utf8 character)) }
{
    match escaped(character) {
        Some(text) => out.push_str(text),
        None => out.push(character),
    }
}

// Adds a text that is read as it stands.
fn put_text(out: &mut Draft, text: &str)
    ensures { Grows out.old out.new (spec.html_escaped text.now) }
{
    for character in text.chars() {
        put_character(out, character);
    }
}

// How the tag of a cell begins, without its class.
fn tag_begin(tag: Tag) -> &'static str
    ensures { result.now ≡ spec.tag_begin tag }
{
    match tag {
        Tag::Title => "<th scope=\"col\"",
        Tag::First => "<th scope=\"row\"",
        Tag::Other => "<td",
    }
}

// The class of a cell, and the end of its first tag.
fn class_of(look: Look) -> &'static str
    ensures { result.now ≡ spec.class_of look }
{
    match look {
        Look::Number => " class=\"number\">",
        Look::Hidden | Look::Text(_) => ">",
    }
}

fn tag_end(tag: Tag) -> &'static str
    ensures { result.now ≡ spec.tag_end tag }
{
    match tag {
        Tag::Title | Tag::First => "</th>",
        Tag::Other => "</td>",
    }
}

fn put_cell(out: &mut Draft, tag: Tag, look: Look, text: &str)
    ensures { Grows out.old out.new (spec.tag_begin tag ++ spec.class_of look ++ spec.html_escaped text.now ++ spec.tag_end tag) }
{
    out.push_str(tag_begin(tag));
    out.push_str(class_of(look));
    put_text(out, text);
    out.push_str(tag_end(tag));
}

// The tag of the cell at a place: the first one, or another.
fn tag_at(first: Tag, other: Tag, place: usize) -> Tag
    ensures { result ≡ spec.tag_at first other place }
{
    if place == 0 { first } else { other }
}

// Adds a row of cells that have these tags, the first one and the others.
fn put_row(out: &mut Draft, first: Tag, other: Tag, columns: &[ShownColumn], row: &[String])
    ensures { Grows out.old out.new (spec.html_row first other columns.now (map string_bytes row.now)) }
{
    out.push_str("<tr>");
    for (place, column) in columns.iter().enumerate() {
        if let Some(text) = row.get(place) {
            put_cell(out, tag_at(first, other, place), column.look, text.as_str());
        }
    }
    out.push_str("</tr>\n");
}

fn put_rows(out: &mut Draft, shown: &Shown)
    ensures { Grows out.old out.new (flat_map (spec.html_row Tag.First Tag.Other shown.now.columns.items) (view_in shown.now).rows) }
{
    for row in &shown.rows {
        put_row(
            out,
            Tag::First,
            Tag::Other,
            shown.columns.as_slice(),
            row.as_slice(),
        );
    }
}

// Adds the row of the titles.
fn put_titles(out: &mut Draft, shown: &Shown)
    ensures { Grows out.old out.new (spec.html_row Tag.Title Tag.Title shown.now.columns.items (view_in shown.now).titles) }
{
    put_row(
        out,
        Tag::Title,
        Tag::Title,
        shown.columns.as_slice(),
        shown.titles.as_slice(),
    );
}

fn put_table(out: &mut Draft, shown: &Shown)
    ensures { Grows out.old out.new (spec.html_table (view_in shown.now)) }
{
    out.push_str("<div class=\"table\">\n<table>\n<thead>\n");
    put_titles(out, shown);
    out.push_str("</thead>\n<tbody>\n");
    put_rows(out, shown);
    out.push_str("</tbody>\n</table>\n</div>\n");
}

// Adds what is shown of a sheet.
fn put_shown(out: &mut Draft, shown: &Shown)
    ensures { Grows out.old out.new (spec.html_section (view_in shown.now)) }
{
    out.push_str("<section>\n<h2>");
    put_text(out, shown.title.as_str());
    out.push_str("</h2>\n");
    put_table(out, shown);
    out.push_str("</section>\n");
}

fn put_sheets(out: &mut Draft, sheets: &[Shown])
    ensures { Grows out.old out.new (flat_map (λ shown. spec.html_section (view_in shown)) sheets.now) }
{
    for shown in sheets {
        put_shown(out, shown);
    }
}

// The title of the page of a command; the command itself where it has none.
fn title_of(language: Language, command: &'static str) -> &'static str {
    for (name, title) in &TITLES {
        if *name == command {
            return language.text(title);
        }
    }
    command
}

// The law of a sheet, if it is the one that names it.
fn law_in(shown: &Shown) -> Option<&str>
    ensures { option_map (λ l. l.now) result ≡ spec.law_in (view_in shown.now) }
{
    if shown.key != "law" {
        return None;
    }
    Some(shown.rows.first()?.first()?.as_str())
}

// The first law that a sheet names.
fn law_of(sheets: &[Shown]) -> Option<&str>
    ensures { option_map (λ l. l.now) result ≡ spec.law_of (map view_in sheets.now) }
{
    for shown in sheets {
        if let Some(law) = law_in(shown) {
            return Some(law);
        }
    }
    None
}

// Adds the title of a page, with the law if a sheet names it.
fn put_title(out: &mut Draft, title: &str, law: Option<&str>)
    ensures { Grows out.old out.new (spec.html_escaped (spec.with_law title.now (option_map (λ l. l.now) law.entry))) }
{
    put_text(out, title);
    if let Some(law) = law {
        out.push_str(": ");
        put_text(out, law);
    }
}

fn language_code(language: Language) -> &'static str
    ensures { result.now ≡ spec.language_code language }
{
    language.text(&LANGUAGE)
}

// Adds the head of a page.
fn put_head(out: &mut Draft, language: Language, title: &str, law: Option<&str>)
    ensures { Grows out.old out.new (spec.html_head (spec.language_code language) (spec.with_law title.now (option_map (λ l. l.now) law.entry))) }
{
    out.push_str("<!DOCTYPE html>\n<html lang=\"");
    out.push_str(language_code(language));
    out.push_str("\">\n<head>\n<meta charset=\"utf-8\">\n");
    out.push_str("<meta name=\"viewport\" content=\"width=device-width, initial-scale=1\">\n");
    out.push_str("<title>");
    put_title(out, title, law);
    out.push_str("</title>\n<style>\n");
    out.push_str(STYLE);
    out.push_str("</style>\n</head>\n");
}

// Adds the heading of a page.
fn put_heading(out: &mut Draft, title: &str, law: Option<&str>)
    ensures { Grows out.old out.new (spec.html_heading (spec.with_law title.now (option_map (λ l. l.now) law.entry))) }
{
    out.push_str("<h1>");
    put_title(out, title, law);
    out.push_str("</h1>\n");
}

// Adds the line of a legal fault, if there is one.
fn put_fault(out: &mut Draft, line: Option<&str>)
    ensures { Grows out.old out.new (spec.html_fault (option_map (λ l. l.now) line.entry)) }
{
    if let Some(line) = line {
        out.push_str("<p><code>");
        put_text(out, line);
        out.push_str("</code></p>\n");
    }
}

/// What is shown of sheets as a page of HTML, under the line of a legal fault, without its end, if there is one. No text is cut.
pub fn html_text(
    alloc: Global,
    heading: &Heading<'_>,
    line: Option<&str>,
    sheets: &[Shown],
) -> Result<String, NoMemory>
    ensures { IfOk result (λ t. (title : List ℕ) × (string_bytes t ≡ spec.html_page heading.now.language title (option_map (λ l. l.now) line.entry) (map view_in sheets.now))) }
{
    let title = title_of(heading.language, heading.command);
    let law = law_of(sheets);
    let mut out = Draft::new(alloc);
    put_head(&mut out, heading.language, title, law);
    out.push_str("<body>\n");
    put_heading(&mut out, title, law);
    put_fault(&mut out, line);
    put_sheets(&mut out, sheets);
    out.push_str("</body>\n</html>\n");
    out.finished()
}
