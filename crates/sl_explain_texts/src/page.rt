//! How an explanation stands on the page: as compilers write theirs.

ghost use Rattle.std.specs.Fmt.{decimal};
ghost use Rattle.std.specs.Option.{option_map};
ghost use Rattle.std.specs.Prelude.{◌≡◌, ◌++◌, IfOk, OnOk, codes, drop, flat_map, length, map, max, replicate, take};
ghost use Rattle.sl_explain_texts.specs.Heads.{head_of};
ghost use Rattle.sl_explain_texts.specs.Lines.{shown_count};
ghost use Rattle.sl_explain_texts.specs.Pages.{file_shown, first_characters, from_character, line_shown, lines_of, page_of, part, place, place_shown, texts_in};
ghost use Rattle.sl_explain_texts.specs.Shown.{shown};

use crate::code::FaultCode;
use crate::explanation::{Explanation, Span};
use crate::language::Language;
use crate::line::line_at;
use crate::parts::{append, begins_character, first_character, from, until};
use crate::shown::{push_shown, shown_count};
use crate::texts::HELP;
use sl_base_quotients::NoMemory;
use std::alloc::Global;

// The most bytes of a line that are shown before the mark, and the most characters in all.
const BEFORE: usize = 60;

const SHOWN: usize = 100;

// So many blanks, or marks.
fn repeat(text: &mut Vec<u8>, byte: u8, times: usize) -> Result<(), NoMemory>
    ensures { OnOk result (text.new.items ≡ text.old.items ++ replicate times byte) }
{
    for _ in 0..times {
        text.push(byte)?;
    }
    Ok(())
}

// Some bytes from the first that begins a character on.
fn from_character(bytes: &[u8]) -> &[u8]
    ensures { result.now ≡ from_character bytes.now }
{
    from(bytes, first_character(bytes))
}

// As many characters of some bytes as are shown of a line.
fn until_shown(bytes: &[u8]) -> &[u8]
    ensures { result.now ≡ first_characters 100 bytes.now }
{
    let mut left = SHOWN;
    for (place, byte) in bytes.iter().enumerate() {
        if begins_character(*byte) {
            if left == 0 {
                return until(bytes, place);
            }
            left -= 1;
        }
    }
    bytes
}

// The part of a line that is shown for a place in it, and the offset of the place in that part.
fn window(line: &[u8], at: usize) -> (&[u8], usize)
    ensures part { result.0.now ≡ part line.now at }
    ensures place { result.1 ≡ place line.now at }
{
    let place = at.min(line.len());
    let rest = from_character(from(line, place.saturating_sub(BEFORE)));
    let skipped = line.len().saturating_sub(rest.len());
    (until_shown(rest), place.saturating_sub(skipped))
}

// As many blanks as a line's number has digits, and what stands after them.
fn write_margin(text: &mut Vec<u8>, width: usize, parts: &[&[u8]]) -> Result<(), NoMemory>
    ensures { OnOk result (text.new.items ≡ text.old.items ++ (replicate width 32 ++ flat_map (λ part. part.now) parts.now)) }
{
    repeat(text, b' ', width)?;
    append(text, parts)
}

// A mark below some bytes of a part of a line: at least one character, also after its end.
fn write_mark(text: &mut Vec<u8>, part: &[u8], place: usize, bytes: usize) -> Result<(), NoMemory>
    ensures { OnOk result (text.new.items ≡ text.old.items ++ (replicate (shown_count part.now (take place part.now)) 32 ++ replicate (max (shown_count part.now (take bytes (drop place part.now))) 1) 94 ++ codes "\n")) }
{
    let marked = until(from(part, place), bytes);
    repeat(text, b' ', shown_count(part, until(part, place)))?;
    repeat(text, b'^', shown_count(part, marked).max(1))?;
    append(text, &[b"\n"])
}

// A part of a line with the digits of its number.
fn write_part(text: &mut Vec<u8>, digits: &[u8], part: &[u8]) -> Result<(), NoMemory>
    ensures { OnOk result (text.new.items ≡ text.old.items ++ (replicate (length digits.now) 32 ++ codes " |\n" ++ digits.now ++ codes " | " ++ shown part.now ++ codes "\n")) }
{
    write_margin(text, digits.len(), &[b" |\n", digits, b" | "])?;
    push_shown(text, part)?;
    append(text, &[b"\n"])
}

// A line with the digits of its number, and under it a mark below so many bytes from a place on.
fn write_line(
    text: &mut Vec<u8>,
    digits: &[u8],
    line: &[u8],
    at: usize,
    bytes: usize,
) -> Result<(), NoMemory>
    ensures { OnOk result (text.new.items ≡ text.old.items ++ line_shown digits.now line.now at bytes) }
{
    let (part, place) = window(line, at);
    write_part(text, digits, part)?;
    write_margin(text, digits.len(), &[b" | "])?;
    write_mark(text, part, place, bytes)
}

// The file, the line and the column.
fn write_head(
    text: &mut Vec<u8>,
    alloc: Global,
    path: &[u8],
    digits: &[u8],
    column: usize,
) -> Result<(), NoMemory>
    ensures { OnOk result (text.new.items ≡ text.old.items ++ (replicate (length digits.now) 32 ++ codes "--> " ++ path.now ++ codes ":" ++ digits.now ++ codes ":" ++ decimal column ++ codes "\n")) }
{
    let column = column.to_string(alloc)?;
    let parts = [b"--> ", path, b":", digits, b":", column.as_bytes(), b"\n"];
    write_margin(text, digits.len(), &parts)
}

// Where it is: the file, the line and the column, and the line itself.
fn write_place(
    text: &mut Vec<u8>,
    alloc: Global,
    path: &[u8],
    input: &[u8],
    span: Span,
) -> Result<(), NoMemory>
    ensures { OnOk result (text.new.items ≡ text.old.items ++ place_shown path.now input.now span) }
{
    let line = line_at(input, span.start);
    let digits = line.number.to_string(alloc)?;
    write_head(text, alloc, path, digits.as_bytes(), line.column)?;
    let at = span.start.saturating_sub(line.start);
    let bytes = span.end.saturating_sub(span.start);
    write_line(text, digits.as_bytes(), line.text, at, bytes)
}

// How an explanation begins: the word for an error, and the code of the fault, if it is of one.
fn head_of(alloc: Global, language: Language, code: Option<FaultCode>) -> Result<Vec<u8>, NoMemory>
    ensures { IfOk result (λ text. text.items ≡ head_of language code) }
{
    let mut text = Vec::new(alloc);
    text.extend_from_slice(language.error_word().as_bytes())?;
    if let Some(code) = code {
        text.extend_from_slice(b"[")?;
        text.extend_from_slice(code.word().as_bytes())?;
        text.extend_from_slice(b"]")?;
    }
    text.extend_from_slice(b": ")?;
    Ok(text)
}

// Texts, a line each after a label.
fn write_lines(text: &mut Vec<u8>, label: &[u8], lines: &[&[u8]]) -> Result<(), NoMemory>
    ensures { OnOk result (text.new.items ≡ text.old.items ++ lines_of label.now (map (λ x. x.now) lines.now)) }
{
    for line in lines {
        append(text, &[label, line, b"\n"])?;
    }
    Ok(())
}

// The lines after all else.
fn write_texts(text: &mut Vec<u8>, lines: &[Vec<u8>]) -> Result<(), NoMemory>
    ensures { OnOk result (text.new.items ≡ text.old.items ++ lines_of (codes "") (texts_in lines.now)) }
{
    for line in lines {
        append(text, &[line.as_slice(), b"\n"])?;
    }
    Ok(())
}

// The file, with a place in it if the explanation speaks of one; nothing without a path.
fn write_file(
    text: &mut Vec<u8>,
    alloc: Global,
    path: Option<&[u8]>,
    input: &[u8],
    span: Option<Span>,
) -> Result<(), NoMemory>
    ensures { OnOk result (text.new.items ≡ text.old.items ++ file_shown (option_map (λ p. p.now) path.entry) input.now span) }
{
    match (path, span) {
        (None, _) => Ok(()),
        (Some(path), None) => append(text, &[b" --> ", path, b"\n"]),
        (Some(path), Some(span)) => write_place(text, alloc, path, input, span),
    }
}

/// An explanation as it is written: the code and the sentence; the path of the file, and with a place its line and column, and the line with a mark under
/// the place; the remedies; and the lines after them. Without a path, as where no file is spoken of, no place is written.
pub fn written(
    alloc: Global,
    language: Language,
    path: Option<&[u8]>,
    input: &[u8],
    explanation: &Explanation,
) -> Result<Vec<u8>, NoMemory>
    ensures { IfOk result (λ text. text.items ≡ page_of language (option_map (λ p. p.now) path.entry) input.now explanation.now) }
{
    let mut text = head_of(alloc, language, explanation.code())?;
    append(&mut text, &[explanation.sentence(), b"\n"])?;
    write_file(&mut text, alloc, path, input, explanation.span())?;
    let label = language.text(&HELP).as_bytes();
    write_lines(&mut text, label, explanation.advice(alloc)?.as_slice())?;
    write_texts(&mut text, explanation.lines())?;
    Ok(text)
}
