//! Returns that do not begin with the header.

ghost use Rattle.std.specs.Prelude.{◌≡◌, IfOk, IfSome, Some, true};
ghost use Rattle.sl_explain_texts.specs.declared.code.FaultCode.TheVariants.{R01};
ghost use Rattle.sl_explain_returns.specs.Places.{Explains, begins_cell};
ghost use Rattle.sl_explain_texts.specs.Messages.{IsFilledBy};

use crate::case::Case;
use crate::files::explain_file;
use crate::quotes::explain_quote;
use crate::texts::fields::DELETE;
use crate::texts::header as texts;
use sl_base_quotients::NoMemory;
use sl_explain_texts::{Explainer, FaultCode, Message, Span, first_line};
use sl_returns::{COLUMNS, KIND, Kind, column_name};

// Marks that separate cells in place of commas.
const MARKS: [u8; 3] = [b';', b'\t', b'|'];

// What the first cell of a table of Länder, parties or constituencies is called, in small letters.
const HEADS: [&[u8]; 10] = [
    b"land",
    b"bundesland",
    b"l\xC3\xA4nder",
    b"l\xE4nder",
    b"state",
    b"partei",
    b"party",
    b"wahlkreis",
    b"wkr",
    b"nr",
];

// How many first bytes tell what a table is.
const LOOKED_AT: usize = 2048;

// How often a byte stands in a line.
fn times(line: &[u8], mark: u8) -> usize {
    line.iter().filter(|byte| **byte == mark).count()
}

// Whether a cell is that of the header, but for blanks and capitals.
fn is_nearly(cell: &[u8], wanted: &[u8]) -> bool {
    cell.trim_ascii().eq_ignore_ascii_case(wanted)
}

// Whether a first cell is that of a header of returns, or of a record.
fn begins_returns(cell: &[u8]) -> bool {
    is_nearly(cell, b"kind")
        || is_nearly(cell, b"kind2")
        || Kind::named(cell.trim_ascii()).is_some()
}

// Whether the record is a header but for blanks and capitals.
fn is_misspelt(case: &Case<'_>) -> bool {
    for column in KIND..COLUMNS {
        let cell = case.text(column);
        if !is_nearly(cell, column_name(column)) && !(column == KIND && is_nearly(cell, b"kind2")) {
            return false;
        }
    }
    case.cells() == COLUMNS
}

// The mark that separates the cells of a line in place of commas, if one does.
fn separator_of(line: &[u8]) -> Option<u8> {
    let commas = times(line, b',');
    MARKS
        .iter()
        .copied()
        .find(|mark| times(line, *mark) > commas)
}

// What a line has before the first of such marks.
fn before(line: &[u8], mark: u8) -> &[u8] {
    line.split(|byte| *byte == mark).next().unwrap_or(line)
}

// Whether the first cell of a table is called so, and not that of returns.
fn heads_table(cell: &[u8]) -> bool {
    let name = cell.trim_ascii();
    !begins_returns(cell) && HEADS.iter().any(|head| name.eq_ignore_ascii_case(head))
}

// Whether a text is a table of the election office: near its beginning it speaks of `Gebiet`.
fn is_office(bytes: &[u8]) -> bool {
    let mut parts = bytes.windows(b"Gebiet".len()).take(LOOKED_AT);
    parts.any(|part| part == b"Gebiet".as_slice())
}

// What is said of a line with another mark than commas, and what to do.
fn mark_messages(line: &[u8], mark: u8) -> (&'static Message, &'static Message)
    ensures { IsFilledBy result.0.now 1 × IsFilledBy result.1.now 0 }
{
    let first = before(line, mark);
    if heads_table(first) {
        (&texts::WIDE, &texts::SHEETS)
    } else if mark == b';' && !begins_returns(first) {
        (&texts::HEADER_SEMICOLONS, &texts::SHEETS)
    } else if mark == b';' {
        (&texts::HEADER_SEMICOLONS, &texts::REPLACE_SEMICOLONS)
    } else if mark == b'\t' {
        (&texts::HEADER_TABS, &texts::REPLACE_TABS)
    } else {
        (&texts::HEADER_PIPES, &texts::REPLACE_PIPES)
    }
}

// What is said of a first line that is no line of cells with commas between them, and what to do.
fn foreign_messages(case: &Case<'_>, line: &[u8]) -> Option<(&'static Message, &'static Message)>
    ensures { IfSome result (λ x. IsFilledBy x.0.now 1 × IsFilledBy x.1.now 0) }
{
    if is_office(case.bytes) {
        return Some((&texts::OFFICE, &texts::SHEETS));
    }
    if line.starts_with(b"sep=") || line.starts_with(b"SEP=") {
        return Some((&texts::SEP, &DELETE));
    }
    if case.text(KIND).starts_with(b"#") {
        return Some((&texts::HEADER_COMMENT, &DELETE));
    }
    match separator_of(line) {
        Some(mark) => Some(mark_messages(line, mark)),
        None if heads_table(case.text(KIND)) => Some((&texts::WIDE, &texts::SHEETS)),
        None => None,
    }
}

// What is said of a first line that is a record, or nearly the header, and what to do.
fn near_messages(case: &Case<'_>) -> Option<(&'static Message, &'static Message)>
    ensures { IfSome result (λ x. IsFilledBy x.0.now 0 × IsFilledBy x.1.now 0) }
{
    let has_seven = case.cells() == 7;
    if Kind::named(case.text(KIND).trim_ascii()).is_some() {
        Some((&texts::NO_HEADER, &texts::ADD))
    } else if has_seven && case.text(COLUMNS).is_empty() {
        Some((&texts::HEADER_TRAILING, &texts::SHORTEN_HEADER))
    } else if has_seven && is_nearly(case.text(1), b"kind") {
        Some((&texts::NUMBERED, &texts::NO_NAMES))
    } else if is_misspelt(case) {
        Some((&texts::SPELLING, &texts::EXPECTED))
    } else {
        None
    }
}

// The first column whose cell is not that of the header.
fn first_other(case: &Case<'_>) -> usize {
    for column in KIND..COLUMNS {
        let cell = case.text(column);
        if cell != column_name(column) && !(column == KIND && cell == b"kind2".as_slice()) {
            return column;
        }
    }
    KIND
}

// A first cell of the header that differs.
fn explain_other(case: &Case<'_>) -> Explainer
    ensures { Explains case.now (Some R01) result }
{
    let column = first_other(case);
    let values = [case.text(column), case.name(column)];
    let span = case.at(column);
    case.says(FaultCode::R01, &texts::OTHER_HEADER, &values, span)
}

// A first line of cells that is no header.
fn explain_cells(case: &Case<'_>, span: Span) -> Result<Explainer, NoMemory>
    requires { begins_cell case.now.bytes.now case.now.refused.fault.row span.start ≡ true }
    ensures { IfOk result (Explains case.now (Some R01)) }
{
    if let Some((sentence, remedy)) = near_messages(case) {
        let explainer = case.says(FaultCode::R01, sentence, &[], span);
        return Ok(explainer.helped(remedy, &[]));
    }
    let explainer = if case.cells() == COLUMNS {
        explain_other(case)
    } else {
        case.says_count(FaultCode::R01, &texts::COUNT, span)?
    };
    Ok(explainer.helped(&texts::EXPECTED, &[]))
}

// The line in which the record begins.
fn first_of<'a>(case: &Case<'a>) -> (&'a [u8], Span)
    ensures { begins_cell case.now.bytes.now case.now.refused.fault.row result.1.start ≡ true }
{
    let start = case.at(KIND).start;
    let line = match case.bytes.split_at_checked(start) {
        Some((_, rest)) => first_line(rest),
        None => &[],
    };
    let end = start.saturating_add(line.len());
    (line, Span { start, end })
}

// A first line that is text and no header.
fn explain_line(case: &Case<'_>) -> Result<Explainer, NoMemory>
    ensures { IfOk result (Explains case.now (Some R01)) }
{
    let (line, span) = first_of(case);
    match foreign_messages(case, line) {
        Some((sentence, remedy)) => Ok(
            case.says(FaultCode::R01, sentence, &[line], span)
                .helped(remedy, &[])
                .helped(&texts::EXPECTED, &[]),
        ),
        None => explain_cells(case, span),
    }
}

/// The explanation of returns whose first record is not the header.
pub(crate) fn explain_header(case: &Case<'_>) -> Result<Explainer, NoMemory>
    ensures { IfOk result (Explains case.now (Some R01)) }
{
    if let Some(explainer) = explain_file(case) {
        return Ok(explainer);
    }
    match explain_quote(case, FaultCode::R01) {
        Some(explainer) => Ok(explainer),
        None => explain_line(case),
    }
}
