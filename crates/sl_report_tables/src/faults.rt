//! The sheets of a legal fault: where it is, what happened, and what to do.

ghost use Rattle.std.specs.Prelude.{◌≡◌, ◌∷◌, [], IfOk, Some, map};
ghost use Rattle.sl_report_forms.specs.Cells.{content_of, prose};
ghost use Rattle.sl_report_forms.specs.Tables.{contents_of, table_of};
ghost use Rattle.sl_report_tables.specs.Faults.{AreFaultTables, IsExplanation, code_cell, fault_table, kind_cell, tied, tied_seats};
ghost use Rattle.sl_explain_faults.specs.Codes.{legal_code};

use crate::naming::{owned, text_of};
use crate::rows::{add_sheet, keyword, one_row_sheet};
use crate::texts::{
    EXPLANATION_TITLE, FAULT_TITLE, KIND_CAP, KIND_LIMIT, KIND_MAJORITY, KIND_NO_LIST, KIND_SHORT,
    KIND_TIE,
};
use sl_base_quotients::NoMemory;
use sl_explain_faults::explain_legal;
use sl_explain_texts::{Explanation, FaultCode, Language};
use sl_report_forms::{Cell, ColumnForm, Look, Sheet, Title};
use sl_stages::{Book, FaultKind, LegalFault, Returns};
use std::alloc::Global;

const FAULT: [ColumnForm; 7] = [
    ("code", "code", "Code", Look::Text(4)),
    ("stage", "stage", "Stufe", Look::Text(12)),
    ("scope", "", "", Look::Hidden),
    ("scope_name", "scope", "Bereich", Look::Text(28)),
    ("kind", "kind", "Art", Look::Text(14)),
    ("seats", "seats", "Sitze", Look::Number),
    ("names", "names", "Namen", Look::Text(36)),
];

#[rattlefmt::skip]
const EXPLANATION: [ColumnForm; 1] = [
    ("text", "what happened, and what to do", "was geschah, und was zu tun ist", Look::Text(240)),
];

/// The word of a kind of faults.
pub(crate) fn kind_cell(kind: &FaultKind) -> Cell
    ensures { content_of result ≡ kind_cell kind.now }
{
    Cell::Word(match kind {
        FaultKind::Limit => KIND_LIMIT,
        FaultKind::Short => KIND_SHORT,
        FaultKind::NoList => KIND_NO_LIST,
        FaultKind::Tie { .. } => KIND_TIE,
        FaultKind::Majority => KIND_MAJORITY,
        FaultKind::Cap => KIND_CAP,
    })
}

// The seats of a tie.
fn tied_seats(kind: &FaultKind) -> Cell
    ensures { content_of result ≡ tied_seats kind.now }
{
    match kind {
        FaultKind::Tie { seats, .. } => Cell::Number(*seats),
        _ => Cell::Empty,
    }
}

// The names of the tied.
fn tied(alloc: Global, kind: &FaultKind) -> Result<Cell, NoMemory>
    ensures { IfOk result (λ cell. content_of cell ≡ tied kind.now) }
{
    match kind {
        FaultKind::Tie { names, .. } => {
            Ok(Cell::Entries(Vec::from_slice(alloc, names.as_slice())?))
        }
        _ => Ok(Cell::Empty),
    }
}

// The code of what is explained.
fn code_cell(told: &Explanation) -> Cell
    ensures { content_of result ≡ code_cell told.now.code }
{
    keyword(told.code().map_or("", FaultCode::word))
}

// The sheet of a legal fault, with the code of its explanation.
fn fault_sheet(alloc: Global, fault: &LegalFault, told: &Explanation) -> Result<Sheet, NoMemory>
    requires { told.now.code ≡ Some (legal_code fault.now) }
    ensures { IfOk result (λ s. table_of s ≡ fault_table fault.now) }
{
    let tied = tied(alloc, &fault.kind)?;
    let row = vec![in alloc;
        code_cell(told),
        Cell::Stage(fault.stage),
        Cell::Scope(fault.scope),
        Cell::ScopeName(fault.scope),
        kind_cell(&fault.kind),
        tied_seats(&fault.kind),
        tied,
    ]?;
    one_row_sheet(alloc, "fault", FAULT_TITLE, &FAULT, row)
}

// The names of a rulebook's stages, in order.
fn stages_of(alloc: Global, book: &Book) -> Result<Vec<&[u8]>, NoMemory> {
    let mut names = Vec::new(alloc);
    for stage in book.stages.as_slice() {
        names.push(stage.name.as_bytes())?;
    }
    Ok(names)
}

// A line for a text.
fn text_row(alloc: Global, text: &[u8]) -> Result<Vec<Cell>, NoMemory>
    ensures { IfOk result (λ row. contents_of row.items ≡ (prose ∷ [])) }
{
    let text = owned(alloc, text_of(text))?;
    Ok(vec![in alloc; Cell::Prose(text)]?)
}

// The sheet of an explanation, a line for each sentence.
fn explanation_sheet(alloc: Global, told: &Explanation) -> Result<Sheet, NoMemory>
    ensures { IfOk result (λ s. IsExplanation (table_of s)) }
{
    let mut sheet = Sheet::new(
        alloc,
        "explanation",
        Title::Words(EXPLANATION_TITLE),
        &EXPLANATION,
    )?;
    sheet.push(text_row(alloc, told.sentence())?)?;
    for text in told.advice(alloc)?.as_slice() {
        sheet.push(text_row(alloc, text)?)?;
    }
    Ok(sheet)
}

/// The sheets of a legal fault: where it is, with its code, and what happened and what to do.
pub(crate) fn fault_sheets(
    alloc: Global,
    book: &Book,
    returns: &Returns,
    fault: &LegalFault,
    language: Language,
) -> Result<Vec<Sheet>, NoMemory>
    ensures { IfOk result (λ sheets. AreFaultTables fault.now (map table_of sheets.items)) }
{
    let stages = stages_of(alloc, book)?;
    let told = explain_legal(alloc, language, stages.as_slice(), returns, fault)?;
    let mut sheets: Vec<Sheet> = Vec::new(alloc);
    add_sheet(&mut sheets, fault_sheet(alloc, fault, &told))?;
    add_sheet(&mut sheets, explanation_sheet(alloc, &told))?;
    Ok(sheets)
}
