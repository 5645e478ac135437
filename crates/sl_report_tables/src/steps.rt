//! The sheets of seat steps and of the bounds of scopes, and those of a seat table alone: what `steps` and `count` write in JSON.

ghost use Rattle.std.specs.Prelude.{◌≡◌, ◌∷◌, [], IfOk, map, string_bytes};
ghost use Rattle.sl_report_forms.specs.Tables.{contents_of, table_of};
ghost use Rattle.sl_report_tables.specs.Reports.{ShowsSteps, seat_tables};
ghost use Rattle.sl_count_texts.specs.Lines.{ratio_word};
ghost use Rattle.sl_count_texts.specs.Steps.{mark_words};
ghost use Rattle.sl_report_tables.specs.Naming.{text_of};
ghost use Rattle.sl_report_tables.specs.Steps.{bounds_row, bounds_table, step_row, steps_table, words_text};

use crate::counted::{first_sheets, push_places};
use crate::naming::{owned, text_of};
use crate::parties::lists_sheet;
use crate::rows::{add_sheet, land_side, party_side};
use crate::texts::{BOUNDS_TITLE, STEPS_TITLE};
use sl_base_quotients::{NoMemory, Ratio};
use sl_count_texts::{ScopeBounds, Text, bounds_in_order, mark_words, steps_in_order};
use sl_report_forms::{Cell, ColumnForm, Look, Sheet, Title};
use sl_report_parties::Setting;
use sl_stages::{Mark, SeatStep, Table};
use std::alloc::Global;

// Tables of JSON alone: a person reads the lines of `steps`.
const STEPS: [ColumnForm; 10] = [
    ("stage", "", "", Look::Hidden),
    ("scope", "", "", Look::Hidden),
    ("scope_name", "", "", Look::Hidden),
    ("entry", "", "", Look::Hidden),
    ("entry_name", "", "", Look::Hidden),
    ("land", "", "", Look::Hidden),
    ("party", "", "", Look::Hidden),
    ("number", "", "", Look::Hidden),
    ("step", "", "", Look::Hidden),
    ("mark", "", "", Look::Hidden),
];

const BOUNDS: [ColumnForm; 6] = [
    ("stage", "", "", Look::Hidden),
    ("scope", "", "", Look::Hidden),
    ("scope_name", "", "", Look::Hidden),
    ("last", "", "", Look::Hidden),
    ("next", "", "", Look::Hidden),
    ("lot", "", "", Look::Hidden),
];

// The words of a line.
fn words_of(alloc: Global, line: Text) -> Result<String, NoMemory>
    ensures { IfOk result (λ t. string_bytes t ≡ text_of line.bytes) }
{
    let bytes = line.into_bytes();
    owned(alloc, text_of(bytes.as_slice()))
}

// What won a seat, as the line of the seat has it.
fn mark_text(alloc: Global, mark: Mark) -> Result<String, NoMemory>
    ensures { IfOk result (λ t. string_bytes t ≡ words_text (mark_words mark)) }
{
    let mut line = Text::new(alloc);
    mark_words(&mut line, mark)?;
    words_of(alloc, line)
}

// A quotient, not reduced, as the lines of bounds have it.
fn ratio_text(alloc: Global, ratio: Ratio) -> Result<String, NoMemory>
    ensures { IfOk result (λ t. string_bytes t ≡ words_text (ratio_word ratio ∷ [])) }
{
    let mut line = Text::new(alloc);
    line.ratio(ratio)?;
    words_of(alloc, line)
}

// The row of a seat step.
fn step_row(alloc: Global, step: &SeatStep) -> Result<Vec<Cell>, NoMemory>
    ensures { IfOk result (λ row. contents_of row.items ≡ step_row step.now) }
{
    let mark = mark_text(alloc, step.mark)?;
    Ok(vec![in alloc;
        Cell::Stage(step.stage),
        Cell::Scope(step.scope),
        Cell::ScopeName(step.scope),
        Cell::Entry(step.entry),
        Cell::EntryName(step.entry, step.scope),
        land_side(step.entry),
        party_side(step.entry),
        Cell::Number(step.n),
        Cell::Number(step.step),
        Cell::Text(mark),
    ]?)
}

// All seat steps.
fn steps_sheet(alloc: Global, table: &Table) -> Result<Sheet, NoMemory>
    ensures { IfOk result (λ s. table_of s ≡ steps_table table.now) }
{
    let steps = steps_in_order(alloc, table)?;
    let mut sheet = Sheet::new(alloc, "steps", Title::Words(STEPS_TITLE), &STEPS)?;
    for step in steps.as_slice() {
        sheet.push(step_row(alloc, *step)?)?;
    }
    Ok(sheet)
}

// The row of a scope's bounds.
fn bounds_row(alloc: Global, bounds: &ScopeBounds) -> Result<Vec<Cell>, NoMemory>
    ensures { IfOk result (λ row. contents_of row.items ≡ bounds_row bounds.now) }
{
    let last = ratio_text(alloc, bounds.last)?;
    let next = ratio_text(alloc, bounds.next)?;
    Ok(vec![in alloc;
        Cell::Stage(bounds.stage),
        Cell::Scope(bounds.scope),
        Cell::ScopeName(bounds.scope),
        Cell::Text(last),
        Cell::Text(next),
        Cell::Flag(bounds.is_lot()),
    ]?)
}

// The bounds of scopes.
#[tactic(auto, using(crate::proofs::MoreRows::rows_next))]
fn bounds_sheet(alloc: Global, found: &[ScopeBounds]) -> Result<Sheet, NoMemory>
    ensures { IfOk result (λ s. table_of s ≡ bounds_table found.now) }
{
    let mut sheet = Sheet::new(alloc, "bounds", Title::Words(BOUNDS_TITLE), &BOUNDS)?;
    for bounds in found {
        sheet.push(bounds_row(alloc, bounds)?)?;
    }
    Ok(sheet)
}

/// The sheets of a seat table: the law; the parties, and who takes part; the lists; winners who sit by themselves, and who are not seated.
pub(crate) fn seat_sheets(
    alloc: Global,
    setting: &Setting<'_>,
    table: &Table,
) -> Result<Vec<Sheet>, NoMemory>
    ensures { IfOk result (λ sheets. map table_of sheets.items ≡ seat_tables setting.now.book.now setting.now.returns.now table.now) }
{
    let mut sheets = first_sheets(alloc, setting, Some(table))?;
    add_sheet(
        &mut sheets,
        lists_sheet(alloc, setting.returns, table, true),
    )?;
    push_places(alloc, &mut sheets, setting.returns, table)?;
    Ok(sheets)
}

/// The sheets of all seat steps and of the bounds of scopes, and those of the seat table.
pub(crate) fn step_sheets(
    alloc: Global,
    setting: &Setting<'_>,
    table: &Table,
) -> Result<Vec<Sheet>, NoMemory>
    ensures { IfOk result (λ sheets. ShowsSteps setting.now.book.now setting.now.returns.now table.now (map table_of sheets.items)) }
{
    let found = bounds_in_order(alloc, table)?;
    let mut sheets: Vec<Sheet> = Vec::new(alloc);
    add_sheet(&mut sheets, steps_sheet(alloc, table))?;
    add_sheet(&mut sheets, bounds_sheet(alloc, found.as_slice()))?;
    let mut seats = seat_sheets(alloc, setting, table)?;
    sheets.append(&mut seats)?;
    Ok(sheets)
}
