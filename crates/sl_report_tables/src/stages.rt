//! The sheets of all stages: a line for each, and its column.

ghost use Rattle.std.specs.Prelude.{◌≡◌, IfOk, OnOk, map};
ghost use Rattle.sl_report_forms.specs.Tables.{contents_of, table_of, with_rows};
ghost use Rattle.sl_report_tables.specs.Stages.{AreStageTables, IsStagesTable, cell_row, cells_table, one_row, stage_row, unit_at};
ghost use Rattle.sl_law_meaning.specs.meaning.Scopes.{entries_of};

use crate::rows::add_sheet;
use crate::texts::{STAGE_TITLE, STAGES_TITLE};
use crate::words::{shape_cell, unit_cell};
use sl_base_quotients::NoMemory;
use sl_check::types_of;
use sl_report_forms::{ALL, Cell, ColumnForm, Look, Sheet, Title};
use sl_report_parties::Setting;
use sl_report_results::{Column, Counted, entries_of, number_of, sum_of};
use sl_stages::{Book, ColumnType, Item, Returns, Scope, Shape, Unit};
use std::alloc::Global;

const STAGES: [ColumnForm; 5] = [
    ("number", "number", "Nummer", Look::Number),
    ("stage", "stage", "Stufe", Look::Text(12)),
    ("shape", "shape", "Form", Look::Text(9)),
    ("unit", "unit", "Einheit", Look::Text(8)),
    ("sum", "sum", "Summe", Look::Number),
];

const CELLS: [ColumnForm; 4] = [
    ("stage", "", "", Look::Hidden),
    ("entry", "", "", Look::Hidden),
    ("entry_name", "entry", "Eintrag", Look::Text(60)),
    ("value", "value", "Wert", Look::Number),
];

/// The number of the stage of that name, if there is one.
pub(crate) fn stage_number(book: &Book, name: &[u8]) -> Option<usize> {
    let mut stages = book.stages.iter();
    stages.position(|stage| stage.name.as_bytes() == name)
}

// The row of a stage.
fn stage_row(
    alloc: Global,
    number: usize,
    unit: Unit,
    column: &Column,
) -> Result<Vec<Cell>, NoMemory>
    ensures { IfOk result (λ row. contents_of row.items ≡ stage_row unit (number, column.now)) }
{
    Ok(vec![in alloc;
        Cell::Number((number as u64).saturating_add(1)),
        Cell::Stage(number),
        shape_cell(column.shape),
        unit_cell(unit),
        Cell::Number(sum_of(column)),
    ]?)
}

// The unit of the column of that number.
fn unit_at(types: &[ColumnType], number: usize) -> Unit
    ensures { result ≡ unit_at types.now number }
{
    types.get(number).map_or(Unit::Seats, |of| of.unit)
}

// A line for each stage.
fn stages_sheet(alloc: Global, book: &Book, columns: &[Column]) -> Result<Sheet, NoMemory>
    ensures { IfOk result (λ s. IsStagesTable columns.now (table_of s)) }
{
    let mut sheet = Sheet::new(alloc, "stages", Title::Words(STAGES_TITLE), &STAGES)?;
    let types = types_of(book.stages.as_slice());
    for (number, column) in columns.iter().enumerate() {
        let unit = unit_at(&types, number);
        sheet.push(stage_row(alloc, number, unit, column)?)?;
    }
    Ok(sheet)
}

// The row of a column of one number.
fn one_row(alloc: Global, stage: usize, column: &Column) -> Result<Vec<Cell>, NoMemory>
    ensures { IfOk result (λ row. contents_of row.items ≡ one_row stage column.now) }
{
    Ok(vec![in alloc;
        Cell::Stage(stage),
        Cell::Word(ALL),
        Cell::Word(ALL),
        Cell::Number(sum_of(column)),
    ]?)
}

// The row of an entry of a column.
fn entry_row(
    alloc: Global,
    returns: &Returns,
    stage: usize,
    column: &Column,
    entry: Item,
) -> Result<Vec<Cell>, NoMemory>
    ensures { IfOk result (λ row. contents_of row.items ≡ cell_row returns.now stage column.now entry) }
{
    Ok(vec![in alloc;
        Cell::Stage(stage),
        Cell::Entry(entry),
        Cell::EntryName(entry, Scope::All),
        Cell::Number(number_of(returns, column, entry)),
    ]?)
}

// Adds the rows of the entries of a column.
fn push_entries(
    alloc: Global,
    sheet: &mut Sheet,
    returns: &Returns,
    stage: usize,
    column: &Column,
) -> Result<(), NoMemory>
    ensures { OnOk result (table_of sheet.new ≡ with_rows (table_of sheet.old) (map (cell_row returns.now stage column.now) (entries_of returns.now column.now.shape))) }
{
    let entries = entries_of(alloc, returns, column.shape)?;
    for entry in &entries {
        sheet.push(entry_row(alloc, returns, stage, column, *entry)?)?;
    }
    Ok(())
}

// The column of a stage.
fn cells_sheet(
    alloc: Global,
    returns: &Returns,
    stage: usize,
    column: &Column,
) -> Result<Sheet, NoMemory>
    ensures { IfOk result (λ s. table_of s ≡ cells_table returns.now (stage, column.now)) }
{
    let title = Title::Stage(STAGE_TITLE, stage);
    let mut sheet = Sheet::new(alloc, "cells", title, &CELLS)?;
    match column.shape {
        Shape::One => sheet.push(one_row(alloc, stage, column)?)?,
        Shape::Party | Shape::Land | Shape::List => {
            push_entries(alloc, &mut sheet, returns, stage, column)?;
        }
    }
    Ok(sheet)
}

/// The sheets of all stages of a count.
pub fn stage_sheets(
    alloc: Global,
    setting: &Setting<'_>,
    counted: &Counted,
) -> Result<Vec<Sheet>, NoMemory>
    ensures { IfOk result (λ sheets. AreStageTables setting.now.returns.now counted.now.columns.items (map table_of sheets.items)) }
{
    let mut sheets: Vec<Sheet> = Vec::new(alloc);
    let columns = counted.columns.as_slice();
    let returns = setting.returns;
    add_sheet(&mut sheets, stages_sheet(alloc, setting.book, columns))?;
    for (stage, column) in columns.iter().enumerate() {
        add_sheet(&mut sheets, cells_sheet(alloc, returns, stage, column))?;
    }
    Ok(sheets)
}
