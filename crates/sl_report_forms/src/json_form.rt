//! Sheets as JSON: an object for each row, in one array for each key.

ghost use Rattle.std.specs.Prelude.{◌≡◌, ◌≤◌, IfOk, map, option_map, string_bytes};
ghost use Rattle.sl_law_meaning.specs.declared.fault.Scope.TheVariants as scope;
ghost use Rattle.sl_report_forms.specs.NameTexts.{text_in};
ghost use Rattle.sl_report_forms.specs.declared.names.Length.TheVariants.{Short};
ghost use Rattle.serde_json.specs.Data.{depth, string};
ghost use Rattle.serde_json.specs.Read.{max_depth};
ghost use Rattle.serde_json.specs.View.{number_view, view};
ghost use Rattle.sl_report_forms.specs.JsonForm as spec;
ghost use Rattle.sl_report_forms.specs.JsonForm.{Adds, IsJsonText, IsLineOf, array_of, change, sheet_rows, table_value, tables_value};

use crate::cell::{Cell, Reader};
use crate::heading::Heading;
use crate::json_heading::put_heading;
use crate::json_values::{Members, array_value};
use crate::names::{Length, Names};
use crate::sheet::{Head, Sheet};
use serde_json::{Number, Value};
use sl_base_quotients::NoMemory;
use sl_explain_texts::Filled;
use sl_law_meaning::{Item, Scope};
use std::alloc::Global;

fn entry_value(alloc: Global, names: &Names, entry: Item) -> Result<Value, NoMemory>
    ensures { IfOk result (λ v. view v ≡ string (text_in names.now Short scope.All entry)) }
{
    Ok(Value::String(names.text(alloc, Length::Short, Scope::All, entry)?))
}

// The short names of entries.
fn entries_value(alloc: Global, names: &Names, entries: &[Item]) -> Result<Value, NoMemory>
    ensures { IfOk result (λ v. view v ≡ array_of (map (λ entry. string (text_in names.now Short scope.All entry)) entries.now)) }
{
    let mut values = Filled::new(alloc);
    for entry in entries {
        values.push(entry_value(alloc, names, *entry));
    }
    array_value(values)
}

// The difference of two numbers, none of which has more than 63 bits.
fn change_number(number: u64, before: u64) -> Number
    ensures { number_view result ≡ change number before }
{
    if number < before {
        Number::from(-i64::try_from(before - number).unwrap_or(i64::MAX))
    } else {
        Number::from(number - before)
    }
}

fn cell_value(alloc: Global, names: &Names, cell: &Cell) -> Result<Value, NoMemory>
    ensures { IfOk result (λ v. view v ≡ spec.cell_value names.now cell.now) }
{
    match cell {
        Cell::Empty => Ok(Value::Null),
        Cell::Number(number) => Ok(Value::Number(Number::from(*number))),
        Cell::Change(number, before) => Ok(Value::Number(change_number(*number, *before))),
        Cell::Flag(is) => Ok(Value::Bool(*is)),
        Cell::Claimants(entries, _) => entries_value(alloc, names, entries.as_slice()),
        _ => Ok(Value::String(cell.text(alloc, names, Reader::Program)?)),
    }
}

#[tactic(auto, using(crate::proofs::Zips::zip_nil))]
fn row_value(alloc: Global, names: &Names, heads: &[Head], row: &[Cell]) -> Result<Value, NoMemory>
    ensures { IfOk result (λ v. view v ≡ spec.row_value names.now heads.now row.now) }
{
    let mut members = Members::new(alloc);
    for (place, cell) in row.iter().enumerate() {
        if let Some(head) = heads.get(place) {
            members.put(head.key(), cell_value(alloc, names, cell));
        }
    }
    members.finished()
}

// Adds the rows of a sheet.
fn push_rows(alloc: Global, rows: &mut Filled<Value>, names: &Names, sheet: &Sheet)
    ensures { Adds rows.old rows.new (sheet_rows names.now sheet.now) }
{
    let heads = sheet.heads.as_slice();
    for row in &sheet.rows {
        rows.push(row_value(alloc, names, heads, row.as_slice()));
    }
}

// The rows of all sheets of a key.
fn rows_of(alloc: Global, names: &Names, sheets: &[Sheet], key: &str) -> Result<Value, NoMemory>
    ensures { IfOk result (λ v. view v ≡ table_value names.now sheets.now key.now) }
{
    let mut rows = Filled::new(alloc);
    for sheet in sheets {
        if sheet.key == key {
            push_rows(alloc, &mut rows, names, sheet);
        }
    }
    array_value(rows)
}

// The tables, by their keys.
fn tables(alloc: Global, names: &Names, sheets: &[Sheet]) -> Result<Value, NoMemory>
    ensures { IfOk result (λ v. view v ≡ tables_value names.now sheets.now) }
{
    let mut tables = Members::new(alloc);
    for sheet in sheets {
        if !tables.has(sheet.key) {
            tables.put(sheet.key, rows_of(alloc, names, sheets, sheet.key));
        }
    }
    tables.finished()
}

// The text of a value, as a line.
fn line_of(alloc: Global, value: &Value) -> Result<String, NoMemory>
    ensures { IfOk result (λ t. depth (view value.now) ≤ max_depth → IsLineOf (view value.now) (string_bytes t)) }
{
    let mut text = value.to_string(alloc)?;
    text.push('\n')?;
    Ok(text)
}

/// Sheets by these names as the JSON of a command that ends with a status, and with the line of a refusal or of a legal fault, without its end, if it has one
/// (docs/report.schema.json).
pub fn json_text(
    alloc: Global,
    heading: &Heading<'_>,
    status: u8,
    line: Option<&str>,
    names: &Names,
    sheets: &[Sheet],
) -> Result<String, NoMemory>
    ensures { IfOk result (λ t.
        IsJsonText heading.now status (option_map (λ l. l.now) line.entry) names.now sheets.now (string_bytes t)) }
{
    let mut members = Members::new(alloc);
    put_heading(alloc, &mut members, heading, status, line);
    members.put("tables", tables(alloc, names, sheets));
    line_of(alloc, &members.finished()?)
}
