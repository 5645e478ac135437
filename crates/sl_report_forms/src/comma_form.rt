//! Sheets as comma-separated values. Each line begins with the key of its sheet, and the first line of a key has those of the columns.

ghost use Rattle.std.specs.Prelude.{◌≡◌, [], ◌∷◌, IfOk, OnOk};
ghost use Rattle.std.specs.List.{list_any};
ghost use Rattle.csv.specs.Records.{fields_of};
ghost use Rattle.sl_report_forms.specs.CommaForm as spec;

use crate::cell::{Cell, Reader};
use crate::names::Names;
use crate::sheet::Sheet;
use csv::{ByteRecord, Writer, WriterBuilder};
use sl_base_quotients::NoMemory;
use std::alloc::Global;

fn put_fields(out: &mut Writer<Vec<u8>>, fields: &ByteRecord) -> Result<(), NoMemory>
    ensures { OnOk result (spec.AddsRecords out.old out.new (fields_of fields.now ∷ [])) }
{
    if out.write_byte_record(fields).is_err() {
        return Err(NoMemory);
    }
    Ok(())
}

fn put_heads(alloc: Global, out: &mut Writer<Vec<u8>>, sheet: &Sheet) -> Result<(), NoMemory>
    ensures { OnOk result (spec.AddsRecords out.old out.new (spec.heads_record sheet.now ∷ [])) }
{
    let mut fields = ByteRecord::new(alloc);
    fields.push_field(sheet.key.as_bytes())?;
    for head in &sheet.heads {
        fields.push_field(head.key().as_bytes())?;
    }
    put_fields(out, &fields)
}

fn put_row(
    alloc: Global,
    out: &mut Writer<Vec<u8>>,
    names: &Names,
    key: &str,
    row: &[Cell],
) -> Result<(), NoMemory>
    ensures { OnOk result (spec.AddsRecords out.old out.new (spec.row_record names.now key.now row.now ∷ [])) }
{
    let mut fields = ByteRecord::new(alloc);
    fields.push_field(key.as_bytes())?;
    for cell in row {
        let text = cell.text(alloc, names, Reader::Program)?;
        fields.push_field(text.as_bytes())?;
    }
    put_fields(out, &fields)
}

fn put_rows(
    alloc: Global,
    out: &mut Writer<Vec<u8>>,
    names: &Names,
    sheet: &Sheet,
) -> Result<(), NoMemory>
    ensures { OnOk result (spec.AddsRecords out.old out.new (spec.rows_records names.now sheet.now)) }
{
    for row in &sheet.rows {
        put_row(alloc, out, names, sheet.key, row.as_slice())?;
    }
    Ok(())
}

// Whether one of the sheets has that key.
fn has_key(sheets: &[Sheet], key: &str) -> bool
    ensures { result ≡ list_any (spec.has_key key.now) sheets.now }
{
    sheets.iter().any(|sheet| sheet.key == key)
}

// Adds a sheet that stands after these ones, with its heads where it is the first one of its key.
fn put_sheet(
    alloc: Global,
    out: &mut Writer<Vec<u8>>,
    names: &Names,
    before: &[Sheet],
    sheet: &Sheet,
) -> Result<(), NoMemory>
    ensures { OnOk result (spec.AddsRecords out.old out.new (spec.sheet_records names.now before.now sheet.now)) }
{
    if !has_key(before, sheet.key) {
        put_heads(alloc, out, sheet)?;
    }
    put_rows(alloc, out, names, sheet)
}

fn put_sheets(
    alloc: Global,
    out: &mut Writer<Vec<u8>>,
    names: &Names,
    sheets: &[Sheet],
) -> Result<(), NoMemory>
    ensures { OnOk result (spec.AddsRecords out.old out.new (spec.comma_records names.now sheets.now)) }
{
    for (number, sheet) in sheets.iter().enumerate() {
        put_sheet(alloc, out, names, &sheets[..number], sheet)?;
    }
    Ok(())
}

/// Sheets as comma-separated values by these names, in which `csv` reads the same records again.
pub fn comma_text(alloc: Global, names: &Names, sheets: &[Sheet]) -> Result<Vec<u8>, NoMemory>
    ensures { IfOk result (λ t. spec.IsCommaText names.now sheets.now t.items) }
{
    let mut out = WriterBuilder::new()
        .flexible(true)
        .from_writer(Vec::new(alloc));
    put_sheets(alloc, &mut out, names, sheets)?;
    match out.into_inner() {
        Ok(text) => Ok(text),
        Err(_) => Err(NoMemory),
    }
}
