//! What JSON says in addition to its tables: the versions, the command and how it ended, its inputs, and why there is no table.

ghost use Rattle.std.specs.Prelude.{◌≡◌, IfOk, map, option_map};
ghost use Rattle.serde_json.specs.Data.{Data, string};
ghost use Rattle.serde_json.specs.View.{view};
ghost use Rattle.sl_report_forms.specs.JsonForm as spec;
ghost use Rattle.sl_report_forms.specs.JsonForm.{Explains, MaybeExplains, NestsWithin, Puts, array_of, heading_members, hex};

use crate::draft::Draft;
use crate::heading::{DigestedInput, Heading, Told};
use crate::json_values::{Members, array_value, bytes_value};
use serde_json::Value;
use sl_base_quotients::NoMemory;
use sl_explain_texts::{FaultCode, Filled, Span, VERSION, line_at};
use std::alloc::Global;

/// The version of the JSON, as docs/report.schema.json has it.
const SCHEMA: usize = 2;

static DIGITS: &[u8; 16] = b"0123456789abcdef";

// Some bytes in hexadecimal digits.
fn digits_value(alloc: Global, bytes: &[u8]) -> Result<Value, NoMemory>
    ensures { IfOk result (λ v. view v ≡ string (hex bytes.now)) }
{
    let mut digits = Draft::new(alloc);
    for byte in bytes {
        digits.push(char::from(DIGITS[usize::from(*byte >> 4)]));
        digits.push(char::from(DIGITS[usize::from(*byte & 15)]));
    }
    Ok(Value::String(digits.finished()?))
}

fn input_value(alloc: Global, input: &DigestedInput) -> Result<Value, NoMemory>
    ensures { IfOk result (λ v. view v ≡ spec.input_value input.now) }
{
    let mut members = Members::new(alloc);
    members.put_text("input", Some(input.input));
    if let Some(word) = &input.word {
        members.put_text("word", Some(word.as_str()));
    }
    members.put("sha256", digits_value(alloc, &input.digest));
    members.finished()
}

fn inputs_value(alloc: Global, inputs: &[DigestedInput]) -> Result<Value, NoMemory>
    ensures { IfOk result (λ v. view v ≡ array_of (map spec.input_value inputs.now)) }
{
    let mut values = Filled::new(alloc);
    for input in inputs {
        values.push(input_value(alloc, input));
    }
    array_value(values)
}

// A place in an input: its line and its column, both from 1, and the offsets of its bytes.
fn place_value(alloc: Global, bytes: &[u8], span: Span) -> Result<Value, NoMemory>
    ensures { IfOk result (NestsWithin 1) }
{
    let line = line_at(bytes, span.start);
    let mut members = Members::new(alloc);
    members.put_number("line", line.number);
    members.put_number("column", line.column);
    members.put_number("start", span.start);
    members.put_number("end", span.end);
    members.finished()
}

fn maybe_place(alloc: Global, told: Told<'_>) -> Result<Value, NoMemory>
    ensures { IfOk result (NestsWithin 1) }
{
    match told.explanation.span() {
        Some(span) => place_value(alloc, told.bytes, span),
        None => Ok(Value::Null),
    }
}

// Texts, in their order.
#[tactic(auto, using(crate::proofs::JsonDepths::made_within))]
fn texts_value(alloc: Global, texts: &[Vec<u8>]) -> Result<Value, NoMemory>
    ensures { IfOk result (NestsWithin 1) }
{
    let mut values = Filled::new(alloc);
    for text in texts {
        values.push(bytes_value(alloc, text.as_slice()));
    }
    array_value(values)
}

fn told_value(alloc: Global, told: Told<'_>) -> Result<Value, NoMemory>
    ensures { IfOk result (λ v. Explains told.entry (view v)) }
{
    let explanation = told.explanation;
    let mut members = Members::new(alloc);
    members.put_text("code", explanation.code().map(FaultCode::word));
    members.put_text("input", Some(told.input));
    members.put("sentence", bytes_value(alloc, explanation.sentence()));
    members.put("place", maybe_place(alloc, told));
    members.put("help", texts_value(alloc, explanation.remedies()));
    members.put("records", texts_value(alloc, explanation.records()));
    members.put("more", texts_value(alloc, explanation.lines()));
    members.finished()
}

fn maybe_told(alloc: Global, told: Option<Told<'_>>) -> Result<Value, NoMemory>
    ensures { IfOk result (λ v. MaybeExplains told.entry (view v)) }
{
    match told {
        Some(told) => told_value(alloc, told),
        None => Ok(Value::Null),
    }
}

/// Adds the versions of the JSON and of the program, the command with its status and its line, its inputs, and why there is no table.
pub(crate) fn put_heading(
    alloc: Global,
    members: &mut Members,
    heading: &Heading<'_>,
    status: u8,
    line: Option<&str>,
)
    ensures { (why : Data) × MaybeExplains heading.now.told why
        × Puts members.old members.new (heading_members heading.now status (option_map (λ l. l.now) line.entry) why) }
{
    members.put_number("schema", SCHEMA);
    members.put_text("program", Some(VERSION));
    members.put_text("command", Some(heading.command));
    members.put_number("status", usize::from(status));
    members.put_text("fault", line);
    members.put("inputs", inputs_value(alloc, heading.inputs));
    members.put("explanation", maybe_told(alloc, heading.told));
}
