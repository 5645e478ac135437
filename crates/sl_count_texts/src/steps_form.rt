//! The steps text of a seat table: a line for each seat step, in order, the bounds of the scopes, and the short text.

ghost use Rattle.std.specs.Prelude.{◌≡◌, false, All, IfOk, OnOk, flat_map, length, map};
ghost use Rattle.sl_code_semantics.specs.Fits.{FitsRecords, FitsStep};
ghost use Rattle.sl_count_texts.specs.inner.Fits.{Fits};
ghost use Rattle.sl_count_texts.specs.Lines.{with_lines, with_words};
ghost use Rattle.sl_count_texts.specs.Steps.{mark_words, step_line, IsStepsText};

use crate::bounds_form::bounds_lines;
use crate::fault_form::{item_word, scope_words, stage_word};
use crate::line::Text;
use crate::orders::steps_in_order;
use crate::short_form::short_lines;
use sl_base_quotients::NoMemory;
use sl_code_instructions::Code;
use sl_stages::{Mark, Returns, SeatStep, Table};
use std::alloc::Global;

/// The text of the seat steps of a table, with the bounds of its scopes, and its short text (docs/output.md, section 1). The table fits the
/// returns, and its records fit the code and the returns.
pub fn steps_text(
    alloc: Global,
    table: &Table,
    returns: &Returns,
    code: &Code,
) -> Result<Vec<u8>, NoMemory>
    requires fits { Fits table.now returns.now }
    requires records { FitsRecords (length code.now.stages) returns.now table.now.steps table.now.weights }
    ensures { IfOk result (λ text. IsStepsText (map (λ s. s.name) code.now.stages) table.now returns.now text.items) }
{
    let steps = steps_in_order(alloc, table)?;
    let mut text = Text::new(alloc);
    step_lines(&mut text, &steps, returns, code)?;
    bounds_lines(alloc, &mut text, table, returns, code)?;
    short_lines(&mut text, table, returns)?;
    Ok(text.into_bytes())
}

// ---- words, each added to the last line of a text

/// Adds the words of what won a seat.
pub fn mark_words(text: &mut Text, mark: Mark) -> Result<(), NoMemory>
    ensures { OnOk result (text.new ≡ with_words text.old (mark_words mark)) }
{
    match mark {
        Mark::Given => text.word(b"-"),
        Mark::Quotient(ratio) => text.ratio(ratio),
        Mark::Rest(rest) => {
            text.word(b"rest")?;
            text.number(rest)
        }
        Mark::Lead => text.word(b"lead"),
    }
}

// ---- lines, each appended to a text whose last line is ended

fn step_line(
    text: &mut Text,
    step: &SeatStep,
    returns: &Returns,
    code: &Code,
) -> Result<(), NoMemory>
    requires begun { text.old.begun ≡ false }
    requires fits { FitsStep (length code.now.stages) returns.now step.now }
    ensures { OnOk result (text.new ≡ with_lines text.old (step_line (map (λ s. s.name) code.now.stages) returns.now step.now)) }
{
    text.word(b"seat")?;
    stage_word(text, step.stage, code)?;
    scope_words(text, step.scope, returns)?;
    item_word(text, step.entry, returns)?;
    text.number(step.n)?;
    text.number(step.step)?;
    mark_words(text, step.mark)?;
    text.end_line()
}

// The lines of steps.
fn step_lines(
    text: &mut Text,
    steps: &[&SeatStep],
    returns: &Returns,
    code: &Code,
) -> Result<(), NoMemory>
    requires begun { text.old.begun ≡ false }
    requires fits { All (FitsStep (length code.now.stages) returns.now) (map (λ s. s.now) steps.now) }
    ensures { OnOk result (text.new ≡ with_lines text.old (flat_map (step_line (map (λ s. s.name) code.now.stages) returns.now) (map (λ s. s.now) steps.now))) }
{
    for step in steps {
        step_line(text, *step, returns, code)?;
    }
    Ok(())
}
