//! The lines of the bounds of a table's scopes.

ghost use Rattle.std.specs.Prelude.{◌≡◌, ◌∷◌, [], false, All, OnOk, codes, length, map, if◌then◌else◌};
ghost use Rattle.sl_code_semantics.specs.Fits.{FitsWeight, HasScope};
ghost use Rattle.sl_count_texts.specs.Bounds.{bounds_line, IsBoundsLines};
ghost use Rattle.sl_count_texts.specs.Lines.{with_lines, with_words};
ghost use Rattle.sl_count_texts.specs.inner.Counts.{HasLines};

use crate::bounds::{ScopeBounds, bounds_in_order};
use crate::fault_form::{scope_words, stage_word};
use crate::line::Text;
use sl_base_quotients::NoMemory;
use sl_code_instructions::Code;
use sl_stages::{Returns, Table};
use std::alloc::Global;

// Appends the lines of the bounds of a table's scopes, by stage and scope, to a text whose last line is ended.
pub(crate) fn bounds_lines(
    alloc: Global,
    text: &mut Text,
    table: &Table,
    returns: &Returns,
    code: &Code,
) -> Result<(), NoMemory>
    requires begun { text.old.begun ≡ false }
    requires fits { All (FitsWeight (length code.now.stages) returns.now) table.now.weights }
    ensures { OnOk result (HasLines text.old (IsBoundsLines (map (λ s. s.name) code.now.stages) table.now returns.now) text.new) }
{
    let found = bounds_in_order(alloc, table)?;
    for bounds in &found {
        bounds_line(text, bounds, returns, code)?;
    }
    Ok(())
}

// Adds the word of a lot to the line, if there was one.
fn lot_word(text: &mut Text, is_lot: bool) -> Result<(), NoMemory>
    ensures { OnOk result (text.new ≡ with_words text.old (if is_lot then codes "lot" ∷ [] else [])) }
{
    if is_lot {
        text.word(b"lot")?;
    }
    Ok(())
}

// Appends the line of a scope's bounds to a text whose last line is ended.
fn bounds_line(
    text: &mut Text,
    bounds: &ScopeBounds,
    returns: &Returns,
    code: &Code,
) -> Result<(), NoMemory>
    requires begun { text.old.begun ≡ false }
    requires fits { HasScope returns.now bounds.now.scope }
    ensures { OnOk result (text.new ≡ with_lines text.old (bounds_line (map (λ s. s.name) code.now.stages) returns.now bounds.now)) }
{
    text.word(b"bounds")?;
    stage_word(text, bounds.stage, code)?;
    scope_words(text, bounds.scope, returns)?;
    text.ratio(bounds.last)?;
    text.ratio(bounds.next)?;
    lot_word(text, bounds.is_lot())?;
    text.end_line()
}
