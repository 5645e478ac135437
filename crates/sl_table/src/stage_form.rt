//! The text of a stage's column: a line for each entry, in order.

ghost use Rattle.std.specs.Prelude.{◌≡◌, ◌<◌, ◌*◌, false, IfOk, OnOk, length, flat_map};
ghost use Rattle.sl_law_meaning.specs.returns.Election.{lands_of, parties_of};
ghost use Rattle.sl_law_meaning.specs.returns.Facts.{lands, parties};
ghost use Rattle.sl_code_semantics.specs.Fits.{FitsMemory};
ghost use Rattle.sl_code_semantics.specs.Places.{cells_of};
ghost use Rattle.sl_count_texts.specs.Faults.{list_word};
ghost use Rattle.sl_count_texts.specs.Lines.{with_lines};
ghost use Rattle.sl_table.specs.HeldStages.{stage_slot, held_stage_text};
ghost use Rattle.sl_table.specs.Stages.{entry_line, party_entry, land_entry, land_lists, stage_text};

use sl_base_quotients::NoMemory;
use sl_code_instructions::Code;
use sl_code_steps::Memory;
use sl_count_texts::Text;
use sl_stages::{Returns, Shape};
use std::alloc::Global;

/// The text of a stage's column, in what a run holds that fits the code and the returns (docs/output.md, section 1).
pub fn stage_text(
    alloc: Global,
    memory: &Memory,
    returns: &Returns,
    code: &Code,
    stage: usize,
) -> Result<Vec<u8>, NoMemory>
    requires fits { FitsMemory code.now returns.now memory.now }
    requires stage { stage < length code.now.stages }
    requires slot { stage_slot code.now stage < length code.now.slots }
    ensures { IfOk result (λ text. text.items ≡ held_stage_text code.now returns.now memory.now stage) }
{
    let slot = usize::from(code.stages()[stage].slot);
    column_text(alloc, code.slots()[slot], memory.column(slot), returns)
}

/// The text of a column of that shape (docs/output.md, section 1).
pub fn column_text(
    alloc: Global,
    shape: Shape,
    column: &[u64],
    returns: &Returns,
) -> Result<Vec<u8>, NoMemory>
    requires { length column.now ≡ cells_of returns.now shape }
    ensures { IfOk result (λ text. text.items ≡ stage_text returns.now shape column.now) }
{
    let mut text = Text::new(alloc);
    entry_lines(&mut text, shape, column, returns)?;
    Ok(text.into_bytes())
}

// The lines of a column of that shape.
fn entry_lines(
    text: &mut Text,
    shape: Shape,
    column: &[u64],
    returns: &Returns,
) -> Result<(), NoMemory>
    requires begun { text.old.begun ≡ false }
    requires cells { length column.now ≡ cells_of returns.now shape }
    ensures { OnOk result (text.new ≡ with_lines text.old (stage_text returns.now shape column.now)) }
{
    match shape {
        Shape::One => entry_line(text, b"all", column[0]),
        Shape::Party => party_lines(text, column, returns),
        Shape::Land => land_lines(text, column, returns),
        Shape::List => list_lines(text, column, returns),
    }
}

// ---- lines, each appended to a text whose last line is ended

// The line of an entry.
fn entry_line(text: &mut Text, entry: &[u8], value: u64) -> Result<(), NoMemory>
    requires { text.old.begun ≡ false }
    ensures { OnOk result (text.new ≡ with_lines text.old (entry_line entry.now value)) }
{
    text.word(entry)?;
    text.number(value)?;
    text.end_line()
}

// The line of a list.
fn list_line(
    text: &mut Text,
    returns: &Returns,
    land: usize,
    party: usize,
    value: u64,
) -> Result<(), NoMemory>
    requires begun { text.old.begun ≡ false }
    requires land { land < lands_of returns.now }
    requires party { party < parties_of returns.now }
    ensures { OnOk result (text.new ≡ with_lines text.old (entry_line (list_word returns.now land party) value)) }
{
    text.pair(returns.land_name(land), returns.party_name(party))?;
    text.number(value)?;
    text.end_line()
}

fn party_lines(text: &mut Text, column: &[u64], returns: &Returns) -> Result<(), NoMemory>
    requires begun { text.old.begun ≡ false }
    requires cells { length column.now ≡ parties_of returns.now }
    ensures { OnOk result (text.new ≡ with_lines text.old (flat_map (party_entry returns.now column.now) (parties returns.now))) }
{
    for (party, value) in column.iter().enumerate() {
        entry_line(text, returns.party_name(party), *value)?;
    }
    Ok(())
}

fn land_lines(text: &mut Text, column: &[u64], returns: &Returns) -> Result<(), NoMemory>
    requires begun { text.old.begun ≡ false }
    requires cells { length column.now ≡ lands_of returns.now }
    ensures { OnOk result (text.new ≡ with_lines text.old (flat_map (land_entry returns.now column.now) (lands returns.now))) }
{
    for (land, value) in column.iter().enumerate() {
        entry_line(text, returns.land_name(land), *value)?;
    }
    Ok(())
}

// The lines of a Land's lists.
fn land_lists(
    text: &mut Text,
    column: &[u64],
    returns: &Returns,
    land: usize,
) -> Result<(), NoMemory>
    requires begun { text.old.begun ≡ false }
    requires cells { length column.now ≡ lands_of returns.now * parties_of returns.now }
    requires land { land < lands_of returns.now }
    ensures { OnOk result (text.new ≡ with_lines text.old (land_lists returns.now column.now land)) }
{
    let parties = returns.parties();
    for party in 0..parties {
        if returns.is_list(land, party) {
            list_line(text, returns, land, party, column[land * parties + party])?;
        }
    }
    Ok(())
}

fn list_lines(text: &mut Text, column: &[u64], returns: &Returns) -> Result<(), NoMemory>
    requires begun { text.old.begun ≡ false }
    requires cells { length column.now ≡ lands_of returns.now * parties_of returns.now }
    ensures { OnOk result (text.new ≡ with_lines text.old (flat_map (land_lists returns.now column.now) (lands returns.now))) }
{
    for land in 0..returns.lands() {
        land_lists(text, column, returns, land)?;
    }
    Ok(())
}
