//! Cells that are no names.

ghost use Rattle.std.specs.Prelude.{◌≡◌, IfOk, Some};
ghost use Rattle.sl_explain_returns.specs.Places.{Explains};
ghost use Rattle.sl_explain_texts.specs.declared.code.FaultCode.TheVariants.{R04};
ghost use Rattle.sl_explain_texts.specs.Messages.{IsFilledBy};

use crate::case::Case;
use crate::letters::{lookalike, name_for, wrong_character};
use crate::texts::names as texts;
use sl_base_quotients::{MAX_NAME_BYTES, NoMemory};
use sl_explain_texts::{Explainer, FaultCode, Message, Speaker};
use sl_returns::{Content, Named};
use std::alloc::Global;

// What a name names, in words: a stage where it names nothing of the returns.
fn naming(named: Option<Named>) -> &'static Message
    ensures { IsFilledBy result.now 0 }
{
    match named {
        Some(Named::Land) => &texts::OF_LAND,
        Some(Named::Party) => &texts::OF_PARTY,
        Some(Named::Constituency) => &texts::OF_WIN,
        None => &texts::OF_STAGE,
    }
}

// The column at fault and what its name names, nothing for a stage, where the cell at fault holds a name.
fn name_at(case: &Case<'_>) -> Option<(usize, Option<Named>)> {
    let (column, content) = case.cell_at_fault()?;
    match content {
        Content::NewName(named) | Content::KnownName(named) | Content::KnownNameOrNone(named) => {
            Some((column, Some(named)))
        }
        Content::StageName => Some((column, None)),
        Content::Kind | Content::Blank | Content::Number(_) | Content::NumberOrNone(_) => None,
    }
}

// The number of a character of several bytes, as Unicode writes it.
fn number_of(alloc: Global, character: &[u8]) -> Result<Vec<u8>, NoMemory> {
    let text = std::str::from_utf8(character).unwrap_or("");
    let code = text.chars().next().map_or(0, |character| character as u32);
    Ok(format!(in alloc; "U+{code:04X}")?.into_bytes())
}

// What is wrong with a character that a name may not have, with a value.
fn character_message(alloc: Global, wrong: &[u8]) -> Result<(&'static Message, Vec<u8>), NoMemory>
    ensures { IfOk result (λ x. IsFilledBy x.0.now 5) }
{
    match wrong {
        [b' '] => Ok((&texts::BLANK, Vec::new(alloc))),
        [byte] if byte.is_ascii_control() => {
            let number = format!(in alloc; "0x{byte:02x}")?;
            Ok((&texts::CONTROL, number.into_bytes()))
        }
        [_] | [0xC3, _] => Ok((&texts::CHARACTER, Vec::from_slice(alloc, wrong)?)),
        _ if lookalike(wrong).is_empty() => Ok((&texts::WIDE_CHARACTER, number_of(alloc, wrong)?)),
        _ => Ok((&texts::LOOKALIKE, number_of(alloc, wrong)?)),
    }
}

// What is wrong with a cell, with a value.
fn spelling_message(speaker: Speaker, cell: &[u8]) -> Result<(&'static Message, Vec<u8>), NoMemory>
    ensures { IfOk result (λ x. IsFilledBy x.0.now 5) }
{
    if cell.is_empty() {
        return Ok((&texts::EMPTY_CELL, Vec::new(speaker.alloc)));
    }
    if cell.len() > MAX_NAME_BYTES {
        return Ok((&texts::LONG_NAME, speaker.number(cell.len())?));
    }
    if std::str::from_utf8(cell).is_err() {
        return Ok((&texts::LATIN, Vec::new(speaker.alloc)));
    }
    character_message(speaker.alloc, wrong_character(cell))
}

/// The explanation of a cell that is no name, with a name that may be meant, or what a stage's is.
pub(crate) fn explain_name(case: &Case<'_>) -> Result<Explainer, NoMemory>
    ensures { IfOk result (Explains case.now (Some R04)) }
{
    let Some((column, named)) = name_at(case) else {
        return case.explains_row(FaultCode::R04);
    };
    let cell = case.text(column);
    let words = case.speaker.word(naming(named));
    let (message, value) = spelling_message(case.speaker, cell)?;
    let more = (value.as_slice(), lookalike(wrong_character(cell)));
    let mut explainer = (&*case).says_of_cell(FaultCode::R04, message, column, words, more);
    if cell.is_empty() {
        return Ok(explainer.helped(&texts::FILL, &[]));
    }
    if named.is_none() {
        explainer.helps(&texts::STAGE, &[]);
    } else if let Some(name) = name_for(case.speaker.alloc, cell)? {
        explainer.helps(&texts::RENAME, &[name.as_slice()]);
    }
    Ok(explainer.helped(&texts::SPELL, &[]))
}
