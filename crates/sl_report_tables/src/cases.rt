//! The full names and the earlier seat table of an answer, or the answer that refuses one of them.

ghost use Rattle.std.specs.Prelude.{◌≡◌, IfErr, IfOk, is_err, option_map};
ghost use Rattle.sl_report_tables.specs.Answers.{IsRefusal};
ghost use Rattle.sl_report_tables.specs.Earlier.{IsEarlier, IsEarlierIn, is_no_table, is_refused_in};
ghost use Rattle.sl_report_tables.specs.Names.{are_refused, are_refused_in};

use crate::answer::Answer;
use crate::earlier::earlier_parties;
use crate::full_names::FullNames;
use sl_base_quotients::NoMemory;
use sl_count_inputs::Bytes;
use sl_report_parties::EarlierParty;
use std::alloc::Global;

/// Bytes of a file of names.
pub const MAX_NAMES_BYTES: usize = 4_194_304;

/// Bytes of an earlier seat table.
pub const MAX_BEFORE_BYTES: usize = 4_194_304;

/// The full names of a text, or the answer that refuses them. Where no text is given there are none.
pub fn names_of(alloc: Global, names: Option<&[u8]>) -> Result<Result<FullNames, Answer>, NoMemory>
    ensures which { IfOk result (λ full. is_err full ≡ are_refused (option_map (λ text. text.now) names.entry)) }
    ensures refused { IfOk result (λ full. IfErr full IsRefusal) }
{
    let Some(bytes) = names else {
        return Ok(Ok(FullNames::none(alloc)));
    };
    if bytes.len() > MAX_NAMES_BYTES {
        return Ok(Err(Answer::names_too_long(alloc)?));
    }
    match FullNames::read(alloc, bytes)? {
        Ok(names) => Ok(Ok(names)),
        Err(row) => Ok(Err(Answer::refused_names(alloc, row)?)),
    }
}

/// The full names of a text that was read, as `names_of` has them.
pub fn names_in(alloc: Global, read: &Option<Bytes>) -> Result<Result<FullNames, Answer>, NoMemory>
    ensures which { IfOk result (λ full. is_err full ≡ are_refused_in read.now) }
    ensures refused { IfOk result (λ full. IfErr full IsRefusal) }
{
    match read {
        None => Ok(Ok(FullNames::none(alloc))),
        Some(Bytes::Whole(text)) => names_of(alloc, Some(text.as_slice())),
        Some(Bytes::TooLong) => Ok(Err(Answer::names_too_long(alloc)?)),
    }
}

// The parties of a text that is an earlier seat table, or the answer that refuses it.
fn earlier_of<'a>(
    alloc: Global,
    text: &'a [u8],
) -> Result<Result<Vec<EarlierParty<'a>>, Answer>, NoMemory>
    ensures which { IfOk result (λ r. is_err r ≡ is_no_table text.now) }
    ensures told { IfOk result (λ r. IfOk r (λ found. IsEarlier text.now found.items)) }
    ensures refused { IfOk result (λ r. IfErr r IsRefusal) }
{
    let Ok(text) = std::str::from_utf8(text) else {
        return Ok(Err(Answer::refused_before(alloc, 1)?));
    };
    match earlier_parties(alloc, text)? {
        Ok(found) => Ok(Ok(found)),
        Err(line) => Ok(Err(Answer::refused_before(alloc, line)?)),
    }
}

/// The parties of an earlier seat table that was read, if one was, or the answer that refuses it.
pub fn earlier_in<'a>(
    alloc: Global,
    read: &'a Option<Bytes>,
) -> Result<Result<Option<Vec<EarlierParty<'a>>>, Answer>, NoMemory>
    ensures which { IfOk result (λ r. is_err r ≡ is_refused_in read.now) }
    ensures told { IfOk result (λ r. IfOk r (λ found. IsEarlierIn read.now found)) }
    ensures refused { IfOk result (λ r. IfErr r IsRefusal) }
{
    match read {
        None => Ok(Ok(None)),
        Some(Bytes::TooLong) => Ok(Err(Answer::before_too_long(alloc)?)),
        Some(Bytes::Whole(text)) => match earlier_of(alloc, text.as_slice())? {
            Ok(found) => Ok(Ok(Some(found))),
            Err(refusal) => Ok(Err(refusal)),
        },
    }
}
