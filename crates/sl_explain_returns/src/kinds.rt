//! Records of no kind.

ghost use Rattle.std.specs.Prelude.{◌≡◌, IfOk, IfSome, Some};
ghost use Rattle.sl_explain_returns.specs.Places.{Explains};
ghost use Rattle.sl_explain_texts.specs.Messages.{IsFilledBy};
ghost use Rattle.sl_explain_texts.specs.declared.code.FaultCode.TheVariants.{R03, R11};

use crate::case::Case;
use crate::texts::fields::DELETE;
use crate::texts::kinds as texts;
use sl_base_quotients::NoMemory;
use sl_explain_texts::{Explainer, FaultCode, Message, nearest};
use sl_returns::{COLUMNS, KIND, Kind};

// Other words for the kinds, in small letters, and the kinds that they mean.
const WORDS: [(&[u8], &[u8]); 18] = [
    (b"haus", b"house"),
    (b"sitze", b"house"),
    (b"seats", b"house"),
    (b"bundesland", b"land"),
    (b"state", b"land"),
    (b"partei", b"party"),
    (b"parteien", b"party"),
    (b"parties", b"party"),
    (b"liste", b"list"),
    (b"listen", b"list"),
    (b"landesliste", b"list"),
    (b"sieger", b"win"),
    (b"wahlkreis", b"win"),
    (b"winner", b"win"),
    (b"winners", b"win"),
    (b"constituency", b"win"),
    (b"los", b"lot"),
    (b"lose", b"lot"),
];

// The kind that another word means.
fn meant_by(cell: &[u8]) -> Option<&'static [u8]> {
    let meant = WORDS.iter().find(|row| cell.eq_ignore_ascii_case(row.0))?;
    Some(meant.1)
}

// The kind that a word means, or to which it is near.
fn likely_kind(case: &Case<'_>, cell: &[u8]) -> Result<Option<&'static [u8]>, NoMemory> {
    match meant_by(cell) {
        Some(kind) => Ok(Some(kind)),
        None => nearest(case.speaker.alloc, cell, &Kind::ALL.map(Kind::word)),
    }
}

// What is said of the first cell, and what to do where no kind is meant.
fn messages(case: &Case<'_>) -> (&'static Message, Option<&'static Message>)
    ensures { IsFilledBy result.0.now 1 × IfSome result.1 (λ x. IsFilledBy x.now 0) }
{
    let cell = case.text(KIND);
    if (0..COLUMNS).all(|column| case.text(column).is_empty()) {
        (&texts::EMPTY_ROW, Some(&texts::DELETE_ROWS))
    } else if cell.is_empty() {
        (&texts::NO_KIND, None)
    } else if cell == b"kind".as_slice() || cell == b"kind2".as_slice() {
        (&texts::AGAIN, Some(&DELETE))
    } else if cell.starts_with(b"\xEF\xBB\xBFkind") {
        (&texts::AGAIN, Some(&texts::JOINED))
    } else if cell.starts_with(b"#") {
        (&texts::KIND_COMMENT, Some(&DELETE))
    } else if cell.starts_with(b"kind") {
        (&texts::OTHER_KIND, Some(&DELETE))
    } else {
        (&texts::OTHER_KIND, None)
    }
}

/// The explanation of a record whose first cell is no kind.
pub(crate) fn explain_kind(case: &Case<'_>) -> Result<Explainer, NoMemory>
    ensures { IfOk result (Explains case.now (Some R03)) }
{
    let cell = case.text(KIND);
    let (sentence, remedy) = messages(case);
    let mut explainer = case.says(FaultCode::R03, sentence, &[cell], case.at(KIND));
    if let Some(remedy) = remedy {
        explainer.helps(remedy, &[]);
    } else if let Some(word) = likely_kind(case, cell.trim_ascii())? {
        explainer.helps(&texts::NEAREST_KIND, &[word]);
    } else {
        explainer.helps(&texts::KINDS, &[]);
    }
    Ok(explainer)
}

/// The explanation of returns without a Land, at their last record.
pub(crate) fn explain_no_land(case: &Case<'_>) -> Explainer
    ensures { Explains case.now (Some R11) result }
{
    case.says(FaultCode::R11, &texts::NO_LAND_RECORD, &[], case.whole())
        .helped(&texts::ADD_LAND, &[])
}
