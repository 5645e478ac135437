//! Numbers that are out of their range: the version, the house, a threshold, the cap of a growth.

ghost use Rattle.std.specs.Prelude.{◌≡◌, IfOk, Some};
ghost use Rattle.sl_explain_texts.specs.Messages.{IsFilledBy, IsSaidBy};
ghost use Rattle.sl_explain_texts.specs.declared.code.FaultCode.TheVariants.{B11, B13};

use super::Written;
use crate::texts::tests as texts;
use sl_base_quotients::NoMemory;
use sl_explain_texts::{Explainer, Message, Sentence};
use sl_law_meaning::{Cond, MAX_PER, MAX_SEATS};

// What is said of a version that is another, or of the word after it.
fn version_texts(is_other: bool) -> (&'static Sentence, &'static Message)
    ensures sentence { IsSaidBy result.0.now 1 × (result.0.now.0 ≡ B11) }
    ensures remedy { IsFilledBy result.1.now 0 }
{
    if is_other {
        (&texts::NO_VERSION, &texts::VERSIONS)
    } else {
        (&texts::VACATE, &texts::VACATE_REMEDY)
    }
}

/// A version that does not exist, or `vacate` in the first one.
pub fn explain_version(written: &Written<'_>, at: usize) -> Explainer
    ensures { result.code ≡ Some B11 }
{
    let place = written.book.version.at;
    let (sentence, remedy) = version_texts(at == place);
    let explainer = written.says(sentence, &[written.token(place)], at);
    explainer.helped(remedy, &[])
}

/// A number of seats that is out of its range, with the remedy.
pub fn explain_seat_number(
    written: &Written<'_>,
    at: usize,
    sentence: &Sentence,
    remedy: &Message,
) -> Result<Explainer, NoMemory>
    requires sentence { IsSaidBy sentence.now 2 }
    requires remedy { IsFilledBy remedy.now 0 }
    ensures { IfOk result (λ x. x.code ≡ Some sentence.now.0) }
{
    let most = written.speaker.number(MAX_SEATS as usize)?;
    let explainer = written.says(sentence, &[most.as_slice(), written.token(at)], at);
    Ok(explainer.helped(remedy, &[]))
}

// The share at an offset, and its parts.
fn share_at(conditions: &[Cond], at: usize) -> (u32, u32) {
    let found = conditions.iter().find_map(|condition| match *condition {
        Cond::Valid { share, per } if share.at == at => Some((share.value, per)),
        _ => None,
    });
    found.unwrap_or((0, 0))
}

// What is said of a threshold that is out of its range.
fn share_texts(share: u32, per: u32) -> (&'static Sentence, &'static Message)
    ensures sentence { IsSaidBy result.0.now 3 × (result.0.now.0 ≡ B13) }
    ensures remedy { IsFilledBy result.1.now 0 }
{
    if share == 0 {
        (&texts::SHARE_ZERO, &texts::SHARE_ZERO_REMEDY)
    } else if share > per {
        (&texts::SHARE_MORE, &texts::SHARE_MORE_REMEDY)
    } else {
        (&texts::SHARE_PARTS, &texts::SHARE_PARTS_REMEDY)
    }
}

/// A threshold that is out of its range.
pub fn explain_share(written: &Written<'_>, at: usize) -> Result<Explainer, NoMemory>
    ensures { IfOk result (λ x. x.code ≡ Some B13) }
{
    let (share, per) = share_at(written.book.eligible.as_slice(), at);
    let first = written.speaker.number(share as usize)?;
    let second = written.speaker.number(per as usize)?;
    let most = written.speaker.number(MAX_PER as usize)?;
    let values = [first.as_slice(), second.as_slice(), most.as_slice()];
    let (sentence, remedy) = share_texts(share, per);
    Ok(written.says(sentence, &values, at).helped(remedy, &[]))
}
