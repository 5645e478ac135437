//! The words of cells, in both languages.

ghost use Rattle.std.specs.Prelude.{◌≡◌, IfOk, string_bytes};
ghost use Rattle.sl_report_forms.specs.NameTexts as spec;

use crate::draft::copied;
use sl_base_quotients::NoMemory;
use sl_explain_texts::{Language, Message};
use sl_law_meaning::Cond;
use std::alloc::Global;

/// The words for a flag.
pub(crate) const YES: Message = ("yes", "ja");

pub(crate) const NO: Message = ("no", "nein");

/// The word for all Länder and parties together, and for a single number.
pub const ALL: Message = ("all", "alle");

const SHARE: Message = ("per", "je");

const WINNERS: Message = ("winners", "Wahlkreise");

const MINORITY: Message = ("minority", "Minderheit");

/// A condition in few words of a language.
pub(crate) fn condition_text(
    alloc: Global,
    language: Language,
    cond: Cond,
) -> Result<String, NoMemory>
    ensures { IfOk result (λ t. string_bytes t ≡ spec.condition_text language cond) }
{
    match cond {
        Cond::Valid { share, per } => {
            let (share, word) = (share.value, language.text(&SHARE));
            Ok(format!(in alloc; "{share} {word} {per}")?)
        }
        Cond::Winners { least } => {
            let word = language.text(&WINNERS);
            Ok(format!(in alloc; "{least} {word}")?)
        }
        Cond::Minority => copied(alloc, language.text(&MINORITY)),
        Cond::All => copied(alloc, language.text(&ALL)),
    }
}
