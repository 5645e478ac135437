//! The further ones of several rulebooks that are refused, in a line each.

ghost use Rattle.std.specs.Prelude.{◌≡◌};
ghost use Rattle.sl_explain_calls.specs.Codes.{subject_of};

use sl_base_quotients::NoMemory;
use sl_count_inputs::RefusedBook;
use sl_explain_calls::{Explained, explain_book};
use sl_explain_texts::{Language, Message, Speaker, push_shown};
use std::alloc::Global;

// A line on a rulebook that is refused, by the word that names it.
const ALSO: Message = (
    "also refused: {word}: {sentence}",
    "auch abgelehnt: {word}: {sentence}",
);

// A line on a rulebook that is refused: the word that names it, and the sentence of its own explanation.
fn line_on(
    alloc: Global,
    language: Language,
    word: &str,
    own: &Explained,
) -> Result<Vec<u8>, NoMemory> {
    let mut shown: Vec<u8> = Vec::new(alloc);
    push_shown(&mut shown, word.as_bytes())?;
    let values = [shown.as_slice(), own.explanation.sentence()];
    Speaker { alloc, language }.text(&ALSO, &values)
}

/// Adds a line on a further rulebook of this text that is refused: the word that names it, and the sentence of its own explanation.
pub fn add_refused(
    alloc: Global,
    language: Language,
    explained: &mut Explained,
    word: &str,
    text: &[u8],
    refused: &RefusedBook<'_>,
) -> Result<(), NoMemory>
    ensures { subject_of explained.new ≡ subject_of explained.old }
{
    let own = explain_book(alloc, language, text, refused)?;
    let line = line_on(alloc, language, word, &own);
    drop(own);
    explained.explanation.add_line(line?)
}
