//! Words and files that are handed in, and the reply to them.

ghost use Rattle.std.specs.Prelude.{◌≡◌, ◌∷◌, IfOk, MatchOption, map, string_bytes};
ghost use Rattle.sl_page_calls.specs.Asking.{AreUnread, IsAnswered, program, words_given};

use crate::handed::Handed;
use sl_base_quotients::NoMemory;
use sl_explain_texts::Language;
use sl_terminal_commands::{Forms, Speech, reply_to};
use sl_terminal_outside::{File, Shelf};
use std::alloc::Global;

/// A word that is handed in.
#[repr(C)]
#[derive(Clone, Copy)]
pub struct Word<'a> {
    pub bytes: &'a [u8],
}

// The name under which the program is called.
const PROGRAM: &str = "seatlaw";

// The program's name and the words behind it; `None` where one of them is no UTF-8.
fn words_of(alloc: Global, words: &[Word<'_>]) -> Result<Option<Vec<String>>, NoMemory>
    ensures { IfOk result (λ found. MatchOption found (AreUnread words.now) (λ all. map string_bytes all.items ≡ program ∷ words_given words.now)) }
{
    let mut all: Vec<String> = Vec::new(alloc);
    all.push(String::from_str(alloc, PROGRAM)?)?;
    for word in words {
        let Ok(text) = std::str::from_utf8(word.bytes) else {
            return Ok(None);
        };
        all.push(String::from_str(alloc, text)?)?;
    }
    Ok(Some(all))
}

/// The reply to words, from these files.
pub(crate) fn ask<F: Forms, S: Speech>(
    alloc: Global,
    forms: &F,
    speech: &S,
    words: &[Word<'_>],
    files: &[File<'_>],
) -> Handed
    ensures { IsAnswered (F.is_text forms.now) (S.is_about speech.now) words.now files.now result }
{
    match words_of(alloc, words) {
        Ok(Some(words)) => {
            let shelf = Shelf { files };
            let reply = reply_to(
                alloc,
                &shelf,
                Language::English,
                forms,
                speech,
                words.as_slice(),
            );
            let handed = Handed::reply(alloc, reply);
            drop(words);
            handed
        }
        Ok(None) => Handed::unreadable(alloc),
        Err(NoMemory) => Handed::NO_MEMORY,
    }
}
