//! The statutes of the library, as rulebooks that words name.

ghost use Rattle.std.specs.Prelude.{◌≡◌, ◌∷◌, All, IfOk, List, map, string_bytes, ℕ};
ghost use Rattle.sl_terminal_commands.specs.Comparisons.{library_words};
ghost use Rattle.sl_terminal_commands.specs.inner.Statutes.{IsJudgedStatute};

use crate::sums::NamedBook;
use sl_base_quotients::NoMemory;
use sl_count_inputs::{BookText, ReadBook, judge_book};
use sl_laws::STATUTES;
use std::alloc::Global;

// The word that names a statute of this name.
fn word_of(alloc: Global, name: &str) -> Result<String, NoMemory>
    ensures { IfOk result (λ word. string_bytes word ≡ 64 ∷ name.now) }
{
    let mut word = String::from_str(alloc, "@")?;
    word.push_str(name)?;
    Ok(word)
}

/// The words that name the statutes of the library.
pub(crate) fn library_words(alloc: Global) -> Result<Vec<String>, NoMemory>
    ensures { IfOk result (λ words. map string_bytes words.items ≡ library_words) }
{
    let mut words: Vec<String> = Vec::new(alloc);
    for statute in &STATUTES {
        words.push(word_of(alloc, statute.name)?)?;
    }
    Ok(words)
}

// The name of the statute that a word names after `@`.
fn name_of(word: &str) -> &str
    ensures { (name : List ℕ) → word.now ≡ 64 ∷ name → result.now ≡ name }
{
    match word.strip_prefix('@') {
        Some(name) => name,
        None => word,
    }
}

// The statute that a word names, judged.
fn statute_of<'a>(alloc: Global, word: &'a str) -> Result<NamedBook<'a>, NoMemory>
    ensures word { IfOk result (λ b. b.word.now ≡ word.now) }
    ensures judged { IfOk result IsJudgedStatute }
{
    let verdict = judge_book(alloc, BookText::Library(name_of(word)))?;
    Ok(NamedBook {
        word,
        method: None,
        read: ReadBook {
            text: Vec::new(alloc),
            verdict,
        },
    })
}

/// The statutes that words name, judged.
pub(crate) fn statutes_of<'a>(
    alloc: Global,
    words: &'a [String],
) -> Result<Vec<NamedBook<'a>>, NoMemory>
    ensures words { IfOk result (λ books. map (λ b. b.word.now) books.items ≡ map string_bytes words.now) }
    ensures judged { IfOk result (λ books. All IsJudgedStatute books.items) }
{
    let mut books: Vec<NamedBook<'a>> = Vec::new(alloc);
    for word in words {
        let book = statute_of(alloc, word.as_str())?;
        books.push(book)?;
    }
    Ok(books)
}
