//! Rulebooks with other methods than their own, as `compare --method` puts them next to the originals.

ghost use Rattle.std.specs.List.{AllZip};
ghost use Rattle.std.specs.Prelude.{◌≡◌, ◌++◌, IfOk, map, string_bytes};
ghost use Rattle.sl_explain_calls.specs.Codes.{subject_of};
ghost use Rattle.sl_terminal_commands.specs.Comparisons.{column_word, methods_written};
ghost use Rattle.sl_terminal_commands.specs.inner.Comparing.{AreGood, IsVaried, IsVariedOf, pairs};

use crate::reports::book_bytes;
use crate::sums::NamedBook;
use sl_base_quotients::{Method, NoMemory};
use sl_count_inputs::{ReadBook, Verdict};
use sl_explain_calls::Explained;
use sl_explain_texts::{Message, Speaker};
use sl_report_commands::{Language, book_by, method_of, method_word};
use sl_stages::CheckedBook;
use std::alloc::Global;

// What is said where a rulebook fails a test with another method than its own.
const OTHER_METHOD: Message = (
    "`--method` put `{method}` in place of the method here",
    "`--method` hat hier `{method}` an die Stelle des Verfahrens gesetzt",
);

/// The methods that words name.
pub(crate) fn methods_of(alloc: Global, words: &[&str]) -> Result<Vec<Method>, NoMemory>
    ensures { IfOk result (λ methods. methods.items ≡ methods_written (map (λ word. word.now) words.now)) }
{
    let mut methods = Vec::new(alloc);
    for word in words {
        if let Some(method) = method_of(*word) {
            methods.push(method)?;
        }
    }
    Ok(methods)
}

/// The word of the column of a rulebook: its own, and with another method that of the method after `+`.
pub(crate) fn column_word(
    alloc: Global,
    word: &str,
    method: Option<Method>,
) -> Result<String, NoMemory>
    ensures { IfOk result (λ shown. string_bytes shown ≡ column_word word.now method) }
{
    let mut shown = String::from_str(alloc, word)?;
    if let Some(method) = method {
        shown.push_str("+")?;
        shown.push_str(method_word(method))?;
    }
    Ok(shown)
}

// A good rulebook with another method.
fn varied<'a>(
    alloc: Global,
    named: &NamedBook<'a>,
    book: &CheckedBook,
    method: Method,
) -> Result<NamedBook<'a>, NoMemory>
    ensures { IfOk result (IsVaried named.now book.now method) }
{
    let bytes = book_bytes(named.word, named.read.text.as_slice());
    let text = Vec::from_slice(alloc, bytes)?;
    let verdict = book_by(alloc, book, method)?;
    Ok(NamedBook {
        word: named.word,
        method: Some(method),
        read: ReadBook { text, verdict },
    })
}

// A good rulebook with each of these methods.
fn each_varied<'a>(
    alloc: Global,
    named: &NamedBook<'a>,
    book: &CheckedBook,
    methods: &[Method],
) -> Result<Vec<NamedBook<'a>>, NoMemory>
    ensures { IfOk result (λ found. AllZip (IsVaried named.now book.now) methods.now found.items) }
{
    let mut found = Vec::new(alloc);
    for method in methods {
        found.push(varied(alloc, named, book, *method)?)?;
    }
    Ok(found)
}

/// Rulebooks, if they are good, with each of these methods.
pub(crate) fn all_varied<'a>(
    alloc: Global,
    books: &[NamedBook<'a>],
    methods: &[Method],
) -> Result<Vec<NamedBook<'a>>, NoMemory>
    ensures { AreGood books.now → IfOk result (λ all. AllZip IsVariedOf (pairs books.now methods.now) all.items) }
{
    let mut all = Vec::new(alloc);
    for named in books {
        if let Verdict::Good(book) = &named.read.verdict {
            let mut found = each_varied(alloc, named, book, methods)?;
            all.append(&mut found)?;
        }
    }
    Ok(all)
}

/// Rulebooks, and others after them.
pub(crate) fn behind<'a>(
    mut books: Vec<NamedBook<'a>>,
    mut others: Vec<NamedBook<'a>>,
) -> Result<Vec<NamedBook<'a>>, NoMemory>
    ensures { IfOk result (λ all. all.items ≡ books.entry.items ++ others.entry.items) }
{
    books.append(&mut others)?;
    Ok(books)
}

/// Says of a rulebook that is refused which method took the place of its own, if one did.
pub(crate) fn add_method(
    alloc: Global,
    language: Language,
    explained: &mut Explained,
    method: Option<Method>,
) -> Result<(), NoMemory>
    ensures { subject_of explained.new ≡ subject_of explained.old }
{
    match method {
        Some(method) => {
            let word = method_word(method).as_bytes();
            let text = Speaker { alloc, language }.text(&OTHER_METHOD, &[word])?;
            explained.explanation.add_remedy(text)
        }
        None => Ok(()),
    }
}
