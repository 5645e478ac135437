//! The refused ones of several rulebooks that were read.

ghost use Rattle.std.specs.Prelude.{◌≡◌, All, Contains, IfOk, IfSome, None};
ghost use Rattle.sl_count_inputs.specs.declared.status.Input.TheVariants as input;
ghost use Rattle.sl_count_inputs.specs.declared.verdict.Verdict.TheVariants.{Refused};
ghost use Rattle.sl_explain_calls.specs.Codes.{book_code, subject, subject_of};
ghost use Rattle.sl_terminal_commands.specs.inner.Comparing.{IsGood};

use crate::sums::NamedBook;
use crate::varied::add_method;
use sl_base_quotients::NoMemory;
use sl_count_inputs::{RefusedBook, Verdict};
use sl_explain_calls::{Explained, explain_book};
use sl_report_commands::{Language, add_refused};
use std::alloc::Global;

/// A rulebook that is refused, and those that were read after it.
#[derive(Clone, Copy)]
pub(crate) struct FirstRefused<'a, 'b> {
    pub(crate) book: &'a NamedBook<'b>,
    pub(crate) refused: &'a RefusedBook<'b>,
    pub(crate) further: &'a [NamedBook<'b>],
}

/// The first of some rulebooks that is refused.
pub(crate) fn first_refused<'a, 'b>(books: &'a [NamedBook<'b>]) -> Option<FirstRefused<'a, 'b>>
    ensures good { result ≡ None → All (λ b. IsGood b.read.verdict) books.now }
    ensures refused { IfSome result (λ first. Contains books.now first.book.now × (first.book.now.read.verdict ≡ Refused first.refused.now)) }
{
    for (number, book) in books.iter().enumerate() {
        if let Verdict::Refused(refused) = &book.read.verdict {
            return Some(FirstRefused {
                book,
                refused,
                further: &books[number + 1..],
            });
        }
    }
    None
}

/// Why a rulebook is refused, with a line for each refused one of those that were read after it.
pub(crate) fn explain_refused(
    alloc: Global,
    language: Language,
    first: FirstRefused<'_, '_>,
) -> Result<Explained, NoMemory>
    ensures { IfOk result (λ told. subject_of told ≡ subject input.Book (book_code first.entry.refused.now)) }
{
    let text = first.book.read.text.as_slice();
    let mut explained = explain_book(alloc, language, text, first.refused)?;
    add_method(alloc, language, &mut explained, first.book.method)?;
    for book in first.further {
        if let Verdict::Refused(refused) = &book.read.verdict {
            let text = book.read.text.as_slice();
            add_refused(alloc, language, &mut explained, book.word, text, refused)?;
        }
    }
    Ok(explained)
}
