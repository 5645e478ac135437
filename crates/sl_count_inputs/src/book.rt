//! Judging a rulebook.

ghost use Rattle.std.specs.Prelude.{◌≡◌, ◌+◌, length, IfOk, IfSome};
ghost use Rattle.sl_laws.specs.Books.{law_text};
ghost use Rattle.sl_count_inputs.specs.Failures.{counts, counts_after};
ghost use Rattle.sl_count_inputs.specs.Reading.{book_input, book_failures, ReadsBook, TakesAtMost};
ghost use Rattle.sl_count_inputs.specs.Books.{IsBookVerdict, IsLawVerdict, IsTextVerdict, library};
ghost use Rattle.sl_count_inputs.specs.Holding.{HoldsBook, IfRefused};
ghost use Rattle.sl_count_inputs.specs.Judging.{input_of, tree_verdict};
ghost use Rattle.sl_count_inputs.specs.Texts.{IsBookText, IsReadText, bytes_of};

use crate::input::{Bytes, read_all};
use crate::limits::MAX_BOOK_BYTES;
use crate::refused_book::RefusedBook;
use crate::source::{BookSource, Source};
use crate::status::{DeskError, Input};
use crate::verdict::Verdict;
use sl_base_quotients::NoMemory;
use sl_check::{CheckedBook, check};
use sl_laws::law;
use sl_lex::{LexFault, lex};
use sl_parse::{ParseFault, parse};
use std::alloc::Global;

/// A rulebook: of the library, by its name without `@`, or the bytes of a text.
#[derive(Clone, Copy)]
pub enum BookText<'a> {
    Library(&'a str),
    Text(&'a [u8]),
}

impl<'a> BookText<'a> {
    /// The bytes of its text; none where the library has no rulebook of that name.
    pub fn bytes(self) -> &'a [u8]
        ensures { result.now ≡ bytes_of (input_of self.entry) }
    {
        match self {
            BookText::Library(name) => law(name).unwrap_or("").as_bytes(),
            BookText::Text(text) => text,
        }
    }
}

/// What a text comes to: its length, its tokens, their tree, and the tests of the tree.
pub(crate) fn judge_text<'a>(
    alloc: Global,
    text: &[u8],
) -> Result<Verdict<CheckedBook, RefusedBook<'a>>, NoMemory>
    ensures verdict { IfOk result (λ v. IsTextVerdict text.now (tree_verdict v)) }
    ensures holds { IfOk result (λ v. IfRefused v (HoldsBook text.now)) }
{
    if text.len() > MAX_BOOK_BYTES {
        return Ok(Verdict::Refused(RefusedBook::TooLong));
    }
    let tokens = match lex(alloc, text) {
        Ok(tokens) => tokens,
        Err(LexFault::NoMemory) => return Err(NoMemory),
        Err(fault) => return Ok(Verdict::Refused(RefusedBook::Tokens(fault))),
    };
    let book = match parse(alloc, text, tokens.as_slice()) {
        Ok(book) => book,
        Err(ParseFault::NoMemory) => return Err(NoMemory),
        Err(fault) => return Ok(Verdict::Refused(RefusedBook::Grammar(fault, tokens))),
    };
    match check(book) {
        Ok(book) => Ok(Verdict::Good(book)),
        Err((book, fault)) => Ok(Verdict::Refused(RefusedBook::Test(fault, book))),
    }
}

/// What a name comes to: the text of the library's book, if there is one.
pub(crate) fn judge_law<'a>(
    alloc: Global,
    name: &'a str,
) -> Result<Verdict<CheckedBook, RefusedBook<'a>>, NoMemory>
    ensures verdict { IfOk result (λ v. IsLawVerdict name.now (law_text name.now) (tree_verdict v)) }
    ensures holds { IfOk result (λ v. IfRefused v (HoldsBook (bytes_of (library name.now)))) }
{
    match law(name) {
        Some(text) => judge_text(alloc, text.as_bytes()),
        None => Ok(Verdict::Refused(RefusedBook::UnknownStatute(name))),
    }
}

/// A rulebook that was read: the bytes of its text, none for one of the library, and what it comes to.
#[derive(Drop)]
pub struct ReadBook<'a> {
    pub text: Vec<u8>,
    pub verdict: Verdict<CheckedBook, RefusedBook<'a>>,
}

// Reads the text of a rulebook and judges it.
fn read_text<'a, S: Source>(alloc: Global, reader: &mut S) -> Result<ReadBook<'a>, DeskError>
    ensures verdict { IfOk result (λ r. IfSome (S.remaining reader.old) (λ bytes. IsTextVerdict bytes (tree_verdict r.verdict))) }
    ensures holds { IfOk result (λ r. IfSome (S.remaining reader.old) (λ bytes. IfRefused r.verdict (HoldsBook bytes))) }
    ensures text { IfOk result (λ r. IfSome (S.remaining reader.old) (λ bytes. IsReadText MAX_BOOK_BYTES bytes r.text.items)) }
    ensures failures { counts (S.failed reader.new) 0 0 0 ≡ counts_after (counts (S.failed reader.old) 0 0 0) result }
    ensures limited { TakesAtMost (MAX_BOOK_BYTES + 1) (S.remaining reader.old) (S.remaining reader.new) }
{
    match read_all(alloc, reader, Input::Book, MAX_BOOK_BYTES)? {
        Bytes::Whole(text) => {
            let verdict = judge_text(alloc, text.as_slice())?;
            Ok(ReadBook { text, verdict })
        }
        Bytes::TooLong => Ok(ReadBook {
            text: Vec::new(alloc),
            verdict: Verdict::Refused(RefusedBook::TooLong),
        }),
    }
}

/// What a rulebook comes to.
pub fn judge_book<'a>(
    alloc: Global,
    book: BookText<'a>,
) -> Result<Verdict<CheckedBook, RefusedBook<'a>>, NoMemory>
    ensures verdict { IfOk result (λ v. IsBookVerdict (input_of book.entry) (tree_verdict v)) }
    // With a refusal stands what was read of the rulebook until then.
    ensures holds { IfOk result (λ v. IfRefused v (HoldsBook (bytes_of (input_of book.entry)))) }
{
    match book {
        BookText::Library(name) => judge_law(alloc, name),
        BookText::Text(text) => judge_text(alloc, text),
    }
}

/// Reads a rulebook and judges it.
///
/// # Errors
///
/// `Read` where the source failed, and `NoMemory`.
pub fn read_book<'a, S: Source>(
    alloc: Global,
    source: &mut BookSource<'a, S>,
) -> Result<ReadBook<'a>, DeskError>
    ensures verdict { IfOk result (λ r. IfSome (book_input S.remaining source.old) (λ input. IsBookVerdict input (tree_verdict r.verdict))) }
    // With a refusal stands what was read of the rulebook until then, and the bytes are those that were read.
    ensures holds { IfOk result (λ r. IfSome (book_input S.remaining source.old) (λ input. IfRefused r.verdict (HoldsBook (bytes_of input)))) }
    ensures text { IfOk result (λ r. IfSome (book_input S.remaining source.old) (λ input. IsBookText input r.text.items)) }
    ensures failures { counts (book_failures S.failed source.new) 0 0 0 ≡ counts_after (counts (book_failures S.failed source.old) 0 0 0) result }
    ensures source { ReadsBook S.remaining source.old source.new }
{
    match source {
        BookSource::Library(name) => {
            let verdict = judge_law(alloc, name)?;
            Ok(ReadBook {
                text: Vec::new(alloc),
                verdict,
            })
        }
        BookSource::Reader(reader) => read_text(alloc, reader),
    }
}
