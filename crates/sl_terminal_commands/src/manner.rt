//! How the texts of `compare` are written, and the digests of their inputs.

ghost use Rattle.std.specs.Prelude.{◌≡◌, ◌++◌, IfOk, OnOk, codes, flat_map};
ghost use Rattle.sl_report_commands.specs.Written.{IsWritten, json_digests};
ghost use Rattle.sl_report_commands.specs.Digests.{digests};
ghost use Rattle.sl_terminal_commands.specs.inner.Digested.{called_digests, named_digest, read_digest};

use crate::answered::Answered;
use crate::reports::book_bytes;
use crate::sums::{NamedBook, NamedReturns};
use sl_base_quotients::NoMemory;
use sl_report_commands::{
    Answer, DigestedInput, Forms, Style, Told, digested_book, digested_returns, push_digested,
    refusal_of, text_by,
};
use std::alloc::Global;

/// How the texts of `compare` are written: by which forms, in a form and a language, and with the digests of its inputs.
#[derive(Drop)]
pub(crate) struct Manner<'a, F> {
    pub(crate) forms: &'a F,
    pub(crate) style: Style,
    pub(crate) inputs: &'a [DigestedInput],
}

impl<F: Forms> Manner<'_, F> {
    /// An answer with its text, in JSON with what is told of a refusal, and with what is said of it.
    pub(crate) fn answered(
        &self,
        alloc: Global,
        answer: &Answer,
        told: Option<Told<'_>>,
        said: Vec<u8>,
    ) -> Result<Answered, NoMemory>
        ensures status { IfOk result (λ a. a.status ≡ answer.now.status) }
        ensures written { IfOk result (λ a. IsWritten (F.is_text self.now.forms.now) (codes "compare") self.now.style (digests self.now.inputs.now) answer.now a.text.items) }
        ensures said { IfOk result (λ a. a.said ≡ said) }
    {
        match text_by(
            self.forms,
            alloc,
            "compare",
            self.style,
            answer,
            self.inputs,
            told,
        ) {
            Ok(text) => Ok(Answered {
                status: answer.status,
                text,
                said,
                made: Vec::new(alloc),
            }),
            Err(NoMemory) => Err(NoMemory),
        }
    }
}

// Adds the digest of a rulebook, if it has bytes, which is called by a word where there are several.
fn push_book(
    inputs: &mut Vec<DigestedInput>,
    book: &NamedBook<'_>,
    word: Option<String>,
) -> Result<(), NoMemory>
    ensures { OnOk result (digests inputs.new.items ≡ digests inputs.old.items ++ named_digest book.now) }
{
    let bytes = book_bytes(book.word, book.read.text.as_slice());
    push_digested(
        inputs,
        digested_book(word, bytes, refusal_of(&book.read.verdict)),
    )
}

// Adds the digests of rulebooks, each with the word that names it.
fn push_books(
    alloc: Global,
    inputs: &mut Vec<DigestedInput>,
    books: &[NamedBook<'_>],
) -> Result<(), NoMemory>
    ensures { OnOk result (digests inputs.new.items ≡ digests inputs.old.items ++ flat_map named_digest books.now) }
{
    for book in books {
        let word = String::from_str(alloc, book.word)?;
        push_book(inputs, book, Some(word))?;
    }
    Ok(())
}

// Adds the digest of returns, if they have bytes.
fn push_returns(inputs: &mut Vec<DigestedInput>, returns: &NamedReturns<'_>) -> Result<(), NoMemory>
    ensures { OnOk result (digests inputs.new.items ≡ digests inputs.old.items ++ read_digest returns.now) }
{
    let read = &returns.read;
    push_digested(
        inputs,
        digested_returns(read.text.as_slice(), refusal_of(&read.verdict)),
    )
}

/// The digests of rulebooks, each with the word that names it, and of returns, as JSON has them.
pub(crate) fn called_inputs(
    alloc: Global,
    books: &[NamedBook<'_>],
    returns: &NamedReturns<'_>,
    style: Style,
) -> Result<Vec<DigestedInput>, NoMemory>
    ensures { IfOk result (λ inputs. digests inputs.items ≡ json_digests style (called_digests books.now returns.now)) }
{
    let mut inputs = Vec::new(alloc);
    if !style.is_json() {
        return Ok(inputs);
    }
    push_books(alloc, &mut inputs, books)?;
    push_returns(&mut inputs, returns)?;
    Ok(inputs)
}
