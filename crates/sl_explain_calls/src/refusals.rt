//! Refused inputs, explained.

ghost use Rattle.std.specs.Prelude.{◌≡◌, IfOk};
ghost use Rattle.sl_explain_calls.specs.Codes.{book_code, election_code, refused_code, subject, subject_of};
ghost use Rattle.sl_explain_calls.specs.Places.{IsOfElection};
ghost use Rattle.sl_count_inputs.specs.declared.status.Input.TheVariants as input;

use crate::explained::Explained;
use sl_base_quotients::NoMemory;
use sl_count_code_files::CodeRefusal;
use sl_count_inputs::{Input, RefusedBook, RefusedElection};
use sl_explain_books::{
    explain_grammar, explain_long_book, explain_test, explain_tokens, explain_unknown_statute,
};
use sl_explain_faults::{explain_code_bytes, explain_code_kinds, explain_long_code};
use sl_explain_returns::{explain_long_returns, explain_returns};
use sl_explain_texts::{Explanation, Language};
use std::alloc::Global;

// What is said of a refused rulebook.
fn about_book(
    alloc: Global,
    language: Language,
    text: &[u8],
    refused: &RefusedBook<'_>,
) -> Result<Explanation, NoMemory>
    ensures { IfOk result (λ x. x.code ≡ book_code refused.now) }
{
    match refused {
        RefusedBook::UnknownStatute(name) => explain_unknown_statute(alloc, language, name),
        RefusedBook::TooLong => explain_long_book(alloc, language),
        RefusedBook::Tokens(fault) => explain_tokens(alloc, language, text, *fault),
        RefusedBook::Grammar(fault, tokens) => {
            explain_grammar(alloc, language, text, tokens.as_slice(), *fault)
        }
        RefusedBook::Test(fault, book) => explain_test(alloc, language, text, book, *fault),
    }
}

/// Why a rulebook of this text is refused. The text of a name without a statute is empty.
pub fn explain_book(
    alloc: Global,
    language: Language,
    text: &[u8],
    refused: &RefusedBook<'_>,
) -> Result<Explained, NoMemory>
    ensures { IfOk result (λ told. subject_of told ≡ subject input.Book (book_code refused.now)) }
{
    Ok(Explained {
        input: Input::Book,
        explanation: about_book(alloc, language, text, refused)?,
    })
}

// What is said of refused returns.
fn about_election(
    alloc: Global,
    language: Language,
    bytes: &[u8],
    refused: &RefusedElection,
) -> Result<Explanation, NoMemory>
    ensures code { IfOk result (λ x. x.code ≡ election_code refused.now) }
    ensures place { IfOk result (λ x. IsOfElection bytes.now refused.now x.span) }
{
    match refused {
        RefusedElection::TooLong => explain_long_returns(alloc, language),
        RefusedElection::Records(refused) => explain_returns(alloc, language, bytes, refused),
    }
}

/// Why returns of these bytes are refused.
pub fn explain_election(
    alloc: Global,
    language: Language,
    bytes: &[u8],
    refused: &RefusedElection,
) -> Result<Explained, NoMemory>
    ensures subject { IfOk result (λ told. subject_of told ≡ subject input.Returns (election_code refused.now)) }
    ensures place { IfOk result (λ told. IsOfElection bytes.now refused.now told.explanation.span) }
{
    Ok(Explained {
        input: Input::Returns,
        explanation: about_election(alloc, language, bytes, refused)?,
    })
}

// What is said of a refused code file.
fn about_code(
    alloc: Global,
    language: Language,
    file: &[u8],
    refused: CodeRefusal,
) -> Result<Explanation, NoMemory>
    ensures { IfOk result (λ x. x.code ≡ refused_code refused) }
{
    match refused {
        CodeRefusal::TooLong => explain_long_code(alloc, language),
        CodeRefusal::File(fault) => explain_code_bytes(alloc, language, file, fault),
        CodeRefusal::Kinds(fault) => explain_code_kinds(alloc, language, fault),
    }
}

/// Why a code file of these bytes is refused.
pub fn explain_code(
    alloc: Global,
    language: Language,
    file: &[u8],
    refused: CodeRefusal,
) -> Result<Explained, NoMemory>
    ensures { IfOk result (λ told. subject_of told ≡ subject input.Code (refused_code refused)) }
{
    Ok(Explained {
        input: Input::Code,
        explanation: about_code(alloc, language, file, refused)?,
    })
}
