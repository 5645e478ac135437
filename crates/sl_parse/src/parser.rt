//! The parser, by descent.

ghost use Rattle.std.specs.Prelude.{◌≡◌, IsTrue, IfOk, IfErr, []};
ghost use Rattle.sl_lex.specs.Tokens.{AreTokens};
ghost use Rattle.sl_parse.specs.Spans.{AreSpans};
ghost use Rattle.sl_law_meaning.specs.book.Trees.{BookTree};
ghost use Rattle.sl_law_meaning.specs.book.Limits.{is_within_limits};
ghost use Rattle.sl_parse.specs.Grammar.{IsBook};
ghost use Rattle.sl_law_meaning.specs.book.Books.{book_of};
ghost use Rattle.sl_parse.specs.Parsing.{fault_at, IsFaultOf, Answers};

use crate::fault::{Cause, ParseFault, Stop};
use crate::token::Parser;
use sl_law_meaning::Book;
use sl_lex::{Token, laws};
use std::alloc::Global;

fn fault_at(cause: Cause, at: usize) -> ParseFault
    ensures { result ≡ fault_at cause at }
{
    match cause {
        Cause::Expected => ParseFault::Expected(at),
        Cause::TooDeep => ParseFault::TooDeep(at),
        Cause::TooManyStages => ParseFault::TooManyStages(at),
        Cause::After => ParseFault::After(at),
    }
}

/// The book that tokens are which stand anywhere in the text.
pub fn parse_spans(alloc: Global, text: &[u8], tokens: &[Token]) -> Result<Book, ParseFault>
    requires { AreSpans text.now tokens.now }
    ensures found { IfOk result (λ b. IsBook text.now (book_of b) tokens.now [] × IsTrue (is_within_limits (book_of b).stages)) }
    // A tree within the limits is answered, unless memory runs out.
    ensures only { (tree : BookTree) →
        IsBook text.now tree tokens.now [] → IsTrue (is_within_limits tree.stages) → Answers tree result }
    ensures fault { IfErr result (IsFaultOf text.now tokens.now) }
{
    let parser = Parser {
        alloc,
        text,
        tokens,
    };
    match parser.book() {
        Ok(book) => Ok(book),
        Err(Stop::NoMemory) => Err(ParseFault::NoMemory),
        Err(Stop::At(cause, at)) => Err(fault_at(cause, parser.offset(at))),
    }
}

/// The book that the tokens of the text are. Its grammar and its faults are those of docs/language.md, section 2. A token
/// list has at most one tree and at most one fault (`laws`).
pub fn parse(alloc: Global, text: &[u8], tokens: &[Token]) -> Result<Book, ParseFault>
    // The tokens are those of the text.
    requires { AreTokens text.now tokens.now }
    ensures found { IfOk result (λ b. IsBook text.now (book_of b) tokens.now []) }
    // A tree within the limits is answered, unless memory runs out.
    ensures only { (tree : BookTree) →
        IsBook text.now tree tokens.now [] → IsTrue (is_within_limits tree.stages) → Answers tree result }
    ensures fault { IfErr result (IsFaultOf text.now tokens.now) }
{
    laws::tokens_are_spans();
    parse_spans(alloc, text, tokens)
}
