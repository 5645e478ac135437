//! From a rulebook's bytes to its tree.

ghost use Rattle.sl_lex.specs.Tokens.{AreTokens};

use crate::marks::{begin, end};
use crate::rows::THREE_METHODS;
use sl_check::check;
use sl_lex::{LexFault, Token, lex};
use sl_parse::{ParseFault, parse};
use sl_stages::Book;
use std::alloc::Global;

// The tokens of a text.
fn tokens_of(alloc: Global, text: &[u8]) -> Result<Vec<Token>, LexFault> {
    begin(alloc);
    let first = lex(alloc, text);
    end(alloc);
    match first {
        Ok(tokens) => Ok(tokens),
        Err(LexFault::NoMemory) => lex(alloc, text),
        Err(fault) => Err(fault),
    }
}

// Whether there are 28, the last of which ends the text.
fn has_tokens(alloc: Global, text: &[u8]) -> bool {
    match tokens_of(alloc, text) {
        Ok(tokens) => {
            tokens.len() == 28 && tokens.last().map(|token| token.end) == Some(text.len())
        }
        Err(_) => false,
    }
}

#[test]
fn tokens(rt: HostRuntime) {
    for (book, _) in &THREE_METHODS {
        assert!(rt; has_tokens(rt.alloc(), book.as_bytes()));
    }
}

// The tree of a text.
fn tree_of(alloc: Global, text: &[u8], tokens: &[Token]) -> Result<Book, ParseFault>
    requires { AreTokens text.now tokens.now }
{
    begin(alloc);
    let first = parse(alloc, text, tokens);
    end(alloc);
    match first {
        Ok(book) => Ok(book),
        Err(ParseFault::NoMemory) => parse(alloc, text, tokens),
        Err(fault) => Err(fault),
    }
}

// Whether a book is well formed, and has eight seats and one stage.
fn is_right(book: Book) -> bool {
    let has_one_stage = book.house.value == 8 && book.stages.len() == 1;
    check(book).is_ok() && has_one_stage
}

// Whether the tree of a text is such a book.
fn has_tree(alloc: Global, text: &[u8], tokens: &[Token]) -> bool
    requires { AreTokens text.now tokens.now }
{
    match tree_of(alloc, text, tokens) {
        Ok(book) => is_right(book),
        Err(_) => false,
    }
}

fn is_book(alloc: Global, text: &[u8]) -> bool {
    match lex(alloc, text) {
        Ok(tokens) => has_tree(alloc, text, tokens.as_slice()),
        Err(_) => false,
    }
}

#[test]
fn trees(rt: HostRuntime) {
    for (book, _) in &THREE_METHODS {
        assert!(rt; is_book(rt.alloc(), book.as_bytes()));
    }
}
