//! Refused rulebooks, with what was read of them.

use crate::refusal::BookRefusal;
use sl_check::CheckFault;
use sl_lex::{LexFault, Token};
use sl_parse::ParseFault;
use sl_stages::Book;

/// A refused rulebook: why it is refused, and what was read of it until then.
#[derive(Drop)]
pub enum RefusedBook<'a> {
    /// The library has no statute of that name.
    UnknownStatute(&'a str),
    /// The text has too many bytes.
    TooLong,
    /// The text has no tokens.
    Tokens(LexFault),
    /// The tokens are no tree.
    Grammar(ParseFault, Vec<Token>),
    /// The tree fails a test.
    Test(CheckFault, Book),
}

impl<'a> RefusedBook<'a> {
    ghost use Rattle.std.specs.Prelude.{◌≡◌};
    ghost use Rattle.sl_count_inputs.specs.Judging.{refusal_of};

    /// Why it is refused.
    pub fn why(&self) -> BookRefusal<'a>
        ensures { result ≡ refusal_of self.entry.now }
    {
        match self {
            RefusedBook::UnknownStatute(name) => BookRefusal::UnknownLaw(name),
            RefusedBook::TooLong => BookRefusal::TooLong,
            RefusedBook::Tokens(fault) => BookRefusal::Tokens(*fault),
            RefusedBook::Grammar(fault, _tokens) => BookRefusal::Grammar(*fault),
            RefusedBook::Test(fault, _book) => BookRefusal::Test(*fault),
        }
    }
}
