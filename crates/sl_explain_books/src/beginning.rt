//! How a book may begin.

ghost use Rattle.std.specs.Prelude.{◌≡◌, ◌↔◌, map, IfOk, IsTrue};
ghost use Rattle.sl_explain_books.specs.Beginnings.{example_of, sort_of, AreBeginning};

use sl_base_quotients::NoMemory;
use sl_lex::{Keyword, Kind, Mark, Token};
use sl_parse::{ParseFault, parse_spans};
use std::alloc::Global;

/// Tokens that the grammar does not tell apart. The word `vacate` is a name that may stand where no other name may.
#[derive(Clone, Copy, PartialEq, Eq)]
pub enum Sort {
    Keyword(Keyword),
    Mark(Mark),
    Number,
    Text,
    Name,
    Vacate,
}

// The word that is a name and may stand where no other name may.
const VACATE: &[u8] = b"vacate";

// A text in quotes, in which a name and the word `vacate` stand.
const EXAMPLES: &[u8] = b"\"vacate\"";

impl Sort {
    /// The sort of a token of this kind, with these bytes.
    pub fn of(kind: Kind, bytes: &[u8]) -> Sort
        ensures { result ≡ sort_of kind bytes.now }
    {
        match kind {
            Kind::Keyword(keyword) => Sort::Keyword(keyword),
            Kind::Mark(mark) => Sort::Mark(mark),
            Kind::Number(_) => Sort::Number,
            Kind::Text => Sort::Text,
            Kind::Name if bytes == VACATE => Sort::Vacate,
            Kind::Name => Sort::Name,
        }
    }

    // A token of the sort, with its bytes among the examples.
    fn example(self) -> Token
        ensures { result ≡ example_of self }
    {
        let (kind, start, end) = match self {
            Sort::Keyword(keyword) => (Kind::Keyword(keyword), 1, 2),
            Sort::Mark(mark) => (Kind::Mark(mark), 1, 2),
            Sort::Number => (Kind::Number(1), 1, 2),
            Sort::Text => (Kind::Text, 0, 8),
            Sort::Name => (Kind::Name, 1, 2),
            Sort::Vacate => (Kind::Name, 1, 7),
        };
        Token { kind, start, end }
    }
}

// A token of each of these sorts.
fn examples_of(alloc: Global, sorts: &[Sort]) -> Result<Vec<Token>, NoMemory>
    ensures { IfOk result (λ tokens. tokens.items ≡ map example_of sorts.now) }
{
    let mut tokens = Vec::new(alloc);
    for sort in sorts {
        tokens.push(sort.example())?;
    }
    Ok(tokens)
}

/// Whether a book begins with tokens of these sorts, or is as short as they are.
pub fn begins_book(alloc: Global, sorts: &[Sort]) -> Result<bool, NoMemory>
    ensures { IfOk result (λ begins. IsTrue begins ↔ AreBeginning sorts.now) }
{
    let tokens = examples_of(alloc, sorts)?;
    match parse_spans(alloc, EXAMPLES, tokens.as_slice()) {
        Ok(_) => Ok(true),
        Err(ParseFault::Expected(at)) => Ok(at == EXAMPLES.len()),
        Err(ParseFault::TooDeep(_)) => Ok(false),
        Err(ParseFault::TooManyStages(_)) => Ok(false),
        Err(ParseFault::After(_)) => Ok(false),
        Err(ParseFault::NoMemory) => Err(NoMemory),
    }
}
