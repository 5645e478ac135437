//! Why inputs are refused, and the lines that say so.

ghost use Rattle.std.specs.Prelude.{◌≡◌, ◌∷◌, [], IfOk, codes};
ghost use Rattle.sl_returns.specs.Faults.{fault_number};
ghost use Rattle.sl_count_inputs.specs.Books.{lex_fault, parse_fault, checked_fault};
ghost use Rattle.sl_count_inputs.specs.Refusals.{numbered, refused, refused_at};

use sl_base_quotients::NoMemory;
use sl_check::CheckFault;
use sl_count_texts::Text;
use sl_lex::LexFault;
use sl_parse::ParseFault;
use sl_returns::ReturnsFault;
use std::alloc::Global;

/// Why a rulebook is refused.
#[derive(Clone, Copy)]
pub enum BookRefusal<'a> {
    /// The library has no book of that name.
    UnknownLaw(&'a str),
    /// The text has too many bytes.
    TooLong,
    /// The text has no tokens.
    Tokens(LexFault),
    /// The tokens are no tree.
    Grammar(ParseFault),
    /// The tree fails a test.
    Test(CheckFault),
}

impl BookRefusal<'_> {
    ghost use Rattle.sl_count_inputs.specs.Books.{book_line};

    /// The line that refuses the book.
    pub fn line(self, alloc: Global) -> Result<Vec<u8>, NoMemory>
        ensures { IfOk result (λ line. line.items ≡ book_line self.entry) }
    {
        match self {
            BookRefusal::UnknownLaw(name) => refused(alloc, b"law", name.as_bytes()),
            BookRefusal::TooLong => refused(alloc, b"book", b"toolong"),
            BookRefusal::Tokens(fault) => refused_by(alloc, b"book", b"lex", lex_fault(fault)),
            BookRefusal::Grammar(fault) => refused_by(alloc, b"book", b"parse", parse_fault(fault)),
            BookRefusal::Test(fault) => refused_by(alloc, b"book", b"check", checked_fault(fault)),
        }
    }
}

/// Why returns are refused.
#[derive(Clone, Copy)]
pub enum ReturnsRefusal {
    /// They have too many bytes.
    TooLong,
    /// The records have a fault.
    Records(ReturnsFault),
}

impl ReturnsRefusal {
    ghost use Rattle.sl_count_inputs.specs.Returns.{returns_line};

    /// The line that refuses the returns.
    pub fn line(self, alloc: Global) -> Result<Vec<u8>, NoMemory>
        ensures { IfOk result (λ line. line.items ≡ returns_line self) }
    {
        match self {
            ReturnsRefusal::TooLong => refused(alloc, b"returns", b"toolong"),
            ReturnsRefusal::Records(fault) => refused_returns(alloc, fault),
        }
    }
}

/// A fault of a rulebook or of a code file by its number, and the offset in bytes, or the number of the instruction, where it shows.
#[derive(Clone, Copy)]
pub struct Numbered {
    pub number: u64,
    pub at: u64,
}

// The number of a fault of the lexer, and its offset.
fn lex_fault(fault: LexFault) -> Numbered
    ensures { result ≡ lex_fault fault }
{
    let (number, at) = match fault {
        LexFault::BadByte(at) => (1, at),
        LexFault::OpenString(at) => (2, at),
        LexFault::BigNumber(at) => (3, at),
        LexFault::LongName(at) => (4, at),
        LexFault::NoMemory => (5, 0),
    };
    Numbered {
        number,
        at: at as u64,
    }
}

// The number of a fault of the parser, and its offset.
fn parse_fault(fault: ParseFault) -> Numbered
    ensures { result ≡ parse_fault fault }
{
    let (number, at) = match fault {
        ParseFault::Expected(at) => (1, at),
        ParseFault::TooDeep(at) => (2, at),
        ParseFault::TooManyStages(at) => (3, at),
        ParseFault::After(at) => (4, at),
        ParseFault::NoMemory => (5, 0),
    };
    Numbered {
        number,
        at: at as u64,
    }
}

// The number of a test that a book fails, and its offset.
fn checked_fault(fault: CheckFault) -> Numbered
    ensures { result ≡ checked_fault fault }
{
    let (number, at) = match fault {
        CheckFault::Version(at) => (1, at),
        CheckFault::HouseRange(at) => (2, at),
        CheckFault::PerRange(at) => (3, at),
        CheckFault::StageTwice(at) => (4, at),
        CheckFault::StageUnknown(at) => (5, at),
        CheckFault::Shape(at) => (6, at),
        CheckFault::Unit(at) => (7, at),
        CheckFault::TwoSplits(at) => (8, at),
        CheckFault::MethodOption(at) => (9, at),
        CheckFault::CapRange(at) => (10, at),
        CheckFault::SeatsShape(at) => (11, at),
    };
    Numbered {
        number,
        at: at as u64,
    }
}

/// The line of a refusal: `refused`, and two words.
pub fn refused(alloc: Global, first: &[u8], second: &[u8]) -> Result<Vec<u8>, NoMemory>
    ensures { IfOk result (λ text. text.items ≡ refused (first.now ∷ second.now ∷ [])) }
{
    let mut text = Text::new(alloc);
    text.word(b"refused")?;
    text.word(first)?;
    text.word(second)?;
    text.end_line()?;
    Ok(text.into_bytes())
}

// A refusal of returns, with the number of the fault and its row.
fn refused_returns(alloc: Global, fault: ReturnsFault) -> Result<Vec<u8>, NoMemory>
    ensures { IfOk result (λ text. text.items ≡ refused_at (codes "returns" ∷ []) (numbered (fault_number fault.kind) fault.row)) }
{
    let mut text = Text::new(alloc);
    text.word(b"refused")?;
    text.word(b"returns")?;
    text.number(u64::from(fault.kind.number()))?;
    text.number(u64::from(fault.row))?;
    text.end_line()?;
    Ok(text.into_bytes())
}

/// The line of a refusal of an input by one of its readers, with the number of the fault and where it shows.
pub fn refused_by(
    alloc: Global,
    input: &[u8],
    reader: &[u8],
    fault: Numbered,
) -> Result<Vec<u8>, NoMemory>
    ensures { IfOk result (λ text. text.items ≡ refused_at (input.now ∷ reader.now ∷ []) fault) }
{
    let mut text = Text::new(alloc);
    text.word(b"refused")?;
    text.word(input)?;
    text.word(reader)?;
    text.number(fault.number)?;
    text.number(fault.at)?;
    text.end_line()?;
    Ok(text.into_bytes())
}
