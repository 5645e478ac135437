//! Cuts a text into its pieces, from the front.

ghost use Rattle.std.specs.Prelude.{◌≡◌, ◌<◌, ◌≤◌, length, All, IfOk, IfErr, IfSome, IfNone};
ghost use Rattle.std.specs.List.{prefix_len, position_or_len};
ghost use Rattle.std.specs.Char.{is_ascii_digit};
ghost use Rattle.memchr.specs.Find.{is_byte};
ghost use Rattle.sl_lex.specs.Pieces.{IsDigit, IsLetter};
ghost use Rattle.sl_lex.specs.inner.Scan.{IsOfClass, is_word_byte, is_text_byte, BeginsWith, IsFront};
ghost use Rattle.sl_lex.specs.Tokens.{number_of, ShowsAt, AreTokens, IsRefusal};

use crate::fault::LexFault;
use crate::keyword::Keyword;
use crate::token::{Kind, Mark, Token};
use memchr::memchr;
use sl_base_quotients::{MAX_NAME_BYTES, MAX_NUMBER};
use std::alloc::Global;

/// What a byte may begin.
#[derive(Clone, Copy)]
enum Class {
    Blank,
    Hash,
    Letter,
    Digit,
    Quote,
    Mark(Mark),
    Other,
}

/// The piece at the front of some bytes: what token it is, if it is one, and how many bytes it has.
#[derive(Clone, Copy)]
struct Front {
    kind: Option<Kind>,
    len: usize,
}

fn class_of(byte: u8) -> Class
    ensures { IsOfClass result byte }
{
    match byte {
        b' ' | b'\t' | b'\r' | b'\n' => Class::Blank,
        b'#' => Class::Hash,
        b'A'..=b'Z' | b'a'..=b'z' => Class::Letter,
        b'0'..=b'9' => Class::Digit,
        b'"' => Class::Quote,
        b';' => Class::Mark(Mark::Semicolon),
        b'=' => Class::Mark(Mark::Equals),
        b',' => Class::Mark(Mark::Comma),
        b'(' => Class::Mark(Mark::Open),
        b')' => Class::Mark(Mark::Close),
        _ => Class::Other,
    }
}

fn is_word_byte(byte: u8) -> bool
    ensures { result ≡ is_word_byte byte }
{
    byte.is_ascii_alphanumeric() || byte == b'_'
}

/// Whether the byte may stand between quotes.
fn is_text_byte(byte: u8) -> bool
    ensures { result ≡ is_text_byte byte }
{
    matches!(byte, 0x20..=0x7E) && byte != b'"'
}

fn word_len(here: &[u8]) -> usize
    ensures { result ≡ prefix_len is_word_byte here.now }
{
    here.iter().take_while(|byte| is_word_byte(**byte)).count()
}

fn digits_len(here: &[u8]) -> usize
    ensures { result ≡ prefix_len is_ascii_digit here.now }
{
    here.iter().take_while(|byte| byte.is_ascii_digit()).count()
}

/// A comment ends before the next line feed.
fn comment_len(here: &[u8]) -> usize
    ensures { result ≡ position_or_len (is_byte 10) here.now }
{
    memchr(b'\n', here).unwrap_or(here.len())
}

/// How many bytes of a text stand at the front.
fn inner_len(behind: &[u8]) -> usize
    ensures { result ≡ prefix_len is_text_byte behind.now }
{
    behind
        .iter()
        .take_while(|byte| is_text_byte(**byte))
        .count()
}

/// The number that digits spell; `None` if it is above the greatest.
fn number_of(digits: &[u8]) -> Option<u32>
    requires { All IsDigit digits.now }
    ensures within { IfSome result (λ n. (n ≡ number_of digits.now) × (n ≤ MAX_NUMBER)) }
    ensures above { IfNone result (MAX_NUMBER < number_of digits.now) }
{
    let mut number = 0u64;
    for digit in digits {
        number = 10 * number + u64::from(digit - b'0');
        if number > u64::from(MAX_NUMBER) {
            return None;
        }
    }
    Some(number as u32)
}

/// The word at the front.
fn word(here: &[u8], at: usize) -> Result<Front, LexFault>
    requires { BeginsWith IsLetter here.now }
    ensures ok { IfOk result (λ f. IsFront here.now f.kind f.len) }
    ensures err { IfErr result (ShowsAt at here.now) }
{
    let len = word_len(here);
    if len > MAX_NAME_BYTES {
        return Err(LexFault::LongName(at));
    }
    let kind = match Keyword::from_word(&here[..len]) {
        Some(keyword) => Kind::Keyword(keyword),
        None => Kind::Name,
    };
    Ok(Front {
        kind: Some(kind),
        len,
    })
}

/// The number at the front.
fn number(here: &[u8], at: usize) -> Result<Front, LexFault>
    requires { BeginsWith IsDigit here.now }
    ensures ok { IfOk result (λ f. IsFront here.now f.kind f.len) }
    ensures err { IfErr result (ShowsAt at here.now) }
{
    let len = digits_len(here);
    let Some(number) = number_of(&here[..len]) else {
        return Err(LexFault::BigNumber(at));
    };
    Ok(Front {
        kind: Some(Kind::Number(number)),
        len,
    })
}

/// The text at the front.
fn text(here: &[u8], at: usize) -> Result<Front, LexFault>
    requires { BeginsWith (λ b. b ≡ 34) here.now }
    ensures ok { IfOk result (λ f. IsFront here.now f.kind f.len) }
    ensures err { IfErr result (ShowsAt at here.now) }
{
    let behind = &here[1..];
    let inner = inner_len(behind);
    if inner < behind.len() && behind[inner] == b'"' {
        Ok(Front {
            kind: Some(Kind::Text),
            len: inner + 2,
        })
    } else {
        Err(LexFault::OpenString(at))
    }
}

/// The piece at the front of bytes that begin at an offset.
fn piece_at(here: &[u8], at: usize) -> Result<Front, LexFault>
    requires { 0 < length here.now }
    ensures ok { IfOk result (λ f. IsFront here.now f.kind f.len) }
    ensures err { IfErr result (ShowsAt at here.now) }
{
    match class_of(here[0]) {
        Class::Blank => Ok(Front { kind: None, len: 1 }),
        Class::Hash => Ok(Front {
            kind: None,
            len: comment_len(here),
        }),
        Class::Letter => word(here, at),
        Class::Digit => number(here, at),
        Class::Quote => text(here, at),
        Class::Mark(mark) => Ok(Front {
            kind: Some(Kind::Mark(mark)),
            len: 1,
        }),
        Class::Other => Err(LexFault::BadByte(at)),
    }
}

/// The tokens of a text, in order, with the offsets in bytes at which they stand.
///
/// From the front on, the longest piece is cut off again and again: a blank (space, tab, carriage return or line feed), a
/// comment (from `#` on, up to the end of its line), a word (a letter first, and letters, digits and `_` after it), a number
/// (digits, of which the first may be 0), a text (two quotes, with printable ASCII other than a quote between them) or a mark
/// (`;`, `=`, `,`, `(`, `)`). Blanks and comments give no token.
///
/// # Errors
///
/// The first place where this stops, by its offset: [`LexFault::BadByte`] where a byte begins no piece,
/// [`LexFault::OpenString`] at a quote whose text does not end with a quote, [`LexFault::BigNumber`] at a number above [`MAX_NUMBER`],
/// [`LexFault::LongName`] at a word of over [`MAX_NAME_BYTES`] bytes. [`LexFault::NoMemory`] where a token before such a place
/// finds no room in the list.
pub fn lex(alloc: Global, text: &[u8]) -> Result<Vec<Token>, LexFault>
    ensures tokens { IfOk result (λ ts. AreTokens text.now ts.items) }
    ensures fault { IfErr result (IsRefusal text.now) }
{
    let mut tokens = Vec::new(alloc);
    let mut start = 0;
    'pieces: while start < text.len() {
        let piece = piece_at(&text[start..], start)?;
        let end = start + piece.len;
        if let Some(kind) = piece.kind {
            tokens.push(Token { kind, start, end })?;
        }
        start = end;
    }
    Ok(tokens)
}
