//! Pieces of a text: where a token ends.

ghost use Rattle.std.specs.Prelude.{◌≡◌};
ghost use Rattle.sl_explain_texts.specs.Lines.{line_number};
ghost use Rattle.sl_explain_books.specs.Characters.{character_len, is_front};

use sl_explain_texts::{Span, line_at};

/// Bytes from an offset to another, cut to those of the text.
pub fn span_within(text: &[u8], start: usize, end: usize) -> Span {
    let start = start.min(text.len());
    Span {
        start,
        end: end.max(start).min(text.len()),
    }
}

/// The bytes of a span.
pub fn piece(text: &[u8], span: Span) -> &[u8] {
    text.get(span.start..span.end).unwrap_or(&[])
}

/// The number of the line in which a byte stands, from 1.
pub fn line_number(text: &[u8], at: usize) -> usize
    ensures { result ≡ line_number text.now at }
{
    line_at(text, at).number
}

// Whether so many first bytes are UTF-8.
fn is_front(rest: &[u8], count: usize) -> bool
    ensures { result ≡ is_front rest.now count }
{
    match rest.get(..count) {
        Some(bytes) => std::str::from_utf8(bytes).is_ok(),
        None => false,
    }
}

/// How many bytes the character at the front has: 1 where no character of UTF-8 begins.
pub fn character_len(rest: &[u8]) -> usize
    ensures { result ≡ character_len rest.now }
{
    if is_front(rest, 1) {
        1
    } else if is_front(rest, 2) {
        2
    } else if is_front(rest, 3) {
        3
    } else if is_front(rest, 4) {
        4
    } else {
        1
    }
}

fn word_len(rest: &[u8]) -> usize {
    rest.iter()
        .take_while(|byte| byte.is_ascii_alphanumeric() || **byte == b'_')
        .count()
}

fn digits_len(rest: &[u8]) -> usize {
    rest.iter().take_while(|byte| byte.is_ascii_digit()).count()
}

// A text with its quotes, up to the end of its line at most.
fn quoted_len(rest: &[u8]) -> usize {
    let inner = rest
        .iter()
        .skip(1)
        .take_while(|byte| !matches!(**byte, b'"' | b'\n' | b'\r'))
        .count();
    inner.saturating_add(2)
}

fn token_len(rest: &[u8]) -> usize {
    match rest.first().copied() {
        None => 0,
        Some(b'"') => quoted_len(rest),
        Some(b'0'..=b'9') => digits_len(rest),
        Some(b'A'..=b'Z' | b'a'..=b'z') => word_len(rest),
        Some(_) => character_len(rest),
    }
}

/// The token at an offset, or the character where there is none.
pub fn token_span(text: &[u8], at: usize) -> Span {
    let length = token_len(text.get(at..).unwrap_or(&[]));
    span_within(text, at, at.saturating_add(length))
}
