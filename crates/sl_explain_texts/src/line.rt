//! Lines and columns of a text, as an editor counts them.

ghost use Rattle.std.specs.Prelude.{◌≡◌, ◌<◌, length};
ghost use Rattle.sl_explain_texts.specs.Lines.{byte_at, column_of, ends_line, line_number, line_start, line_text};

use crate::parts::{first_line, from, until};
use crate::shown::shown_count;

/// A line of a text, without its end, and a place in it.
#[derive(Clone, Copy)]
pub struct Line<'a> {
    /// Its number, from 1; empty lines count.
    pub number: usize,
    /// The column of the place in characters, from 1.
    pub column: usize,
    /// The offset of its first byte.
    pub start: usize,
    pub text: &'a [u8],
}

// The byte at an offset, 0 past the end.
fn byte_at(text: &[u8], at: usize) -> u8
    ensures { result ≡ byte_at text.now at }
{
    text.get(at).copied().unwrap_or(0)
}

// Whether a line ends at this offset: at LF, and at a CR that no LF follows.
fn ends_line(text: &[u8], at: usize) -> bool
    requires { at < length text.now }
    ensures { result ≡ ends_line text.now at }
{
    let byte = byte_at(text, at);
    byte == b'\n' || byte == b'\r' && byte_at(text, at + 1) != b'\n'
}

/// The line in which the byte at that offset stands. An offset after the text stands at its end.
pub fn line_at(text: &[u8], at: usize) -> Line<'_>
    ensures number { result.number ≡ line_number text.now at }
    ensures start { result.start ≡ line_start text.now at }
    ensures text { result.text.now ≡ line_text text.now at }
    ensures column { result.column ≡ column_of text.now at }
{
    let mut number = 1usize;
    let mut start = 0usize;
    for place in 0..at.min(text.len()) {
        if ends_line(text, place) {
            number += 1;
            start = place + 1;
        }
    }
    let rest = from(text, start);
    let line = first_line(rest);
    let before = until(rest, at.saturating_sub(start));
    Line {
        number,
        column: shown_count(line, before).saturating_add(1),
        start,
        text: line,
    }
}
