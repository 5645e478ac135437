//! Tokens and their kinds.

use crate::keyword::Keyword;

/// A mark of one byte: `;` `=` `,` `(` `)`.
#[derive(Clone, Copy, PartialEq, Eq)]
pub enum Mark {
    Semicolon,
    Equals,
    Comma,
    Open,
    Close,
}

/// What a token is. A name is a word that is no keyword; a text stands between two quotes.
#[derive(Clone, Copy, PartialEq, Eq)]
pub enum Kind {
    Keyword(Keyword),
    Name,
    Number(u32),
    Text,
    Mark(Mark),
}

/// A token, and where it stands: the offset of its first byte, and that after its last one.
#[derive(Clone, Copy)]
pub struct Token {
    pub kind: Kind,
    pub start: usize,
    pub end: usize,
}
