//! What may stand at a place of a rulebook: the tokens with which a book may go on there.

ghost use Rattle.std.specs.Prelude.{◌≡◌};
ghost use Rattle.sl_lex.specs.Tokens.{sign};

use crate::beginning::{Sort, begins_book};
use crate::pieces::{piece, span_within};
use crate::texts::grammar::{NAME_WORD, NUMBER_WORD, TEXT_WORD};
use sl_base_quotients::NoMemory;
use sl_explain_texts::Speaker;
use sl_lex::{KEYWORDS, Mark, Token};
use std::alloc::Global;

// The sorts that a sentence names before the keywords.
static FIRST: [Sort; 8] = [
    Sort::Mark(Mark::Semicolon),
    Sort::Mark(Mark::Equals),
    Sort::Mark(Mark::Comma),
    Sort::Mark(Mark::Open),
    Sort::Mark(Mark::Close),
    Sort::Number,
    Sort::Text,
    Sort::Name,
];

// The sorts of the tokens of a text that begin before an offset.
fn sorts_before(
    alloc: Global,
    text: &[u8],
    tokens: &[Token],
    at: usize,
) -> Result<Vec<Sort>, NoMemory> {
    let before = tokens.iter().take_while(|token| token.start < at);
    let sorts = before.map(|token| {
        let bytes = piece(text, span_within(text, token.start, token.end));
        Sort::of(token.kind, bytes)
    });
    Ok(sorts.collect(alloc)?)
}

// Adds a sort if a book may go on with it after the sorts before, which are left as they were.
fn add(
    alloc: Global,
    before: &mut Vec<Sort>,
    sort: Sort,
    found: &mut Vec<Sort>,
) -> Result<(), NoMemory> {
    let length = before.len();
    before.push(sort)?;
    let begins = begins_book(alloc, before.as_slice());
    before.truncate(length);
    if begins? {
        found.push(sort)?;
    }
    Ok(())
}

/// The sorts of tokens with which a book may go on at an offset: marks, a number, a text and a name first, then words. The word `vacate` is
/// none of them where any name may stand.
pub fn expected(
    alloc: Global,
    text: &[u8],
    tokens: &[Token],
    at: usize,
) -> Result<Vec<Sort>, NoMemory> {
    let mut before = sorts_before(alloc, text, tokens, at)?;
    let mut found = Vec::new(alloc);
    for sort in &FIRST {
        add(alloc, &mut before, *sort, &mut found)?;
    }
    for keyword in &KEYWORDS {
        add(alloc, &mut before, Sort::Keyword(*keyword), &mut found)?;
    }
    if !found.contains(&Sort::Name) {
        add(alloc, &mut before, Sort::Vacate, &mut found)?;
    }
    Ok(found)
}

// The word that a sort of tokens is, if it is one.
fn word_of(sort: Sort) -> Option<&'static [u8]> {
    match sort {
        Sort::Keyword(keyword) => Some(keyword.spelling().as_bytes()),
        Sort::Vacate => Some(b"vacate"),
        Sort::Mark(_) | Sort::Number | Sort::Text | Sort::Name => None,
    }
}

// The byte that a mark is.
fn sign(mark: Mark) -> &'static [u8]
    ensures { result.now ≡ sign mark }
{
    match mark {
        Mark::Semicolon => b";",
        Mark::Equals => b"=",
        Mark::Comma => b",",
        Mark::Open => b"(",
        Mark::Close => b")",
    }
}

// A sort of tokens as a sentence speaks of it.
fn said(speaker: Speaker, sort: Sort) -> Result<Vec<u8>, NoMemory> {
    match sort {
        Sort::Keyword(keyword) => speaker.quoted(keyword.spelling().as_bytes()),
        Sort::Mark(mark) => speaker.quoted(sign(mark)),
        Sort::Number => speaker.text(&NUMBER_WORD, &[]),
        Sort::Text => speaker.text(&TEXT_WORD, &[]),
        Sort::Name => speaker.text(&NAME_WORD, &[]),
        Sort::Vacate => speaker.quoted(b"vacate"),
    }
}

/// The sorts of tokens in a row, with an `or` before the last.
pub fn listed(speaker: Speaker, sorts: &[Sort]) -> Result<Vec<u8>, NoMemory> {
    let mut words = Vec::new(speaker.alloc);
    for sort in sorts {
        words.push(said(speaker, *sort)?)?;
    }
    speaker.one_of(words.as_slice())
}

/// The words among the sorts of tokens.
pub fn words(alloc: Global, sorts: &[Sort]) -> Result<Vec<&'static [u8]>, NoMemory> {
    Ok(sorts.iter().copied().filter_map(word_of).collect(alloc)?)
}
