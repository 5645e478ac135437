//! Books that are too long, and expressions and stages that are too many.

ghost use Rattle.std.specs.Prelude.{◌≡◌, IfOk, Some};
ghost use Rattle.sl_explain_texts.specs.Messages.{IsSaidBy};
ghost use Rattle.sl_explain_texts.specs.declared.code.FaultCode.TheVariants.{B02, B07, B08, B09};

use crate::pieces::token_span;
use crate::texts::grammar as texts;
use sl_base_quotients::NoMemory;
use sl_explain_texts::{Explainer, Explanation, FaultCode, Language, Sentence, Speaker};
use sl_law_meaning::{MAX_DEPTH, MAX_PARTS, MAX_STAGES};
use sl_lex::{Keyword, Kind, Mark, Token};
use std::alloc::Global;

/// Explains a book that has too many bytes.
pub fn explain_long_book(alloc: Global, language: Language) -> Result<Explanation, NoMemory>
    ensures { IfOk result (λ x. x.code ≡ Some B02) }
{
    let explainer = Speaker { alloc, language }.says(&texts::LONG_BOOK, &[]);
    explainer.helped(&texts::LONG_BOOK_REMEDY, &[]).finished()
}

// The level after a token, by that before it: a stage begins at level 1.
fn level_after(kind: Kind, level: usize) -> usize {
    match kind {
        Kind::Keyword(Keyword::Stage) => 1,
        Kind::Mark(Mark::Open) => level.saturating_add(1),
        Kind::Mark(Mark::Close) => level.saturating_sub(1),
        _ => level,
    }
}

// The level of an expression at an offset: one more than there are parentheses open in its stage.
fn level_at(tokens: &[Token], at: usize) -> usize {
    let before = tokens.iter().take_while(|token| token.start < at);
    before.fold(1, |level, token| level_after(token.kind, level))
}

// More of something than there may be: the sentence has up to two numbers.
fn say_more(
    speaker: Speaker,
    text: &[u8],
    at: usize,
    sentence: &Sentence,
    numbers: (usize, usize),
) -> Result<Explainer, NoMemory>
    requires { IsSaidBy sentence.now 2 }
    ensures { IfOk result (λ x. x.code ≡ Some sentence.now.0) }
{
    let first = speaker.number(numbers.0)?;
    let second = speaker.number(numbers.1)?;
    let values = [first.as_slice(), second.as_slice()];
    Ok(speaker.says_at(sentence, &values, token_span(text, at)))
}

/// An expression too many levels down, or one too many in its stage.
pub fn explain_depth(
    speaker: Speaker,
    text: &[u8],
    tokens: &[Token],
    at: usize,
) -> Result<Explainer, NoMemory>
    ensures { IfOk result (λ x. x.code ≡ Some B08) }
{
    let (level, most) = (level_at(tokens, at), MAX_DEPTH as usize);
    let explainer = if level > most {
        say_more(speaker, text, at, &texts::TOO_DEEP, (level, most))?
    } else {
        let parts = MAX_PARTS as usize;
        say_more(speaker, text, at, &texts::TOO_MANY_PARTS, (parts, 0))?
    };
    Ok(explainer.helped(&texts::PARTS_REMEDY, &[]))
}

/// An expression that is missing where there is no room for it.
pub fn explain_no_room(speaker: Speaker, text: &[u8], at: usize) -> Result<Explainer, NoMemory>
    ensures { IfOk result (λ x. x.code ≡ Some B07) }
{
    let numbers = (MAX_DEPTH as usize, MAX_PARTS as usize);
    let explainer = say_more(speaker, text, at, &texts::NO_ROOM, numbers)?;
    Ok(explainer.helped(&texts::PARTS_REMEDY, &[]))
}

/// A stage too many.
pub fn explain_stages(speaker: Speaker, text: &[u8], at: usize) -> Result<Explainer, NoMemory>
    ensures { IfOk result (λ x. x.code ≡ Some B09) }
{
    let numbers = (MAX_STAGES, 0);
    let explainer = say_more(speaker, text, at, &texts::TOO_MANY_STAGES, numbers)?;
    Ok(explainer.helped(&texts::STAGES_REMEDY, &[]))
}
