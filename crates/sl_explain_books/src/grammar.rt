//! Why tokens are no rulebook, explained.

ghost use Rattle.std.specs.Prelude.{◌≡◌, IfOk, Some};
ghost use Rattle.sl_explain_texts.specs.Explainers.{Keeps};
ghost use Rattle.sl_explain_texts.specs.Messages.{IsFilledBy};
ghost use Rattle.sl_explain_texts.specs.declared.code.FaultCode.TheVariants.{B07, B10};
ghost use Rattle.sl_explain_books.specs.Codes.{grammar_code};

mod contexts;
mod going_on;
pub mod limits;

use crate::beginning::Sort;
use crate::meant::{is_droop, keyword_of, method_of};
use crate::near::help_nearest_or;
use crate::pieces::{line_number, piece, span_within, token_span};
use crate::texts::grammar as texts;
use crate::texts::meant::{METHOD, NO_METHOD};
use crate::whole::explain_whole;
use contexts::remedy;
use going_on::{expected, listed, words};
use limits::{explain_depth, explain_no_room, explain_stages};
use sl_base_quotients::NoMemory;
use sl_explain_texts::{Explainer, Explanation, FaultCode, Language, Message, Speaker};
use sl_lex::{Keyword, Kind, Mark, Token};
use sl_parse::{ParseFault, keyword_method};
use std::alloc::Global;

// The words that begin a form.
const FORM_WORDS: [&[u8]; 5] = [b"sum", b"larger", b"less", b"split", b"grow"];

// The last token that ends before an offset or at it.
fn token_before(tokens: &[Token], at: usize) -> Option<Token> {
    let mut behind = tokens.iter().copied().rev();
    behind.find(|token| token.end <= at)
}

// The token that begins at an offset.
fn token_from(tokens: &[Token], at: usize) -> Option<Token> {
    tokens.iter().copied().find(|token| token.start == at)
}

// A place at which the book does not go on, and the sorts of tokens with which it may.
#[derive(Clone, Copy)]
struct Place<'a> {
    speaker: Speaker,
    text: &'a [u8],
    sorts: &'a [Sort],
}

impl<'a> Place<'a> {
    // Whether a mark may stand there.
    fn takes(&self, mark: Mark) -> bool {
        self.sorts.contains(&Sort::Mark(mark))
    }

    // The text ends too early.
    fn explain_end(&self, before: Option<Token>) -> Result<Explainer, NoMemory>
        ensures { IfOk result (λ x. x.code ≡ Some B07) }
    {
        let remedy = remedy(self.sorts);
        let Some(before) = before else {
            let span = span_within(self.text, 0, 0);
            let explainer = self.speaker.says_at(&texts::NO_CLAUSE, &[], span);
            return Ok(explainer.helped(remedy, &[]));
        };
        if self.takes(Mark::Semicolon) {
            return Ok(self.explain_semicolon(before));
        }
        let list = listed(self.speaker, self.sorts)?;
        let span = span_within(self.text, before.end, before.end);
        let explainer = self
            .speaker
            .says_at(&texts::ENDED, &[list.as_slice()], span);
        Ok(explainer.helped(remedy, &[]))
    }

    // Whether a `;` is missing before a word: a new clause begins, or a new line.
    fn misses_semicolon(&self, before: Token, token: Token) -> bool {
        if !self.takes(Mark::Semicolon) {
            return false;
        }
        match token.kind {
            Kind::Keyword(
                Keyword::Law | Keyword::House | Keyword::Eligible | Keyword::Stage | Keyword::Seats,
            ) => true,
            Kind::Keyword(_) | Kind::Name => {
                line_number(self.text, before.end) < line_number(self.text, token.start)
            }
            Kind::Number(_) | Kind::Text | Kind::Mark(_) => false,
        }
    }

    // A `;` is missing after a token.
    fn explain_semicolon(&self, before: Token) -> Explainer
        ensures { result.code ≡ Some B07 }
    {
        let word = piece(self.text, span_within(self.text, before.start, before.end));
        let span = span_within(self.text, before.end, before.end);
        self.speaker
            .says_at(&texts::NO_SEMICOLON, &[word], span)
            .helped(&texts::SEMICOLON, &[])
    }

    // Whether a name stands before a `(` as if it were a form.
    fn is_form(&self, before: Token, token: Token) -> bool {
        token.kind == Kind::Mark(Mark::Open)
            && before.kind == Kind::Name
            && (self.takes(Mark::Semicolon) || self.takes(Mark::Comma) || self.takes(Mark::Close))
    }

    // A name stands there as if it were a form.
    fn explain_form(&self, before: Token) -> Result<Explainer, NoMemory>
        ensures { IfOk result (λ x. x.code ≡ Some B07) }
    {
        let span = span_within(self.text, before.start, before.end);
        let word = piece(self.text, span);
        let mut explainer = self.speaker.says_at(&texts::NO_FORM, &[word], span);
        help_nearest_or(&mut explainer, word, &FORM_WORDS, &texts::FORMS_EXPLAINED)?;
        Ok(explainer)
    }

    // What to write in place of a token.
    fn found_remedy(&self, before: Option<Token>, kind: Kind) -> &'static Message
        ensures { IsFilledBy result.now 0 }
    {
        match (before.map(|token| token.kind), kind) {
            (_, Kind::Mark(Mark::Close)) if self.takes(Mark::Semicolon) => &texts::SURPLUS,
            (Some(Kind::Mark(Mark::Semicolon)), Kind::Mark(Mark::Semicolon)) => &texts::DOUBLE,
            (Some(Kind::Keyword(Keyword::Prefer | Keyword::Refuse)), Kind::Mark(Mark::Comma)) =>
                &texts::OPTIONS,
            (Some(Kind::Keyword(Keyword::Atleast)), Kind::Number(_)) => &texts::MINIMA,
            (_, Kind::Keyword(word)) if keyword_method(word).is_some() => &texts::FORMS_LISTED,
            _ => remedy(self.sorts),
        }
    }

    // Says what is meant by a word that is none of the language: a method by another name, or another word that may stand there, or is near.
    fn help_word(
        &self,
        explainer: &mut Explainer,
        word: &[u8],
        remedy: &Message,
    ) -> Result<(), NoMemory>
        requires { IsFilledBy remedy.now 0 }
        ensures { Keeps explainer.old explainer.new }
    {
        let keywords = words(self.speaker.alloc, self.sorts)?;
        let takes_method = keywords.contains(&b"webster".as_slice());
        match (method_of(word), keyword_of(word)) {
            _ if takes_method && is_droop(word) => explainer.helps(&NO_METHOD, &[]),
            (Some(method), _) if takes_method => explainer.helps(&METHOD, &[method]),
            (_, Some(keyword)) if keywords.contains(&keyword) => explainer.helps_meant(keyword),
            _ => help_nearest_or(explainer, word, keywords.as_slice(), remedy)?,
        }
        Ok(())
    }

    // A token stands where others are expected.
    fn explain_found(&self, before: Option<Token>, token: Token) -> Result<Explainer, NoMemory>
        ensures { IfOk result (λ x. x.code ≡ Some B07) }
    {
        let span = token_span(self.text, token.start);
        let word = piece(self.text, span);
        let remedy = self.found_remedy(before, token.kind);
        let list = listed(self.speaker, self.sorts)?;
        let values = [piece(self.text, span), list.as_slice()];
        let mut explainer = self.speaker.says_at(&texts::FOUND, &values, span);
        match token.kind {
            Kind::Name => self.help_word(&mut explainer, word, remedy)?,
            Kind::Keyword(_) if self.sorts == [Sort::Name].as_slice() => {
                explainer.helps(&texts::RESERVED, &[word])
            }
            Kind::Keyword(_) | Kind::Number(_) | Kind::Text | Kind::Mark(_) => {
                explainer.helps(remedy, &[])
            }
        }
        Ok(explainer)
    }

    // What stands at the place, or that nothing stands there.
    fn explain(&self, tokens: &[Token], at: usize) -> Result<Explainer, NoMemory>
        ensures { IfOk result (λ x. x.code ≡ Some B07) }
    {
        if self.sorts.is_empty() {
            return explain_no_room(self.speaker, self.text, at);
        }
        let before = token_before(tokens, at);
        let Some(token) = token_from(tokens, at) else {
            return self.explain_end(before);
        };
        match before {
            Some(before) if self.is_form(before, token) => self.explain_form(before),
            Some(before) if self.misses_semicolon(before, token) => {
                Ok(self.explain_semicolon(before))
            }
            Some(_) | None => self.explain_found(before, token),
        }
    }
}

// No book goes on with what stands at an offset.
fn explain_expected(
    speaker: Speaker,
    text: &[u8],
    tokens: &[Token],
    at: usize,
) -> Result<Explainer, NoMemory>
    ensures { IfOk result (λ x. x.code ≡ Some B07) }
{
    let sorts = expected(speaker.alloc, text, tokens, at)?;
    let sorts = sorts.as_slice();
    Place {
        speaker,
        text,
        sorts,
    }
    .explain(tokens, at)
}

// Something stands after the last clause.
fn explain_after(speaker: Speaker, text: &[u8], tokens: &[Token], at: usize) -> Explainer
    ensures { result.code ≡ Some B10 }
{
    let span = token_span(text, at);
    let remedy = match token_from(tokens, at).map(|token| token.kind) {
        Some(Kind::Keyword(Keyword::Stage)) => &texts::AFTER_STAGE,
        Some(Kind::Keyword(Keyword::Rulebook)) => &texts::AFTER_BOOK,
        Some(_) | None => &texts::AFTER_OTHER,
    };
    let explainer = speaker.says_at(&texts::AFTER, &[piece(text, span)], span);
    explainer.helped(remedy, &[])
}

// What is wrong at an offset.
fn explain_place(
    speaker: Speaker,
    text: &[u8],
    tokens: &[Token],
    fault: ParseFault,
) -> Result<Explainer, NoMemory>
    ensures { IfOk result (λ x. x.code ≡ grammar_code fault) }
{
    match fault {
        ParseFault::Expected(at) => explain_expected(speaker, text, tokens, at),
        ParseFault::TooDeep(at) => explain_depth(speaker, text, tokens, at),
        ParseFault::TooManyStages(at) => explain_stages(speaker, text, at),
        ParseFault::After(at) => Ok(explain_after(speaker, text, tokens, at)),
        ParseFault::NoMemory => Err(NoMemory),
    }
}

// The code of a fault of the grammar.
fn code_of(fault: ParseFault) -> Option<FaultCode>
    ensures { result ≡ grammar_code fault }
{
    match fault {
        ParseFault::Expected(_) => Some(FaultCode::B07),
        ParseFault::TooDeep(_) => Some(FaultCode::B08),
        ParseFault::TooManyStages(_) => Some(FaultCode::B09),
        ParseFault::After(_) => Some(FaultCode::B10),
        ParseFault::NoMemory => None,
    }
}

/// Explains why the tokens of a text are no rulebook.
pub fn explain_grammar(
    alloc: Global,
    language: Language,
    text: &[u8],
    tokens: &[Token],
    fault: ParseFault,
) -> Result<Explanation, NoMemory>
    ensures { IfOk result (λ x. x.code ≡ grammar_code fault) }
{
    let speaker = Speaker { alloc, language };
    let code = code_of(fault).ok_or(NoMemory)?;
    match explain_whole(speaker, text, code) {
        Some(explainer) => explainer.finished(),
        None => explain_place(speaker, text, tokens, fault)?.finished(),
    }
}
