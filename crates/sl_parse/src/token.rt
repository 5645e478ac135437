//! Reading one token. Each function takes the number of a token, counted from 0, and hands back that of the one after
//! what it read.

ghost use Rattle.std.specs.Prelude.{◌≡◌, ◌+◌, ◌<◌, ◌^◌, [], ◌∷◌, drop, length, MatchOption};
ghost use Rattle.sl_lex.specs.declared.token.Kind.TheVariants as kinds;
ghost use Rattle.sl_parse.specs.Spans.{AreSpans};
ghost use Rattle.sl_parse.specs.Words.{method_of};
ghost use Rattle.sl_parse.specs.Parsing.{offset};
ghost use Rattle.sl_parse.specs.inner.Reading.{Gives, one, taken, number_in, name_in, quoted_in, axis_in, seating_in, preference_in, method_in, base_in, is_next};

use crate::fault::{Cause, Stop};
use crate::words::keyword_method;
use sl_base_quotients::Method;
use sl_law_meaning::{Axis, Base, Majority, Number, Seating, Word};
use sl_lex::{Keyword, Kind, Mark, Token};
use std::alloc::Global;

/// A text and its tokens.
#[derive(Clone, Copy)]
pub(crate) struct Parser<'a> {
    pub alloc: Global,
    pub text: &'a [u8],
    pub tokens: &'a [Token],
    pub ghost spans: { ∥ AreSpans text.now tokens.now ∥₁ },
}

impl<'a> Parser<'a> {
    pub fn peek(&self, at: usize) -> Option<Token>
        ensures { let rest = drop at self.now.tokens.now in
            MatchOption result (rest ≡ [])
            (λ t. (rest ≡ t ∷ drop (at + 1) self.now.tokens.now) × (at + 1 < 2 ^ 64)) }
    {
        self.tokens.get(at).copied()
    }

    /// Where a token begins, or the length of the text.
    pub fn offset(&self, at: usize) -> usize
        ensures { result ≡ offset (length self.now.text.now) (drop at self.now.tokens.now) }
    {
        match self.peek(at) {
            Some(token) => token.start,
            None => self.text.len(),
        }
    }

    pub fn is_next(&self, kind: Kind, at: usize) -> bool
        ensures { result ≡ is_next kind (drop at self.now.tokens.now) }
    {
        match self.peek(at) {
            Some(token) => token.kind == kind,
            None => false,
        }
    }

    #[tactic(auto, unfolding(crate::specs::inner::Reading::taken))]
    pub fn take(&self, kind: Kind, at: usize) -> Result<usize, Stop>
        ensures { let all = self.now.tokens.now in
            Gives all (λ x. drop x all) result
            (taken kind (drop at all)) }
    {
        match self.peek(at) {
            Some(token) if token.kind == kind => Ok(at + 1),
            _ => Err(Stop::At(Cause::Expected, at)),
        }
    }

    pub fn keyword(&self, keyword: Keyword, at: usize) -> Result<usize, Stop>
        ensures { let all = self.now.tokens.now in
            Gives all (λ x. drop x all) result
            (taken (kinds.Keyword keyword) (drop at all)) }
    {
        self.take(Kind::Keyword(keyword), at)
    }

    pub fn mark(&self, mark: Mark, at: usize) -> Result<usize, Stop>
        ensures { let all = self.now.tokens.now in
            Gives all (λ x. drop x all) result
            (taken (kinds.Mark mark) (drop at all)) }
    {
        self.take(Kind::Mark(mark), at)
    }

    pub fn number(&self, at: usize) -> Result<(Number, usize), Stop>
        ensures { let all = self.now.tokens.now in
            Gives all (λ x. (x.0, drop x.1 all)) result
            (one number_in (drop at all)) }
    {
        match self.peek(at) {
            Some(
                Token {
                    kind: Kind::Number(value),
                    start,
                    ..
                },
            ) => Ok((Number { value, at: start }, at + 1)),
            _ => Err(Stop::At(Cause::Expected, at)),
        }
    }

    /// A name, with the offset of its first byte.
    pub fn name(&self, at: usize) -> Result<((Word, usize), usize), Stop>
        ensures { let all = self.now.tokens.now in
            Gives all (λ x. ((x.0.0, x.0.1), drop x.1 all)) result
            (one (name_in self.now.text.now) (drop at all)) }
    {
        match self.peek(at) {
            Some(token) if token.kind == Kind::Name => {
                let name = Word::new(self.alloc, &self.text[token.start..token.end])?;
                Ok(((name, token.start), at + 1))
            }
            _ => Err(Stop::At(Cause::Expected, at)),
        }
    }

    /// The characters of a text token.
    pub fn quoted(&self, at: usize) -> Result<(Vec<u8>, usize), Stop>
        ensures { let all = self.now.tokens.now in
            Gives all (λ x. (x.0.items, drop x.1 all)) result
            (one (quoted_in self.now.text.now) (drop at all)) }
    {
        match self.peek(at) {
            Some(token) if token.kind == Kind::Text => {
                let inner = &self.text[token.start + 1..token.end - 1];
                Ok((Vec::from_slice(self.alloc, inner)?, at + 1))
            }
            _ => Err(Stop::At(Cause::Expected, at)),
        }
    }

    pub fn axis(&self, at: usize) -> Result<(Axis, usize), Stop>
        ensures { let all = self.now.tokens.now in
            Gives all (λ x. (x.0, drop x.1 all)) result
            (one axis_in (drop at all)) }
    {
        let axis = match self.peek(at) {
            Some(
                Token {
                    kind: Kind::Keyword(Keyword::Party),
                    ..
                },
            ) => Axis::Party,
            Some(
                Token {
                    kind: Kind::Keyword(Keyword::Land),
                    ..
                },
            ) => Axis::Land,
            Some(
                Token {
                    kind: Kind::Keyword(Keyword::All),
                    ..
                },
            ) => Axis::All,
            _ => return Err(Stop::At(Cause::Expected, at)),
        };
        Ok((axis, at + 1))
    }

    pub fn seating(&self, at: usize) -> Result<(Seating, usize), Stop>
        ensures { let all = self.now.tokens.now in
            Gives all (λ x. (x.0, drop x.1 all)) result
            (one seating_in (drop at all)) }
    {
        match self.peek(at) {
            Some(
                Token {
                    kind: Kind::Keyword(Keyword::Keep),
                    ..
                },
            ) => Ok((Seating::Keep, at + 1)),
            Some(
                Token {
                    kind: Kind::Keyword(Keyword::Cover),
                    ..
                },
            ) => Ok((Seating::Cover, at + 1)),
            _ => Err(Stop::At(Cause::Expected, at)),
        }
    }

    /// What a majority clause does.
    pub fn preference(&self, at: usize) -> Result<(Majority, usize), Stop>
        ensures { let all = self.now.tokens.now in
            Gives all (λ x. (x.0, drop x.1 all)) result
            (one preference_in (drop at all)) }
    {
        match self.peek(at) {
            Some(
                Token {
                    kind: Kind::Keyword(Keyword::Prefer),
                    ..
                },
            ) => Ok((Majority::Prefer, at + 1)),
            Some(
                Token {
                    kind: Kind::Keyword(Keyword::Refuse),
                    ..
                },
            ) => Ok((Majority::Refuse, at + 1)),
            _ => Err(Stop::At(Cause::Expected, at)),
        }
    }

    pub fn method(&self, at: usize) -> Result<(Method, usize), Stop>
        ensures { let all = self.now.tokens.now in
            Gives all (λ x. (x.0, drop x.1 all)) result
            (one method_in (drop at all)) }
    {
        match self.peek(at) {
            Some(token) => match method_of(token.kind) {
                Some(method) => Ok((method, at + 1)),
                None => Err(Stop::At(Cause::Expected, at)),
            },
            None => Err(Stop::At(Cause::Expected, at)),
        }
    }

    /// Whose seats the lists have, with the offset of that word.
    pub fn base(&self, at: usize) -> Result<((Base, usize), usize), Stop>
        ensures { let all = self.now.tokens.now in
            Gives all (λ x. ((x.0.0, x.0.1), drop x.1 all)) result
            (one (base_in self.now.text.now) (drop at all)) }
    {
        match self.peek(at) {
            Some(
                Token {
                    kind: Kind::Keyword(Keyword::Winners),
                    start,
                    ..
                },
            ) => Ok(((Base::Winners, start), at + 1)),
            Some(
                Token {
                    kind: Kind::Name,
                    ..
                },
            ) => {
                let ((name, at_name), at) = self.name(at)?;
                Ok(((Base::Stage(name), at_name), at))
            }
            _ => Err(Stop::At(Cause::Expected, at)),
        }
    }
}

// The method that a kind of tokens stands for.
fn method_of(kind: Kind) -> Option<Method>
    ensures { result ≡ method_of kind }
{
    match kind {
        Kind::Keyword(keyword) => keyword_method(keyword),
        _ => None,
    }
}
