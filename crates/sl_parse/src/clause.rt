//! Reading clauses that may be left out.

ghost use Rattle.std.specs.Prelude.{◌≡◌, drop};
ghost use Rattle.sl_parse.specs.inner.Reading.{Gives, is_clause, read_majority, read_refusal, read_vacate};

use crate::fault::Stop;
use crate::token::Parser;
use sl_law_meaning::Majority;
use sl_lex::{Keyword, Kind, Mark};

// The word that leaves seats empty which a list can't fill.
const VACATE: &[u8] = b"vacate";

impl<'a> Parser<'a> {
    /// Whether a comma and then this keyword stand next.
    pub fn is_clause(&self, keyword: Keyword, at: usize) -> bool
        ensures { result ≡ is_clause keyword (drop at self.now.tokens.now) }
    {
        match self.peek(at) {
            Some(token) => {
                token.kind == Kind::Mark(Mark::Comma)
                    && self.is_next(Kind::Keyword(keyword), at + 1)
            }
            None => false,
        }
    }

    /// The majority clause of a split.
    #[tactic(auto, unfolding(crate::specs::inner::Reading::read_majority))]
    pub fn majority(&self, at: usize) -> Result<(Majority, usize), Stop>
        ensures { let all = self.now.tokens.now in
            Gives all (λ x. (x.0, drop x.1 all)) result
            (read_majority (drop at all)) }
    {
        if !self.is_next(Kind::Mark(Mark::Comma), at) {
            return Ok((Majority::Free, at));
        }
        let at = self.mark(Mark::Comma, at)?;
        let at = self.keyword(Keyword::Majority, at)?;
        self.preference(at)
    }

    /// The majority clause of a growth.
    #[tactic(auto, unfolding(crate::specs::inner::Reading::read_refusal))]
    pub fn refusal(&self, at: usize) -> Result<(Majority, usize), Stop>
        ensures { let all = self.now.tokens.now in
            Gives all (λ x. (x.0, drop x.1 all)) result
            (read_refusal (drop at all)) }
    {
        if !self.is_next(Kind::Mark(Mark::Comma), at) {
            return Ok((Majority::Free, at));
        }
        let at = self.mark(Mark::Comma, at)?;
        let at = self.keyword(Keyword::Majority, at)?;
        let at = self.keyword(Keyword::Refuse, at)?;
        Ok((Majority::Refuse, at))
    }

    /// The offset of the word `vacate`, if it stands here.
    #[tactic(auto, unfolding(crate::specs::inner::Reading::read_vacate))]
    pub fn vacate(&self, at: usize) -> Result<(Option<usize>, usize), Stop>
        ensures { let all = self.now.tokens.now in
            Gives all (λ x. (x.0, drop x.1 all)) result
            (read_vacate self.now.text.now (drop at all)) }
    {
        match self.peek(at) {
            Some(token)
                if token.kind == Kind::Name && &self.text[token.start..token.end] == VACATE => {
                Ok((Some(token.start), at + 1))
            }
            _ => Ok((None, at)),
        }
    }
}
