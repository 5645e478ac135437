//! Reading what stands before the stages.

ghost use Rattle.std.specs.Prelude.{drop};
ghost use Rattle.sl_parse.specs.inner.Reading.{Gives, read_valid, read_winners, read_condition, read_conditions, read_head};

use crate::fault::{Cause, Stop};
use crate::token::Parser;
use sl_law_meaning::{Cond, Number};
use sl_lex::{Keyword, Kind, Mark};

/// What stands before the stages.
#[derive(Drop)]
pub(crate) struct Head {
    pub version: Number,
    pub law: Vec<u8>,
    pub house: Number,
    pub eligible: Vec<Cond>,
}

impl<'a> Parser<'a> {
    ghost use Rattle.sl_parse.specs.inner.Views.{head_tree};

    #[tactic(auto, unfolding(crate::specs::inner::Reading::read_condition, crate::specs::inner::Reading::read_condition_at))]
    fn condition(&self, at: usize) -> Result<(Cond, usize), Stop>
        ensures { let all = self.now.tokens.now in
            Gives all (λ x. (x.0, drop x.1 all)) result
            (read_condition (drop at all)) }
    {
        let Some(token) = self.peek(at) else {
            return Err(Stop::At(Cause::Expected, at));
        };
        match token.kind {
            Kind::Keyword(Keyword::Valid) => self.valid(at + 1),
            Kind::Keyword(Keyword::Winners) => self.winners(at + 1),
            Kind::Keyword(Keyword::Minority) => Ok((Cond::Minority, at + 1)),
            Kind::Keyword(Keyword::All) => Ok((Cond::All, at + 1)),
            _ => Err(Stop::At(Cause::Expected, at)),
        }
    }

    /// What follows `valid`.
    #[tactic(auto, unfolding(crate::specs::inner::Reading::read_valid))]
    fn valid(&self, at: usize) -> Result<(Cond, usize), Stop>
        ensures { let all = self.now.tokens.now in
            Gives all (λ x. (x.0, drop x.1 all)) result
            (read_valid (drop at all)) }
    {
        let at = self.keyword(Keyword::At, at)?;
        let at = self.keyword(Keyword::Least, at)?;
        let (share, at) = self.number(at)?;
        let at = self.keyword(Keyword::Per, at)?;
        let (per, at) = self.number(at)?;
        Ok((
            Cond::Valid {
                share,
                per: per.value,
            },
            at,
        ))
    }

    /// What follows `winners`.
    #[tactic(auto, unfolding(crate::specs::inner::Reading::read_winners))]
    fn winners(&self, at: usize) -> Result<(Cond, usize), Stop>
        ensures { let all = self.now.tokens.now in
            Gives all (λ x. (x.0, drop x.1 all)) result
            (read_winners (drop at all)) }
    {
        let at = self.keyword(Keyword::At, at)?;
        let at = self.keyword(Keyword::Least, at)?;
        let (least, at) = self.number(at)?;
        Ok((Cond::Winners { least: least.value }, at))
    }

    /// Conditions with `or` between them.
    fn conditions(&self, at: usize) -> Result<(Vec<Cond>, usize), Stop>
        ensures { let all = self.now.tokens.now in
            Gives all (λ x. (x.0.items, drop x.1 all)) result
            (read_conditions (drop at all)) }
    {
        let mut conditions = Vec::new(self.alloc);
        let (first, mut at) = self.condition(at)?;
        conditions.push(first)?;
        'each: while self.is_next(Kind::Keyword(Keyword::Or), at) {
            let next = self.keyword(Keyword::Or, at)?;
            let (condition, next) = self.condition(next)?;
            conditions.push(condition)?;
            at = next;
        }
        Ok((conditions, at))
    }

    #[tactic(auto, unfolding(crate::specs::inner::Reading::read_head))]
    pub fn head(&self, at: usize) -> Result<(Head, usize), Stop>
        ensures { let all = self.now.tokens.now in
            Gives all (λ x. (head_tree x.0, drop x.1 all)) result
            (read_head self.now.text.now (drop at all)) }
    {
        let at = self.keyword(Keyword::Rulebook, at)?;
        let (version, at) = self.number(at)?;
        let at = self.mark(Mark::Semicolon, at)?;
        let at = self.keyword(Keyword::Law, at)?;
        let (law, at) = self.quoted(at)?;
        let at = self.mark(Mark::Semicolon, at)?;
        let at = self.keyword(Keyword::House, at)?;
        let (house, at) = self.number(at)?;
        let at = self.mark(Mark::Semicolon, at)?;
        let at = self.keyword(Keyword::Eligible, at)?;
        let (eligible, at) = self.conditions(at)?;
        let at = self.mark(Mark::Semicolon, at)?;
        Ok((
            Head {
                version,
                law,
                house,
                eligible,
            },
            at,
        ))
    }
}
