//! Reading stages, the last clause, and a book.

ghost use Rattle.std.specs.Prelude.{drop, map, IfOk, IsTrue};
ghost use Rattle.sl_law_meaning.specs.book.Trees.{stage_of};
ghost use Rattle.sl_law_meaning.specs.book.Limits.{is_within_limits};
ghost use Rattle.sl_parse.specs.inner.Reading.{Gives, read_stage, read_stages, read_last, read_book};
ghost use Rattle.sl_law_meaning.specs.book.Books.{book_of};
ghost use Rattle.sl_parse.specs.Parsing.{limits};

use crate::fault::{Cause, Stop};
use crate::token::Parser;
use sl_law_meaning::{Book, LastClause, MAX_DEPTH, MAX_PARTS, MAX_STAGES, Stage};
use sl_lex::{Keyword, Kind, Mark};

impl<'a> Parser<'a> {
    #[tactic(auto, unfolding(crate::specs::inner::Reading::read_stage))]
    fn stage(&self, at: usize) -> Result<(Stage, usize), Stop>
        ensures { let all = self.now.tokens.now in
            Gives all (λ x. (stage_of x.0, drop x.1 all)) result
            (read_stage self.now.text.now limits (drop at all)) }
    {
        let at = self.keyword(Keyword::Stage, at)?;
        let ((name, start), at) = self.name(at)?;
        let at = self.mark(Mark::Equals, at)?;
        let (expr, _, at) = self.expr(MAX_DEPTH, MAX_PARTS, at)?;
        let at = self.mark(Mark::Semicolon, at)?;
        Ok((
            Stage {
                name,
                at: start,
                expr,
            },
            at,
        ))
    }

    fn stages(&self, at: usize) -> Result<(Vec<Stage>, usize), Stop>
        ensures gives { let all = self.now.tokens.now in
            Gives all (λ x. (map stage_of x.0.items, drop x.1 all)) result
            (read_stages self.now.text.now limits limits.stages (drop at all)) }
        ensures within { IfOk result (λ x. IsTrue (is_within_limits (map stage_of x.0.items))) }
    {
        let mut stages = Vec::new(self.alloc);
        let mut at = at;
        'each: while self.is_next(Kind::Keyword(Keyword::Stage), at) {
            if stages.len() == MAX_STAGES {
                return Err(Stop::At(Cause::TooManyStages, at));
            }
            let (stage, next) = self.stage(at)?;
            stages.push(stage)?;
            at = next;
        }
        Ok((stages, at))
    }

    #[tactic(auto, unfolding(crate::specs::inner::Reading::read_last))]
    fn last(&self, at: usize) -> Result<(LastClause, usize), Stop>
        ensures { let all = self.now.tokens.now in
            Gives all (λ x. (x.0, drop x.1 all)) result
            (read_last self.now.text.now (drop at all)) }
    {
        let at = self.keyword(Keyword::Seats, at)?;
        let ((base, start), at) = self.base(at)?;
        let (seating, at) = self.seating(at)?;
        let (vacate, at) = self.vacate(at)?;
        let at = self.mark(Mark::Semicolon, at)?;
        Ok((
            LastClause {
                base,
                at: start,
                seating,
                vacate,
            },
            at,
        ))
    }

    #[tactic(auto, unfolding(crate::specs::inner::Reading::read_book, crate::specs::inner::Reading::read_front))]
    pub fn book(&self) -> Result<Book, Stop>
        ensures { Gives self.now.tokens.now book_of result (read_book self.now.text.now limits self.now.tokens.now) }
    {
        let (head, at) = self.head(0)?;
        let (stages, at) = self.stages(at)?;
        let (last, at) = self.last(at)?;
        if self.peek(at).is_some() {
            return Err(Stop::At(Cause::After, at));
        }
        Ok(Book {
            version: head.version,
            law: head.law,
            house: head.house,
            eligible: head.eligible,
            stages,
            last,
        })
    }
}
