//! Reading expressions. `levels` and `parts` count the levels and the expressions that the stage still has room for, and
//! what is left of the parts is handed back.

ghost use Rattle.std.specs.Prelude.{drop};
ghost use Rattle.sl_law_meaning.specs.book.Trees.{tree_of, minima_tree};
ghost use Rattle.sl_parse.specs.inner.Reading.{Gives, read_sum, read_two, read_pair, read_division, read_minima, read_split, read_grow, read_node, read_expr};

use crate::fault::{Cause, Stop};
use crate::form::Form;
use crate::token::Parser;
use sl_base_quotients::Method;
use sl_law_meaning::{Expr, Pairing};
use sl_lex::{Keyword, Mark};

/// What was read, the parts that are left, and the token after it.
type Read<T> = Result<(T, u32, usize), Stop>;

/// What is distributed, by which votes and by which method.
#[derive(Drop)]
pub(crate) struct Division {
    pub seats: Box<Expr>,
    pub votes: Box<Expr>,
    pub method: Method,
}

impl<'a> Parser<'a> {
    ghost use Rattle.sl_parse.specs.inner.Views.{division_tree};

    #[cycle(expr)]
    #[tactic(auto, unfolding(crate::specs::inner::Reading::read_expr, crate::specs::inner::Reading::no_room))]
    pub fn expr(&self, levels: u32, parts: u32, at: usize) -> Read<Expr>
        ensures { let all = self.now.tokens.now in
            Gives all (λ x. (tree_of x.0, x.1, drop x.2 all)) result
            (read_expr self.now.text.now levels parts (drop at all)) }
    {
        if levels > 0 && parts > 0 {
            return self.node(levels - 1, parts - 1, at);
        }
        match self.peek(at) {
            Some(token) if Form::of(token.kind).is_some() => Err(Stop::At(Cause::TooDeep, at)),
            _ => Err(Stop::At(Cause::Expected, at)),
        }
    }

    #[cycle(expr)]
    #[tactic(auto, unfolding(crate::specs::inner::Reading::read_node, crate::specs::inner::Reading::read_form))]
    fn node(&self, levels: u32, parts: u32, at: usize) -> Read<Expr>
        ensures { let all = self.now.tokens.now in
            let text = self.now.text.now in
            Gives all (λ x. (tree_of x.0, x.1, drop x.2 all)) result
            (read_node text (read_expr text levels) parts (drop at all)) }
    {
        let Some(token) = self.peek(at) else {
            return Err(Stop::At(Cause::Expected, at));
        };
        let start = token.start;
        match Form::of(token.kind) {
            Some(Form::Fact(fact)) => Ok((Expr::Fact { at: start, fact }, parts, at + 1)),
            Some(Form::Name) => {
                let ((name, at_name), at) = self.name(at)?;
                Ok((Expr::Name { at: at_name, name }, parts, at))
            }
            Some(Form::Sum) => self.sum(levels, parts, start, at + 1),
            Some(Form::Pair(pairing)) => self.pair(levels, parts, pairing, start, at + 1),
            Some(Form::Split) => self.split(levels, parts, start, at + 1),
            Some(Form::Grow) => self.grow(levels, parts, start, at + 1),
            None => Err(Stop::At(Cause::Expected, at)),
        }
    }

    /// An expression on the heap.
    #[cycle(expr)]
    fn boxed(&self, levels: u32, parts: u32, at: usize) -> Read<Box<Expr>>
        ensures { let all = self.now.tokens.now in
            Gives all (λ x. (tree_of x.0.value, x.1, drop x.2 all)) result
            (read_expr self.now.text.now levels parts (drop at all)) }
    {
        let (expr, parts, at) = self.expr(levels, parts, at)?;
        Ok((Box::new(self.alloc, expr)?, parts, at))
    }

    #[cycle(expr)]
    #[tactic(auto, unfolding(crate::specs::inner::Reading::read_sum))]
    fn sum(&self, levels: u32, parts: u32, start: usize, at: usize) -> Read<Expr>
        ensures { let all = self.now.tokens.now in
            Gives all (λ x. (tree_of x.0, x.1, drop x.2 all)) result
            (read_sum (read_expr self.now.text.now levels) start parts (drop at all)) }
    {
        let at = self.mark(Mark::Open, at)?;
        let (of, parts, at) = self.boxed(levels, parts, at)?;
        let at = self.mark(Mark::Comma, at)?;
        let (over, at) = self.axis(at)?;
        let at = self.mark(Mark::Close, at)?;
        Ok((
            Expr::Sum {
                at: start,
                of,
                over,
            },
            parts,
            at,
        ))
    }

    /// Two arguments, up to the end of the second.
    #[cycle(expr)]
    #[tactic(auto, unfolding(crate::specs::inner::Reading::read_two))]
    fn two(&self, levels: u32, parts: u32, at: usize) -> Read<(Box<Expr>, Box<Expr>)>
        ensures { let all = self.now.tokens.now in
            Gives all (λ x. ((tree_of x.0.0.value, tree_of x.0.1.value), x.1, drop x.2 all)) result
            (read_two (read_expr self.now.text.now levels) parts (drop at all)) }
    {
        let at = self.mark(Mark::Open, at)?;
        let (left, parts, at) = self.boxed(levels, parts, at)?;
        let at = self.mark(Mark::Comma, at)?;
        let (right, parts, at) = self.boxed(levels, parts, at)?;
        Ok(((left, right), parts, at))
    }

    #[cycle(expr)]
    #[tactic(auto, unfolding(crate::specs::inner::Reading::read_pair))]
    fn pair(&self, levels: u32, parts: u32, pairing: Pairing, start: usize, at: usize) -> Read<Expr>
        ensures { let all = self.now.tokens.now in
            Gives all (λ x. (tree_of x.0, x.1, drop x.2 all)) result
            (read_pair (read_expr self.now.text.now levels) pairing start parts (drop at all)) }
    {
        let ((left, right), parts, at) = self.two(levels, parts, at)?;
        let at = self.mark(Mark::Close, at)?;
        Ok((
            Expr::Pair {
                at: start,
                pairing,
                left,
                right,
            },
            parts,
            at,
        ))
    }

    #[cycle(expr)]
    #[tactic(auto, unfolding(crate::specs::inner::Reading::read_division))]
    fn division(&self, levels: u32, parts: u32, at: usize) -> Read<Division>
        ensures { let all = self.now.tokens.now in
            Gives all (λ x. (division_tree x.0, x.1, drop x.2 all)) result
            (read_division (read_expr self.now.text.now levels) parts (drop at all)) }
    {
        let ((seats, votes), parts, at) = self.two(levels, parts, at)?;
        let at = self.mark(Mark::Comma, at)?;
        let (method, at) = self.method(at)?;
        Ok((
            Division {
                seats,
                votes,
                method,
            },
            parts,
            at,
        ))
    }

    /// The minima of a split, if they are there.
    #[cycle(expr)]
    #[tactic(auto, unfolding(crate::specs::inner::Reading::read_minima))]
    fn minima(&self, levels: u32, parts: u32, at: usize) -> Read<Option<Box<Expr>>>
        ensures { let all = self.now.tokens.now in
            Gives all (λ x. (minima_tree x.0, x.1, drop x.2 all)) result
            (read_minima (read_expr self.now.text.now levels) parts (drop at all)) }
    {
        if !self.is_clause(Keyword::Atleast, at) {
            return Ok((None, parts, at));
        }
        let at = self.mark(Mark::Comma, at)?;
        let at = self.keyword(Keyword::Atleast, at)?;
        let (minima, parts, at) = self.boxed(levels, parts, at)?;
        Ok((Some(minima), parts, at))
    }

    #[cycle(expr)]
    #[tactic(auto, unfolding(crate::specs::inner::Reading::read_split))]
    fn split(&self, levels: u32, parts: u32, start: usize, at: usize) -> Read<Expr>
        ensures { let all = self.now.tokens.now in
            Gives all (λ x. (tree_of x.0, x.1, drop x.2 all)) result
            (read_split (read_expr self.now.text.now levels) start parts (drop at all)) }
    {
        let (division, parts, at) = self.division(levels, parts, at)?;
        let (minima, parts, at) = self.minima(levels, parts, at)?;
        let (majority, at) = self.majority(at)?;
        let at = self.mark(Mark::Close, at)?;
        Ok((
            Expr::Split {
                at: start,
                seats: division.seats,
                votes: division.votes,
                method: division.method,
                minima,
                majority,
            },
            parts,
            at,
        ))
    }

    #[cycle(expr)]
    #[tactic(auto, unfolding(crate::specs::inner::Reading::read_grow))]
    fn grow(&self, levels: u32, parts: u32, start: usize, at: usize) -> Read<Expr>
        ensures { let all = self.now.tokens.now in
            Gives all (λ x. (tree_of x.0, x.1, drop x.2 all)) result
            (read_grow (read_expr self.now.text.now levels) start parts (drop at all)) }
    {
        let (division, parts, at) = self.division(levels, parts, at)?;
        let at = self.mark(Mark::Comma, at)?;
        let (minima, parts, at) = self.boxed(levels, parts, at)?;
        let at = self.mark(Mark::Comma, at)?;
        let (cap, at) = self.number(at)?;
        let (majority, at) = self.refusal(at)?;
        let at = self.mark(Mark::Close, at)?;
        Ok((
            Expr::Grow {
                at: start,
                seats: division.seats,
                votes: division.votes,
                method: division.method,
                minima,
                cap,
                majority,
            },
            parts,
            at,
        ))
    }
}
