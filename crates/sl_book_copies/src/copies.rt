//! Copies of the parts of a rulebook.

ghost use Rattle.std.specs.Prelude.{◌≡◌, IfOk};
ghost use Rattle.sl_law_meaning.specs.book.Trees.{minima_tree, stage_of, tree_of};

use sl_base_quotients::NoMemory;
use sl_law_meaning::{Expr, Stage, Word};
use std::alloc::Global;

pub fn copy_word(alloc: Global, word: &Word) -> Result<Word, NoMemory>
    ensures { IfOk result (λ copy. copy ≡ word.now) }
{
    Word::new(alloc, word.as_bytes())
}

// An expression on the heap.
#[cycle(copy)]
fn copy_boxed(alloc: Global, expr: &Expr) -> Result<Box<Expr>, NoMemory>
    ensures { IfOk result (λ copy. tree_of copy.value ≡ tree_of expr.now) }
{
    Ok(Box::new(alloc, copy_expr(alloc, expr)?)?)
}

#[cycle(copy)]
fn copy_minima(alloc: Global, minima: &Option<Box<Expr>>) -> Result<Option<Box<Expr>>, NoMemory>
    ensures { IfOk result (λ copy. minima_tree copy ≡ minima_tree minima.now) }
{
    match minima {
        None => Ok(None),
        Some(minima) => Ok(Some(copy_boxed(alloc, minima)?)),
    }
}

#[cycle(copy)]
fn copy_expr(alloc: Global, expr: &Expr) -> Result<Expr, NoMemory>
    ensures { IfOk result (λ copy. tree_of copy ≡ tree_of expr.now) }
{
    Ok(match expr {
        Expr::Fact { at, fact } => Expr::Fact {
            at: *at,
            fact: *fact,
        },
        Expr::Name { at, name } => Expr::Name {
            at: *at,
            name: copy_word(alloc, name)?,
        },
        Expr::Sum { at, of, over } => Expr::Sum {
            at: *at,
            of: copy_boxed(alloc, of)?,
            over: *over,
        },
        Expr::Pair {
            at,
            pairing,
            left,
            right,
        } => Expr::Pair {
            at: *at,
            pairing: *pairing,
            left: copy_boxed(alloc, left)?,
            right: copy_boxed(alloc, right)?,
        },
        Expr::Split {
            at,
            seats,
            votes,
            method,
            minima,
            majority,
        } => Expr::Split {
            at: *at,
            seats: copy_boxed(alloc, seats)?,
            votes: copy_boxed(alloc, votes)?,
            method: *method,
            minima: copy_minima(alloc, minima)?,
            majority: *majority,
        },
        Expr::Grow {
            at,
            seats,
            votes,
            method,
            minima,
            cap,
            majority,
        } => Expr::Grow {
            at: *at,
            seats: copy_boxed(alloc, seats)?,
            votes: copy_boxed(alloc, votes)?,
            method: *method,
            minima: copy_boxed(alloc, minima)?,
            cap: *cap,
            majority: *majority,
        },
    })
}

pub fn copy_stage(alloc: Global, stage: &Stage) -> Result<Stage, NoMemory>
    ensures { IfOk result (λ copy. stage_of copy ≡ stage_of stage.now) }
{
    Ok(Stage {
        name: copy_word(alloc, &stage.name)?,
        at: stage.at,
        expr: copy_expr(alloc, &stage.expr)?,
    })
}
