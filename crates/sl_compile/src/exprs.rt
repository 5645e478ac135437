//! The blocks of expressions (docs/compiler.md, section 4).

ghost use Rattle.std.specs.Prelude.{◌≡◌, ◌+◌, ◌<◌, ◌≤◌, ◌++◌, List, IfOk};
ghost use Rattle.sl_base_terms.specs.declared.limits.TheConstants.{MAX_STAGES};
ghost use Rattle.sl_law_meaning.specs.book.Typing.{Column, type_of};
ghost use Rattle.sl_law_meaning.specs.book.Trees.{tree_of};
ghost use Rattle.sl_compile_pieces.specs.exprs.Pieces.{pieces, slot_of};
ghost use Rattle.sl_compile.specs.Codes.{HasSoFar};
ghost use Rattle.sl_blocks.specs.PlanBlocks.{AreBlocks, HasRoom};
ghost use Rattle.sl_compile.specs.inner.Slots.{low_shapes};
ghost use Rattle.sl_compile.specs.inner.Earlier.{columns, Fits};

use crate::earlier::Earlier;
use crate::nodes::{copy, pair, sum};
use crate::slots::{fact_slot, passing};
use sl_base_quotients::NoMemory;
use sl_code_instructions::Instr;
use sl_compile_pieces::Arguments;
use sl_law_meaning::{ColumnType, Expr, MAX_DEPTH, Shape};

/// Where an expression is laid out: the shapes of the slots below those of the stages, the stages before, and the number of its own stage.
#[derive(Clone, Copy)]
pub struct Site<'a> {
    pub slots: &'a [Shape],
    pub earlier: Earlier<'a>,
    pub stage: u8,
    ghost low: { slots.now ≡ low_shapes },
    ghost few: { stage < MAX_STAGES },
}

/// The slot in which the blocks of an expression leave its column: a fact's own, and else the passing one of its shape on that level.
pub fn column_slot(level: u8, expr: &Expr, of: ColumnType) -> u8
    requires { level ≤ MAX_DEPTH }
    ensures { (types : List Column) → of ≡ type_of types (tree_of expr.now) → result ≡ slot_of types level (tree_of expr.now) }
{
    match expr {
        Expr::Fact { fact, .. } => fact_slot(*fact),
        _ => passing(level, of.shape),
    }
}

impl<'a> Site<'a> {
    /// Appends the blocks of two expressions, the second one a level on, and says what the two have.
    #[cycle(expr)]
    #[tactic(none)]
    fn both(
        &self,
        code: &mut Vec<Instr>,
        level: u8,
        left: &Expr,
        right: &Expr,
    ) -> Result<(ColumnType, ColumnType), NoMemory>
        requires left { let known = columns self.now.earlier.stages.now self.now.earlier.types.now
            in Fits known level (tree_of left.now) }
        requires right { let known = columns self.now.earlier.stages.now self.now.earlier.types.now
            in Fits known (level + 1) (tree_of right.now) }
        requires room { let known = columns self.now.earlier.stages.now self.now.earlier.types.now
            in HasRoom (pieces known self.now.stage level (tree_of left.now) ++ pieces known self.now.stage (level + 1) (tree_of right.now)) code.old.items }
        ensures has { let known = columns self.now.earlier.stages.now self.now.earlier.types.now
            in IfOk result (λ has. (has.0 ≡ type_of known (tree_of left.now)) × (has.1 ≡ type_of known (tree_of right.now))) }
        ensures blocks { let known = columns self.now.earlier.stages.now self.now.earlier.types.now
            in IfOk result (λ _. AreBlocks (HasSoFar known (self.now.stage + 1)) (pieces known self.now.stage level (tree_of left.now) ++ pieces known self.now.stage (level + 1) (tree_of right.now)) code.old.items code.new.items) }
    {
        let left = self.expr(code, level, left)?;
        let right = self.expr(code, level + 1, right)?;
        Ok((left, right))
    }

    /// Appends the blocks of an expression, which leave its column in its slot on that level (`column_slot`), and says what it has.
    #[cycle(expr)]
    #[tactic(none)]
    pub fn expr(
        &self,
        code: &mut Vec<Instr>,
        level: u8,
        expr: &Expr,
    ) -> Result<ColumnType, NoMemory>
        requires fits { let known = columns self.now.earlier.stages.now self.now.earlier.types.now
            in Fits known level (tree_of expr.now) }
        requires room { let known = columns self.now.earlier.stages.now self.now.earlier.types.now
            in HasRoom (pieces known self.now.stage level (tree_of expr.now)) code.old.items }
        ensures has { let known = columns self.now.earlier.stages.now self.now.earlier.types.now
            in IfOk result (λ has. has ≡ type_of known (tree_of expr.now)) }
        ensures blocks { let known = columns self.now.earlier.stages.now self.now.earlier.types.now
            in IfOk result (λ _. AreBlocks (HasSoFar known (self.now.stage + 1)) (pieces known self.now.stage level (tree_of expr.now)) code.old.items code.new.items) }
    {
        match expr {
            Expr::Fact { fact, .. } => Ok(fact.column_type()),
            Expr::Name { name, .. } => {
                let (slot, of) = self.earlier.column(name);
                copy(code, level, slot, of)
            }
            Expr::Sum { of, over, .. } => {
                let has = self.expr(code, level, of)?;
                sum(code, level, column_slot(level, of, has), has, *over)
            }
            Expr::Pair {
                pairing,
                left,
                right,
                ..
            } => {
                let (of, by) = self.both(code, level, left, right)?;
                let from = column_slot(level, left, of);
                let other = column_slot(level + 1, right, by);
                pair(code, level, *pairing, from, other, of)
            }
            Expr::Split {
                seats,
                votes,
                method,
                minima,
                majority,
                ..
            } => {
                let (of, by) = self.both(code, level, seats, votes)?;
                let minima = match minima {
                    Some(minima) => {
                        let has = self.expr(code, level + 2, minima)?;
                        Some(column_slot(level + 2, minima, has))
                    }
                    None => None,
                };
                let from = Arguments {
                    amounts: column_slot(level, seats, of),
                    votes: column_slot(level + 1, votes, by),
                    minima,
                };
                self.split(code, level, from, of.shape, by.shape, *method, *majority)
            }
            Expr::Grow {
                seats,
                votes,
                method,
                minima,
                cap,
                majority,
                ..
            } => {
                let (of, by) = self.both(code, level, seats, votes)?;
                let has = self.expr(code, level + 2, minima)?;
                let from = Arguments {
                    amounts: column_slot(level, seats, of),
                    votes: column_slot(level + 1, votes, by),
                    minima: Some(column_slot(level + 2, minima, has)),
                };
                self.growth(
                    code, level, from, of.shape, by.shape, *method, cap.value, *majority,
                )
            }
        }
    }
}
