//! The own blocks of expressions, whose arguments are in columns of facts or in scratch ones (docs/compiler.md, section 4). Each leaves its
//! column in the passing one of its shape, and says what the column has.

ghost use Rattle.std.specs.Prelude.{◌≡◌, ◌+◌, ◌≤◌, [], ◌∷◌, true, IfOk, IsSome};
ghost use Rattle.sl_base_terms.specs.declared.shape.Shape.TheVariants as shape;
ghost use Rattle.sl_law_meaning.specs.declared.book.Unit.TheVariants as unit;
ghost use Rattle.sl_law_meaning.specs.book.Typing.{can_split, can_sum, column, shape_over};
ghost use Rattle.sl_blocks.specs.inner.Jobs.{slots_of};
ghost use Rattle.sl_blocks.specs.PlanBlocks.{AreBlocks, HasCopy, HasRoom};
ghost use Rattle.sl_compile_pieces.specs.columns.Trees.{copy_tree, pair_tree, sum_tree};
ghost use Rattle.sl_compile_pieces.specs.exprs.Pieces.{node_slots, split_piece, grow_piece};
ghost use Rattle.sl_compile_pieces.specs.exprs.Slots.{passing, StandsOn};
ghost use Rattle.sl_compile.specs.Codes.{HasSoFar};
ghost use Rattle.sl_compile.specs.inner.Nodes.{AreArguments, MayHave};

use crate::exprs::Site;
use crate::slots::passing;
use sl_base_quotients::{Method, NoMemory};
use sl_blocks::{Job, copy_block, grow_block, pair_block, split_block, sum_block};
use sl_code_instructions::Instr;
use sl_compile_pieces::Arguments;
use sl_law_meaning::{Axis, ColumnType, MAX_DEPTH, MAX_SEATS, Majority, Pairing, Shape};

/// Appends the block of a copy of a column.
pub fn copy(
    code: &mut Vec<Instr>,
    level: u8,
    from: u8,
    of: ColumnType,
) -> Result<ColumnType, NoMemory>
    requires level { level ≤ MAX_DEPTH }
    requires room { HasRoom (copy_tree of.shape from (passing level of.shape) ∷ []) code.old.items }
    ensures has { IfOk result (λ has. has ≡ of) }
    ensures blocks { IfOk result (λ _. AreBlocks (HasCopy of.shape from (passing level of.shape)) (copy_tree of.shape from (passing level of.shape) ∷ []) code.old.items code.new.items) }
{
    copy_block(code, of.shape, from, passing(level, of.shape))?;
    Ok(of)
}

/// Appends the block of a sum of a column, which can be summed so.
pub fn sum(
    code: &mut Vec<Instr>,
    level: u8,
    from: u8,
    of: ColumnType,
    over: Axis,
) -> Result<ColumnType, NoMemory>
    requires level { level ≤ MAX_DEPTH }
    requires from { StandsOn level of.shape from }
    requires can { can_sum of.shape over ≡ true }
    requires room { HasRoom (sum_tree over of.shape from (passing level (shape_over over)) ∷ []) code.old.items }
    ensures has { IfOk result (λ has. has ≡ column (shape_over over) of.unit) }
    ensures blocks { IfOk result (λ _. AreBlocks (HasSoFar [] 0) (sum_tree over of.shape from (passing level (shape_over over)) ∷ []) code.old.items code.new.items) }
{
    let shape = over.shape();
    sum_block(code, over, of.shape, from, passing(level, shape))?;
    Ok(ColumnType {
        shape,
        unit: of.unit,
    })
}

/// Appends the block of a pair of a column and one a level on.
pub fn pair(
    code: &mut Vec<Instr>,
    level: u8,
    pairing: Pairing,
    left: u8,
    right: u8,
    of: ColumnType,
) -> Result<ColumnType, NoMemory>
    requires level { level + 1 ≤ MAX_DEPTH }
    requires left { StandsOn level of.shape left }
    requires right { StandsOn (level + 1) of.shape right }
    requires room { HasRoom (pair_tree pairing of.shape left right (passing level of.shape) ∷ []) code.old.items }
    ensures has { IfOk result (λ has. has ≡ of) }
    ensures blocks { IfOk result (λ _. AreBlocks (HasSoFar [] 0) (pair_tree pairing of.shape left right (passing level of.shape) ∷ []) code.old.items code.new.items) }
{
    pair_block(
        code,
        pairing,
        of.shape,
        left,
        right,
        passing(level, of.shape),
    )?;
    Ok(of)
}

/// No slot is needed but those of the columns.
const NO_SCRATCH: [[u8; 8]; 4] = [[0; 8]; 4];

impl<'a> Site<'a> {
    /// The slots of a split or a growth with these arguments, by the shape of the votes.
    fn job(&self, level: u8, from: Arguments, by: Shape, majority: Majority) -> Job
        requires { level ≤ MAX_DEPTH }
        ensures slots { slots_of result ≡ node_slots [] self.now.stage level from by }
        ensures majority { result.majority ≡ majority }
    {
        Job {
            stage: self.stage,
            amount: from.amounts,
            weights: from.votes,
            minima: from.minima,
            result: passing(level, by),
            majority,
            scratch: NO_SCRATCH,
        }
    }

    /// Appends the block of a split.
    pub fn split(
        &self,
        code: &mut Vec<Instr>,
        level: u8,
        from: Arguments,
        of: Shape,
        by: Shape,
        method: Method,
        majority: Majority,
    ) -> Result<ColumnType, NoMemory>
        requires from { AreArguments level of by from }
        requires can { can_split of by ≡ true }
        requires may { MayHave method from.minima }
        requires room { HasRoom (split_piece [] self.now.stage level of by from method majority) code.old.items }
        ensures has { IfOk result (λ has. has ≡ column by unit.Seats) }
        ensures blocks { IfOk result (λ _. AreBlocks (HasSoFar [] (self.now.stage + 1)) (split_piece [] self.now.stage level of by from method majority) code.old.items code.new.items) }
    {
        let job = self.job(level, from, by, majority);
        split_block(code, self.slots, &job, method)?;
        Ok(ColumnType::seats(by))
    }

    /// Appends the block of a growth; Hamilton's method has none.
    pub fn growth(
        &self,
        code: &mut Vec<Instr>,
        level: u8,
        from: Arguments,
        of: Shape,
        by: Shape,
        method: Method,
        cap: u32,
        majority: Majority,
    ) -> Result<ColumnType, NoMemory>
        requires from { AreArguments level of by from }
        requires minima { IsSome from.minima }
        requires can { can_split of by ≡ true }
        requires one { of ≡ shape.One }
        requires few { cap ≤ MAX_SEATS }
        requires room { HasRoom (grow_piece [] self.now.stage level of by from method majority cap) code.old.items }
        ensures has { IfOk result (λ has. has ≡ column by unit.Seats) }
        ensures blocks { IfOk result (λ _. AreBlocks (HasSoFar [] (self.now.stage + 1)) (grow_piece [] self.now.stage level of by from method majority cap) code.old.items code.new.items) }
    {
        let job = self.job(level, from, by, majority);
        if let Method::Divisor(divisor) = method {
            grow_block(code, self.slots, &job, divisor, cap)?;
        }
        Ok(ColumnType::seats(by))
    }
}
