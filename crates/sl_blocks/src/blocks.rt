//! A block: first what comes in each of its scopes after the first seats.

ghost use Rattle.std.specs.Prelude.{◌≡◌, ◌+◌, ◌<◌, IfOk, OnErr, IsSome, vec_len};
ghost use Rattle.sl_compile_layout.specs.inner.Layout.{tree_of};
ghost use Rattle.sl_compile_plans.specs.Trees.{size_of};
ghost use Rattle.sl_blocks.specs.inner.Given.{given_of};
ghost use Rattle.sl_blocks.specs.inner.Layout.{IsLaid};
ghost use Rattle.sl_blocks.specs.inner.LayoutParts.{block_tree, block_with};

use crate::awards::{ENDS_BY_TIE, count_left, drawn_batch, whole_batches};
use crate::blanks::Block;
use crate::entries::NOTHING;
use crate::growths::lay_growth_with;
use crate::majority::refuse;
use crate::splits::lay_split_with;
use sl_base_quotients::NoMemory;
use sl_code_instructions::{Instr, MAX_INSTRS};
use sl_compile_layout::{Plan, Test};
use sl_compile_pieces::registers::{LEFT, PEERS};

/// The most instructions of a block, with its declaration.
pub const MAX_BLOCK_INSTRS: usize = 1_000;

/// Appends a block.
///
/// # Errors
/// Without memory, the code is as it was.
pub fn lay_block(code: &mut Vec<Instr>, block: &Block) -> Result<(), NoMemory>
    requires fits { vec_len code.old + size_of (block_tree block.now) < MAX_INSTRS }
    requires minima { IsSome block.now.cap → IsSome block.now.job.minima }
    ensures ok { IfOk result (λ _. IsLaid (block_tree block.now) (vec_len code.old) code.old.items code.new.items) }
    ensures err { OnErr result (code.new.items ≡ code.old.items) }
{
    let unnamed = Plan::If(Test::NotCovered(block.job.stage), ENDS_BY_TIE, NOTHING);
    let tie = Plan::If(Test::Empty(PEERS), NOTHING, &unnamed);
    let drawn = Plan::Then(&tie, drawn_batch(block));
    let last_batch = Plan::If(Test::Zero(LEFT), NOTHING, &drawn);
    lay_block_with(code, block, &last_batch)
}

/// The same with this as the last batch of each scope.
fn lay_block_with(
    code: &mut Vec<Instr>,
    block: &Block,
    last_batch: &Plan<'_>,
) -> Result<(), NoMemory>
    requires fits { vec_len code.old + size_of (block_with block.now (tree_of (given_of block.now) last_batch.now)) < MAX_INSTRS }
    requires minima { IsSome block.now.cap → IsSome block.now.job.minima }
    ensures ok { IfOk result (λ _. IsLaid (block_with block.now (tree_of (given_of block.now) last_batch.now)) (vec_len code.old) code.old.items code.new.items) }
    ensures err { OnErr result (code.new.items ≡ code.old.items) }
{
    let batches = Plan::Then(whole_batches(block), &*last_batch);
    let awards = Plan::Then(count_left(), &batches);
    let rest = Plan::Then(&awards, refuse(block));
    match block.cap {
        None => lay_split_with(code, block, &rest),
        Some(_) => lay_growth_with(code, block, &rest),
    }
}
