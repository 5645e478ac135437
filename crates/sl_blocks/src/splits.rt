//! The block of a split.

ghost use Rattle.std.specs.Prelude.{◌≡◌, ◌+◌, ◌<◌, ◌≤◌, IfOk, OnErr, vec_len};
ghost use Rattle.sl_compile_layout.specs.inner.Layout.{tree_of};
ghost use Rattle.sl_compile_plans.specs.Trees.{size_of};
ghost use Rattle.sl_blocks.specs.inner.Given.{given_of};
ghost use Rattle.sl_blocks.specs.inner.Jobs.{IsSplitBlock, IsSplitJob, IsSplitPlan};
ghost use Rattle.sl_blocks.specs.inner.Layout.{IsLaid};
ghost use Rattle.sl_blocks.specs.inner.LayoutParts.{split_all};

use crate::blanks::Block;
use crate::blocks::{MAX_BLOCK_INSTRS, lay_block};
use crate::fills::{CLEAR_TABLE, fill_entries};
use crate::form::form_of;
use crate::job::Job;
use crate::sums::{REFUSES_SEATS, lay_sums_with};
use sl_base_quotients::{Method, NoMemory};
use sl_code_instructions::{Instr, MAX_INSTRS};
use sl_compile_layout::Plan;
use sl_law_meaning::Shape;

/// Appends the block of a split by a method (docs/blocks.md, section 5), which leaves the entries' seats in the slot of the
/// result, or ends the run with the split's fault. It is the plan of `sl_compile_pieces` after a declaration.
///
/// The slots of the job are among those given and have the shapes of a split; Hamilton's method takes no minima; the
/// code has room for a block.
///
/// # Errors
/// Without memory, the code is as it was.
pub fn split_block(
    code: &mut Vec<Instr>,
    slots: &[Shape],
    job: &Job,
    method: Method,
) -> Result<(), NoMemory>
    requires job { IsSplitJob slots.now job.now method }
    requires room { vec_len code.old + MAX_BLOCK_INSTRS ≤ MAX_INSTRS }
    ensures ok { IfOk result (λ _. IsSplitBlock slots.now job.now method code.old.items code.new.items) }
    ensures plan { IfOk result (λ _. IsSplitPlan slots.now job.now method code.old.items code.new.items) }
    ensures err { OnErr result (code.new.items ≡ code.old.items) }
{
    let block = Block {
        form: form_of(slots, job),
        job: *job,
        method,
        cap: None,
    };
    lay_block(code, &block)
}

/// Appends the block of a split, of which this is what comes in each scope after the first seats.
pub fn lay_split_with(code: &mut Vec<Instr>, block: &Block, rest: &Plan<'_>) -> Result<(), NoMemory>
    requires { vec_len code.old + size_of (split_all block.now (tree_of (given_of block.now) rest.now)) < MAX_INSTRS }
    ensures ok { IfOk result (λ _. IsLaid (split_all block.now (tree_of (given_of block.now) rest.now)) (vec_len code.old) code.old.items code.new.items) }
    ensures err { OnErr result (code.new.items ≡ code.old.items) }
{
    let fill_entries = fill_entries(block);
    let fill = Plan::Then(CLEAR_TABLE, &fill_entries);
    let filled = Plan::Then(&fill, &*rest);
    let refused = Plan::Then(REFUSES_SEATS, &filled);
    lay_sums_with(code, block, &refused)
}
