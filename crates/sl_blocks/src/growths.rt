//! The block of a growth.

ghost use Rattle.std.specs.Prelude.{◌≡◌, ◌+◌, ◌<◌, ◌≤◌, IfOk, OnErr, vec_len, IsSome, unwrap_or};
ghost use Rattle.sl_compile_layout.specs.inner.Layout.{tree_of};
ghost use Rattle.sl_compile_plans.specs.Trees.{size_of};
ghost use Rattle.sl_blocks.specs.inner.Given.{given_of};
ghost use Rattle.sl_blocks.specs.inner.Jobs.{IsGrowthBlock, IsGrowthJob, IsGrowthPlan};
ghost use Rattle.sl_blocks.specs.inner.Layout.{IsLaid};
ghost use Rattle.sl_blocks.specs.inner.LayoutParts.{all_with, found_with, house_with, growth_all};

use crate::blanks::Block;
use crate::blocks::{MAX_BLOCK_INSTRS, lay_block};
use crate::fills::{CLEAR_TABLE, fill_outside};
use crate::form::form_of;
use crate::houses::{CLEAR_SEARCH, TAKE_HOUSE, WITHIN_CAP, search_batches, search_entries};
use crate::job::Job;
use crate::sums::{lay_sums_with, some_votes};
use sl_base_quotients::{Divisor, Method, NoMemory};
use sl_code_instructions::{Instr, MAX_INSTRS};
use sl_compile_layout::Plan;
use sl_law_meaning::Shape;

/// Appends the block of a growth by a divisor method up to a cap of seats (docs/blocks.md, section 5), which leaves the entries'
/// seats in the slot of the result, or ends the run with the growth's fault. It is the plan of `sl_compile_pieces` after a declaration.
///
/// The slots of the job are among those given and have the shapes of a growth: one amount, and minima; the cap is within the limit; the
/// code has room for a block.
///
/// # Errors
/// Without memory, the code is as it was.
pub fn grow_block(
    code: &mut Vec<Instr>,
    slots: &[Shape],
    job: &Job,
    method: Divisor,
    cap: u32,
) -> Result<(), NoMemory>
    requires job { IsGrowthJob slots.now job.now cap }
    requires room { vec_len code.old + MAX_BLOCK_INSTRS ≤ MAX_INSTRS }
    ensures ok { IfOk result (λ _. IsGrowthBlock slots.now job.now method cap code.old.items code.new.items) }
    ensures plan { IfOk result (λ _. IsGrowthPlan slots.now job.now method cap code.old.items code.new.items) }
    ensures err { OnErr result (code.new.items ≡ code.old.items) }
{
    let block = Block {
        form: form_of(slots, job),
        job: *job,
        method: Method::Divisor(method),
        cap: Some(cap),
    };
    lay_block(code, &block)
}

/// Appends the block of a growth, of which this is what comes in each scope after the first seats.
pub fn lay_growth_with(
    code: &mut Vec<Instr>,
    block: &Block,
    rest: &Plan<'_>,
) -> Result<(), NoMemory>
    requires fits { vec_len code.old + size_of (growth_all block.now (unwrap_or block.now.cap 0) (tree_of (given_of block.now) rest.now)) < MAX_INSTRS }
    requires minima { IsSome block.now.job.minima }
    ensures ok { IfOk result (λ _. IsLaid (growth_all block.now (unwrap_or block.now.cap 0) (tree_of (given_of block.now) rest.now)) (vec_len code.old) code.old.items code.new.items) }
    ensures err { OnErr result (code.new.items ≡ code.old.items) }
{
    let fill_entries = fill_outside(block);
    let fill = Plan::Then(CLEAR_TABLE, &fill_entries);
    let filled = Plan::Then(&fill, &*rest);
    lay_house_with(code, block, &filled)
}

/// The same, of which this comes after the house of each scope.
fn lay_house_with(code: &mut Vec<Instr>, block: &Block, rest: &Plan<'_>) -> Result<(), NoMemory>
    requires { vec_len code.old + size_of (all_with block.now (house_with block.now (unwrap_or block.now.cap 0) (tree_of (given_of block.now) rest.now))) < MAX_INSTRS }
    ensures ok { IfOk result (λ _. IsLaid (all_with block.now (house_with block.now (unwrap_or block.now.cap 0) (tree_of (given_of block.now) rest.now))) (vec_len code.old) code.old.items code.new.items) }
    ensures err { OnErr result (code.new.items ≡ code.old.items) }
{
    let search_entries = search_entries(block);
    let search_turns = Plan::Then(&search_entries, search_batches());
    let searched = Plan::Then(CLEAR_SEARCH, &search_turns);
    lay_found_with(code, block, &searched, rest)
}

/// The same with this search for the house.
fn lay_found_with(
    code: &mut Vec<Instr>,
    block: &Block,
    searched: &Plan<'_>,
    rest: &Plan<'_>,
) -> Result<(), NoMemory>
    requires { vec_len code.old + size_of (all_with block.now (found_with block.now (unwrap_or block.now.cap 0) (tree_of (given_of block.now) searched.now) (tree_of (given_of block.now) rest.now))) < MAX_INSTRS }
    ensures ok { IfOk result (λ _. IsLaid (all_with block.now (found_with block.now (unwrap_or block.now.cap 0) (tree_of (given_of block.now) searched.now) (tree_of (given_of block.now) rest.now))) (vec_len code.old) code.old.items code.new.items) }
    ensures err { OnErr result (code.new.items ≡ code.old.items) }
{
    let house = Plan::Then(&*searched, TAKE_HOUSE);
    let grown = Plan::Then(&house, &*rest);
    let capped = Plan::Then(WITHIN_CAP, &grown);
    let voted = Plan::Then(some_votes(), &capped);
    lay_sums_with(code, block, &voted)
}
