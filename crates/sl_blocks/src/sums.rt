//! The sums of a scope, and the seats that are refused by them.

ghost use Rattle.std.specs.Prelude.{◌≡◌, ◌+◌, ◌<◌, IfOk, OnErr, vec_len};
ghost use Rattle.sl_compile_layout.specs.inner.Layout.{tree_of};
ghost use Rattle.sl_compile_plans.specs.Trees.{size_of};
ghost use Rattle.sl_blocks.specs.declared.blanks.Block.{Block as SpecBlock};
ghost use Rattle.sl_blocks.specs.inner.Given.{given_of};
ghost use Rattle.sl_blocks.specs.inner.Layout.{IsLaid};
ghost use Rattle.sl_blocks.specs.inner.LayoutParts.{all_with, sum_entries, sums_with, some_votes};

use crate::blanks::{Block, GET_MINIMUM, GET_WEIGHT, NO_LIST, SHORT};
use crate::entries::{NOTHING, by_party, each_entry};
use crate::scopes::{START_SCOPE, lay_scopes};
use sl_base_quotients::NoMemory;
use sl_code_instructions::{Instr, MAX_INSTRS};
use sl_compile_layout::Part::Fixed;
use sl_compile_layout::{Cursor, Plan, Test};
use sl_compile_pieces::registers::{AMOUNT, BASE, NEEDED, TOTAL, WEIGHT};

const CLEAR_SUMS: &Plan<'static> = &Plan::Line(&[
    Fixed(Instr::Set(TOTAL, 0)),
    Fixed(Instr::Set(NEEDED, 0)),
]);

const ADD_WEIGHT: &Plan<'static> = by_party!(&Plan::Line(&[
    GET_WEIGHT,
    Fixed(Instr::Add(TOTAL, WEIGHT))
]));

const ADD_BOTH: &Plan<'static> = by_party!(&Plan::Line(&[
    GET_WEIGHT,
    Fixed(Instr::Add(TOTAL, WEIGHT)),
    GET_MINIMUM,
    Fixed(Instr::Add(NEEDED, BASE)),
]));

/// Adds each entry's votes and, if there are minima, its minimum to the sums.
fn sum_entries(block: &Block) -> Plan<'static>
    ensures { tree_of (given_of block.now) result ≡ sum_entries block.now }
{
    match block.job.minima {
        None => each_entry(block.form, ADD_WEIGHT),
        Some(_) => each_entry(block.form, ADD_BOTH),
    }
}

/// Appends a block with this plan after the amount and the sums of each of its scopes.
pub fn lay_sums_with(code: &mut Vec<Instr>, block: &Block, rest: &Plan<'_>) -> Result<(), NoMemory>
    requires { vec_len code.old + size_of (all_with block.now (sums_with block.now (tree_of (given_of block.now) rest.now))) < MAX_INSTRS }
    ensures ok { IfOk result (λ _. IsLaid (all_with block.now (sums_with block.now (tree_of (given_of block.now) rest.now))) (vec_len code.old) code.old.items code.new.items) }
    ensures err { OnErr result (code.new.items ≡ code.old.items) }
{
    let sum_entries = sum_entries(block);
    let sums = Plan::Then(CLEAR_SUMS, &sum_entries);
    let summed = Plan::Then(&sums, &*rest);
    let scope = Plan::Then(START_SCOPE, &summed);
    lay_scopes(code, block, &scope)
}

/// Ends where the minima need more seats, or where there are none to give them to.
pub const REFUSES_SEATS: &Plan<'static> = &Plan::Then(
    &Plan::If(Test::Less(AMOUNT, NEEDED), &Plan::Stop(SHORT), NOTHING),
    &Plan::If(
        Test::Zero(TOTAL),
        &Plan::If(Test::Less(NEEDED, AMOUNT), &Plan::Stop(NO_LIST), NOTHING),
        NOTHING,
    ),
);

const SOME_VOTES: &Plan<'static> = &Plan::If(Test::Zero(TOTAL), &Plan::Stop(NO_LIST), NOTHING);

/// Ends where there are no votes.
pub fn some_votes() -> &'static Plan<'static>
    ensures { (b : SpecBlock) → tree_of (given_of b) result.now ≡ some_votes b }
{
    SOME_VOTES
}
