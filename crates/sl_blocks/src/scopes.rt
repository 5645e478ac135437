//! A block over all its scopes.

ghost use Rattle.std.specs.Prelude.{◌≡◌, ◌+◌, ◌<◌, IfOk, OnErr, vec_len};
ghost use Rattle.sl_compile_layout.specs.inner.Layout.{tree_of};
ghost use Rattle.sl_compile_plans.specs.Trees.{size_of};
ghost use Rattle.sl_blocks.specs.inner.Given.{given_of};
ghost use Rattle.sl_blocks.specs.inner.Layout.{IsLaid};
ghost use Rattle.sl_blocks.specs.inner.LayoutParts.{all_with};

use crate::blanks::{Block, GET_AMOUNT, OVER_LIMIT, ZERO_RESULT, given_of};
use crate::entries::{NOTHING, each_scope};
use sl_base_quotients::{MAX_SEATS, NoMemory};
use sl_code_instructions::{Instr, MAX_INSTRS};
use sl_compile_layout::Part::Fixed;
use sl_compile_layout::{Plan, Test, lay};
use sl_compile_pieces::registers::{AMOUNT, FIRST_PASSING};

/// Ends where there are more seats than a scope may have.
const WITHIN_LIMIT: &Plan<'static> = &Plan::Then(
    &Plan::Line(&[GET_AMOUNT]),
    &Plan::Then(
        &Plan::Line(&[Fixed(Instr::Set(FIRST_PASSING, MAX_SEATS as u64))]),
        &Plan::If(
            Test::Less(FIRST_PASSING, AMOUNT),
            &Plan::Stop(OVER_LIMIT),
            NOTHING,
        ),
    ),
);

/// Each scope begins with its amount.
pub const START_SCOPE: &Plan<'static> = &Plan::Line(&[GET_AMOUNT]);

const CLEAR_RESULT: &Plan<'static> = &Plan::Line(&[ZERO_RESULT]);

/// Appends a block with this plan for each of its scopes.
pub fn lay_scopes<'a>(
    code: &mut Vec<Instr>,
    block: &Block,
    scope: &'a Plan<'a>,
) -> Result<(), NoMemory>
    requires { vec_len code.old + size_of (all_with block.now (tree_of (given_of block.now) scope.now)) < MAX_INSTRS }
    ensures ok { IfOk result (λ _. IsLaid (all_with block.now (tree_of (given_of block.now) scope.now)) (vec_len code.old) code.old.items code.new.items) }
    ensures err { OnErr result (code.new.items ≡ code.old.items) }
{
    let given = given_of(block);
    let limits = each_scope(block.form, WITHIN_LIMIT);
    let scopes = each_scope(block.form, scope);
    let counted = Plan::Then(CLEAR_RESULT, &scopes);
    let all = Plan::Then(&limits, &counted);
    lay(code, &all, &given)
}
