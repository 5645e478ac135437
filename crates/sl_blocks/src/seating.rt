//! The blocks of the last clause besides a covering (docs/compiler.md, section 6).

ghost use Rattle.std.specs.Prelude.{◌≡◌, [], ◌∷◌, IfOk, OnErr};
ghost use Rattle.sl_code_instructions.specs.declared.instr.Instr.TheVariants.{Input as Reads};
ghost use Rattle.sl_code_instructions.specs.declared.operand.Input.TheVariants as input;
ghost use Rattle.sl_compile_plans.specs.Trees.{Line};
ghost use Rattle.sl_compile_pieces.specs.closing.Trees.{place_kept};
ghost use Rattle.sl_compile_pieces.specs.declared.slots.TheConstants.{NAMES_LEFT as names_left};
ghost use Rattle.sl_blocks.specs.Facts.{HasFirstSlots};
ghost use Rattle.sl_blocks.specs.PlanBlocks.{AreBlocks, HasRoom};

use crate::facts::by_winner;
use sl_base_quotients::NoMemory;
use sl_code_instructions::{Input, Instr};
use sl_compile_layout::Part::Fixed;
use sl_compile_layout::{Cursor, Plan, Test, lay};
use sl_compile_pieces::registers::OTHER;
use sl_compile_pieces::slots::{ELIGIBLE, NAMES_LEFT};

/// Every winner of an eligible party with a list in the Land sits on it, and every other one as a single.
const PLACE_KEPT: &Plan<'static> = &Plan::Each(
    Cursor::Win,
    by_winner!(
        &Plan::Line(&[Fixed(Instr::Seat)]),
        &Plan::Line(&[Fixed(Instr::Single)])
    ),
);

const NAMES: &Plan<'static> = &Plan::Line(&[Fixed(Instr::Input(NAMES_LEFT, Input::Names))]);

/// Appends the block that places the winners who are kept.
///
/// # Errors
/// Without memory, the code is as it was.
pub fn placing_block(code: &mut Vec<Instr>) -> Result<(), NoMemory>
    requires { HasRoom (place_kept ∷ []) code.old.items }
    ensures ok { IfOk result (λ _. AreBlocks HasFirstSlots (place_kept ∷ []) code.old.items code.new.items) }
    ensures err { OnErr result (code.new.items ≡ code.old.items) }
{
    lay(code, PLACE_KEPT, &[])
}

/// Appends the block that reads how many names the lists have left.
///
/// # Errors
/// Without memory, the code is as it was.
pub fn names_block(code: &mut Vec<Instr>) -> Result<(), NoMemory>
    requires { HasRoom (Line (Reads names_left input.Names ∷ []) ∷ []) code.old.items }
    ensures ok { IfOk result (λ _. AreBlocks HasFirstSlots (Line (Reads names_left input.Names ∷ []) ∷ []) code.old.items code.new.items) }
    ensures err { OnErr result (code.new.items ≡ code.old.items) }
{
    lay(code, NAMES, &[])
}
