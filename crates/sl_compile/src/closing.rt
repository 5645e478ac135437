//! The blocks of a rulebook's last clause (docs/compiler.md, section 6).

ghost use Rattle.std.specs.Prelude.{◌≡◌, [], None, IfOk};
ghost use Rattle.sl_base_terms.specs.Tests.{first_failing};
ghost use Rattle.sl_law_meaning.specs.book.Typing.{base_tests};
ghost use Rattle.sl_compile_pieces.specs.closing.Trees.{base_slot, seating_pieces, vacant_pieces, last_pieces, halting};
ghost use Rattle.sl_blocks.specs.PlanBlocks.{AreBlocks, HasRoom};
ghost use Rattle.sl_compile.specs.Codes.{HasSoFar};
ghost use Rattle.sl_compile.specs.inner.Nodes.{HasBase};
ghost use Rattle.sl_compile.specs.inner.Slots.{low_shapes};
ghost use Rattle.sl_compile.specs.inner.Earlier.{columns};

use crate::earlier::Earlier;
use crate::slots::{FINAL_SEATS, WINNERS};
use sl_base_quotients::NoMemory;
use sl_blocks::{copy_block, cover_block, names_block, pair_block, placing_block};
use sl_code_instructions::Instr;
use sl_compile_pieces::slots::{ELIGIBLE, NAMES_LEFT, PAIR_NUMBERS, VACANT_SEATS};
use sl_law_meaning::{Base, LastClause, Pairing, Seating, Shape};

/// The slot of the base column: that of a fact, or of a stage.
fn base_slot(earlier: &Earlier<'_>, base: &Base) -> u8
    ensures { let known = columns earlier.now.stages.now earlier.now.types.now
        in result ≡ base_slot known base.now }
{
    match base {
        Base::Winners => WINNERS,
        Base::Stage(name) => earlier.column(name).0,
    }
}

/// Slots to work in, of which a covering takes the first one of lists.
const SCRATCH: [[u8; 8]; 4] = [[0; 8], [0; 8], [0; 8], [PAIR_NUMBERS; 8]];

/// Appends the seats of the lists, and who sits on them.
fn lay_seating(
    code: &mut Vec<Instr>,
    slots: &[Shape],
    from: u8,
    seating: Seating,
) -> Result<(), NoMemory>
    requires slots { slots.now ≡ low_shapes }
    requires room { HasRoom (seating_pieces from seating) code.old.items }
    ensures { IfOk result (λ _. AreBlocks (HasBase from) (seating_pieces from seating) code.old.items code.new.items) }
{
    match seating {
        Seating::Keep => {
            pair_block(
                code,
                Pairing::Larger,
                Shape::List,
                from,
                WINNERS,
                FINAL_SEATS,
            )?;
            placing_block(code)
        }
        Seating::Cover => {
            copy_block(code, Shape::List, from, FINAL_SEATS)?;
            cover_block(code, slots, FINAL_SEATS, ELIGIBLE, SCRATCH)
        }
    }
}

/// Appends, with `vacate`, the seats that neither winners nor names fill.
fn lay_vacant(code: &mut Vec<Instr>, vacate: Option<usize>) -> Result<(), NoMemory>
    requires { HasRoom (vacant_pieces vacate) code.old.items }
    ensures { IfOk result (λ _. AreBlocks (HasSoFar [] 0) (vacant_pieces vacate) code.old.items code.new.items) }
{
    match vacate {
        None => Ok(()),
        Some(_) => {
            names_block(code)?;
            pair_block(
                code,
                Pairing::Less,
                Shape::List,
                FINAL_SEATS,
                WINNERS,
                VACANT_SEATS,
            )?;
            pair_block(
                code,
                Pairing::Less,
                Shape::List,
                VACANT_SEATS,
                NAMES_LEFT,
                VACANT_SEATS,
            )
        }
    }
}

/// Appends the blocks of the last clause.
///
/// # Errors
/// No memory was found.
pub fn lay_last(
    code: &mut Vec<Instr>,
    slots: &[Shape],
    earlier: &Earlier<'_>,
    last: &LastClause,
) -> Result<(), NoMemory>
    requires slots { slots.now ≡ low_shapes }
    requires typed { let known = columns earlier.now.stages.now earlier.now.types.now
        in first_failing (base_tests known last.now.at last.now.base) ≡ None }
    requires room { let known = columns earlier.now.stages.now earlier.now.types.now
        in HasRoom (last_pieces known last.now) code.old.items }
    ensures { let known = columns earlier.now.stages.now earlier.now.types.now
        in IfOk result (λ _. AreBlocks (HasSoFar known 0) (last_pieces known last.now) code.old.items code.new.items) }
{
    let from = base_slot(earlier, &last.base);
    lay_seating(code, slots, from, last.seating)?;
    lay_vacant(code, last.vacate)
}

/// The run ends with the seats, and with the vacant ones if there are any.
pub fn halting(vacate: Option<usize>) -> Instr
    ensures { result ≡ halting vacate }
{
    match vacate {
        None => Instr::Halt(FINAL_SEATS),
        Some(_) => Instr::Haltv(FINAL_SEATS, VACANT_SEATS),
    }
}
