//! The blocks of a rulebook's stages (docs/compiler.md, section 5).

ghost use Rattle.std.specs.Prelude.{◌≡◌, ◌+◌, [], ◌∷◌, ◌++◌, length, map, None, IfOk, IsTrue};
ghost use Rattle.sl_law_meaning.specs.book.Trees.{tree_of, stage_of};
ghost use Rattle.sl_law_meaning.specs.book.Limits.{is_within_limits};
ghost use Rattle.sl_base_terms.specs.Tests.{first_failing};
ghost use Rattle.sl_law_meaning.specs.book.Typing.{type_of, stage_column, stages_tests, columns_of};
ghost use Rattle.sl_compile_pieces.specs.exprs.Stages.{stage_pieces, stages_pieces};
ghost use Rattle.sl_compile.specs.Codes.{HasSoFar};
ghost use Rattle.sl_blocks.specs.PlanBlocks.{AreBlocks, HasRoom};
ghost use Rattle.sl_compile.specs.inner.Slots.{low_shapes};
ghost use Rattle.sl_compile.specs.inner.Earlier.{columns, Fits};

use crate::earlier::Earlier;
use crate::exprs::{Site, column_slot};
use crate::slots::stage_slot;
use sl_base_quotients::NoMemory;
use sl_blocks::copy_block;
use sl_code_instructions::Instr;
use sl_law_meaning::{ColumnType, MAX_STAGES, Shape, Stage};

/// Appends the blocks of a stage's expression, and the copy of its column into the stage's slot, and says what the column has.
fn lay_stage(code: &mut Vec<Instr>, site: &Site<'_>, stage: &Stage) -> Result<ColumnType, NoMemory>
    requires fits { let known = columns site.now.earlier.stages.now site.now.earlier.types.now
        in Fits known 0 (tree_of stage.now.expr) }
    requires number { let known = columns site.now.earlier.stages.now site.now.earlier.types.now
        in site.now.stage ≡ length known }
    requires room { let known = columns site.now.earlier.stages.now site.now.earlier.types.now
        in HasRoom (stage_pieces known site.now.stage (stage_of stage.now)) code.old.items }
    ensures has { let known = columns site.now.earlier.stages.now site.now.earlier.types.now
        in IfOk result (λ has. has ≡ type_of known (tree_of stage.now.expr)) }
    ensures blocks { let known = columns site.now.earlier.stages.now site.now.earlier.types.now
        in IfOk result (λ _. AreBlocks (HasSoFar (known ++ stage_column known (stage_of stage.now) ∷ []) (site.now.stage + 1)) (stage_pieces known site.now.stage (stage_of stage.now)) code.old.items code.new.items) }
{
    let of = site.expr(code, 0, &stage.expr)?;
    copy_block(
        code,
        of.shape,
        column_slot(0, &stage.expr, of),
        stage_slot(site.stage),
    )?;
    Ok(of)
}

/// Appends the blocks of the stages, and says what the column of each has; what stands after them is of no stage.
///
/// # Errors
/// No memory was found.
pub fn lay_stages<'a>(
    code: &mut Vec<Instr>,
    slots: &'a [Shape],
    stages: &'a [Stage],
) -> Result<[ColumnType; MAX_STAGES], NoMemory>
    requires slots { slots.now ≡ low_shapes }
    requires limits { IsTrue (is_within_limits (map stage_of stages.now)) }
    requires typed { first_failing (stages_tests [] (map stage_of stages.now)) ≡ None }
    requires room { HasRoom (stages_pieces [] 0 (map stage_of stages.now)) code.old.items }
    ensures have { IfOk result (λ types. columns stages.now types ≡ columns_of [] (map stage_of stages.now)) }
    ensures blocks { IfOk result (λ _. AreBlocks (HasSoFar (columns_of [] (map stage_of stages.now)) (length stages.now)) (stages_pieces [] 0 (map stage_of stages.now)) code.old.items code.new.items) }
{
    let mut types = [ColumnType::seats(Shape::One); MAX_STAGES];
    for (i, stage) in stages.iter().enumerate() {
        let earlier = Earlier {
            stages: &stages[..i],
            types: &types,
        };
        let site = Site {
            slots,
            earlier,
            stage: i as u8,
        };
        types[i] = lay_stage(code, &site, stage)?;
    }
    Ok(types)
}
