//! The stages of a code: their names, and the slots of their columns.

ghost use Rattle.std.specs.Prelude.{◌≡◌, ◌≤◌, All, length, map, IfOk};
ghost use Rattle.sl_law_meaning.specs.book.Trees.{stage_of};
ghost use Rattle.sl_code_instructions.specs.Proper.{IsStage};
ghost use Rattle.sl_compile.specs.Codes.{code_stages};

use crate::slots::stage_slot;
use sl_base_quotients::NoMemory;
use sl_code_instructions::CodeStage;
use sl_law_meaning::{MAX_STAGES, Stage, Word};
use std::alloc::Global;

/// The stages of the code.
///
/// # Errors
/// No memory was found.
pub fn code_stages(alloc: Global, stages: &[Stage]) -> Result<Vec<CodeStage>, NoMemory>
    requires { length stages.now ≤ MAX_STAGES }
    ensures named { IfOk result (λ named. named.items ≡ code_stages 0 (map stage_of stages.now)) }
    ensures words { IfOk result (λ named. All IsStage named.items) }
{
    let mut named = Vec::new(alloc);
    for (i, stage) in stages.iter().enumerate() {
        let name = Word::new(alloc, stage.name.as_bytes())?;
        named.push(CodeStage {
            name,
            slot: stage_slot(i as u8),
        })?;
    }
    Ok(named)
}
