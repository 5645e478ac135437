//! A worked plan: the sum of a column over all lists.

ghost use Rattle.std.specs.Prelude.{◌≡◌, ◌+◌, ◌≤◌, ◌++◌, IfOk, OnErr, vec_len};
ghost use Rattle.sl_compile_plans.specs.Sums.{sum_tree};
ghost use Rattle.sl_compile_plans.specs.Trees.{flat};

use crate::emitter::emit;
use crate::plan::{Part, Plan};
use sl_base_quotients::NoMemory;
use sl_code_instructions::{Instr, Kinds, MAX_INSTRS};
use sl_compile_plans::Cursor;

const ADD_CELL: &Plan<'static> = &Plan::Line(&[Part::Given(0), Part::Fixed(Instr::Add(1, 0))]);

const EACH_LIST: &Plan<'static> = &Plan::Each(Cursor::Land, &Plan::Each(Cursor::Party, ADD_CELL));

const SUM: &Plan<'static> = &Plan::Then(&Plan::Line(&[Part::Fixed(Instr::Set(1, 0))]), EACH_LIST);

/// Appends the 11 instructions that leave the sum of a list column in register 1, and says what is known after them.
///
/// # Errors
/// Without memory, the code is as it was.
pub fn sum_column(code: &mut Vec<Instr>, slot: u8, known: Kinds) -> Result<Kinds, NoMemory>
    requires { vec_len code.old + 11 ≤ MAX_INSTRS }
    ensures ok { IfOk result (λ after. code.new.items ≡ code.old.items ++ flat known (vec_len code.old) (sum_tree slot)) }
    ensures err { OnErr result (code.new.items ≡ code.old.items) }
{
    emit(code, SUM, &[Instr::Get(0, slot)], known)
}
