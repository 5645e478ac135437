//! What is known of cursors and table along a plan.

ghost use Rattle.std.specs.Prelude.{◌≡◌};
ghost use Rattle.sl_compile_plans.specs.Trees.{at_join, known_after, known_in_arm, with_cursor_known};

use sl_code_instructions::{Instr, Kinds};
use sl_code_semantics::{cursors_behind, table_behind, with_ready};
use sl_compile_plans::{Cursor, Test};

/// What is known where a form ends that began with this known.
pub fn at_join(known: Kinds) -> Kinds
    ensures { result ≡ at_join known }
{
    Kinds {
        table: with_ready(false, known.table),
        ..known
    }
}

/// What is known after the instruction.
pub fn known_after(known: Kinds, instr: Instr) -> Kinds
    ensures { result ≡ known_after known instr }
{
    Kinds {
        cursors: cursors_behind(known, instr),
        table: table_behind(known.table, instr),
        ..known
    }
}

/// What is known where the test jumps to.
pub fn known_in_arm(known: Kinds, test: Test) -> Kinds
    ensures { result ≡ known_in_arm known test }
{
    let mut known = known;
    match test {
        Test::NoParty => known.cursors.party = false,
        _ => {}
    }
    known
}

/// The same, with that cursor known to be set, or not known so.
pub fn with_cursor_known(over: Cursor, set: bool, known: Kinds) -> Kinds
    ensures { result ≡ with_cursor_known over set known }
{
    let mut known = known;
    match over {
        Cursor::Party => known.cursors.party = set,
        Cursor::Land => known.cursors.land = set,
        Cursor::Win => known.cursors.win = set,
    }
    known
}
