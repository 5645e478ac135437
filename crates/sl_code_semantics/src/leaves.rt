//! What is known of the cursors and of the table after an instruction.

ghost use Rattle.std.specs.Prelude.{◌≡◌};
ghost use Rattle.sl_code_semantics.specs.Leaves.{cursors_behind, table_behind, with_ready};

use crate::known::{join, table_cursors};
use sl_code_instructions::{Cursors, Instr, Kinds, TableState};

/// The cursors that are set after the instruction.
pub fn cursors_behind(kinds: Kinds, instr: Instr) -> Cursors
    ensures { result ≡ cursors_behind kinds instr }
{
    let mut cursors = kinds.cursors;
    match instr {
        Instr::Wparty(..) | Instr::Fparty(..) => cursors.party = true,
        Instr::Wland | Instr::Fland(..) => cursors.land = true,
        Instr::Fwin(..) => cursors.win = true,
        Instr::Nparty(..) => cursors.party = false,
        Instr::Nland(..) => cursors.land = false,
        Instr::Nwin(..) => cursors.win = false,
        Instr::Take | Instr::Takelot(..) => {
            cursors = join(cursors, table_cursors(kinds.table));
        }
        _ => {}
    }
    cursors
}

/// The same table, known not to be empty, or not known so.
pub fn with_ready(ready: bool, table: Option<TableState>) -> Option<TableState>
    ensures { result ≡ with_ready ready table }
{
    table.map(|table| TableState { ready, ..table })
}

/// What is known of the table after the instruction.
pub fn table_behind(table: Option<TableState>, instr: Instr) -> Option<TableState>
    ensures { result ≡ table_behind table instr }
{
    match instr {
        Instr::Table(entries, ranking) => Some(TableState {
            entries,
            ranking,
            ready: false,
        }),
        Instr::Peers(..) => with_ready(true, table),
        Instr::Take | Instr::Takelot(..) => with_ready(false, table),
        _ => table,
    }
}
