//! What is known at a place of a code: the registers of the machine, and the cursors.

ghost use Rattle.std.specs.Prelude.{◌≡◌};
ghost use Rattle.sl_code_semantics.specs.Kinds.{join};
ghost use Rattle.sl_code_semantics.specs.Needs.{entry_cursors, table_cursors};

use sl_code_instructions::{Cursors, Entries, TableState};

/// Registers of the machine.
pub const REGISTERS: u8 = 16;

pub const NO_CURSORS: Cursors = Cursors {
    party: false,
    land: false,
    win: false,
};

pub const PARTY_CURSOR: Cursors = Cursors {
    party: true,
    land: false,
    win: false,
};

pub const LAND_CURSOR: Cursors = Cursors {
    party: false,
    land: true,
    win: false,
};

pub const LIST_CURSORS: Cursors = Cursors {
    party: true,
    land: true,
    win: false,
};

pub const WIN_CURSOR: Cursors = Cursors {
    party: false,
    land: false,
    win: true,
};

/// The stage number that stands for the last clause.
pub const LAST_CLAUSE: u8 = 255;

/// The cursors of both sets.
pub fn join(a: Cursors, b: Cursors) -> Cursors
    ensures { result ≡ join a b }
{
    Cursors {
        party: a.party || b.party,
        land: a.land || b.land,
        win: a.win || b.win,
    }
}

/// The cursors that say an entry of a table of these.
pub fn entry_cursors(entries: Entries) -> Cursors
    ensures { result ≡ entry_cursors entries }
{
    match entries {
        Entries::Party => PARTY_CURSOR,
        Entries::Land => LAND_CURSOR,
        Entries::List => LIST_CURSORS,
        Entries::Win => WIN_CURSOR,
    }
}

/// The cursors that say an entry of the table.
pub fn table_cursors(table: Option<TableState>) -> Cursors
    ensures { result ≡ table_cursors table }
{
    match table {
        None => NO_CURSORS,
        Some(table) => entry_cursors(table.entries),
    }
}
