//! Operations on what is known at a place.

ghost use Rattle.std.specs.Prelude.{◌≡◌, IsTrue};
ghost use Rattle.sl_code_semantics.specs.Kinds.{is_register, contains, with_register, includes, covers, same_entries, same_ranking, fits_table, implies};

use sl_code_instructions::{Cursors, Entries, Kinds, Ranking, Registers, TableState};
use sl_code_semantics::{NO_CURSORS, REGISTERS};

/// What is known at the start of a run.
pub const START: Kinds = Kinds {
    positive: Registers { mask: 0 },
    cursors: NO_CURSORS,
    table: None,
};

/// Whether the machine has a register of that number.
pub fn is_register(register: u8) -> bool
    ensures { result ≡ is_register register }
{
    register < REGISTERS
}

/// Whether the register is in the set.
pub fn contains(registers: Registers, register: u8) -> bool
    requires { IsTrue (is_register register) }
    ensures { result ≡ contains registers register }
{
    (registers.mask >> register) & 1 == 1
}

/// The set with the register in it, or without it.
pub fn with_register(is_in: bool, register: u8, registers: Registers) -> Registers
    requires { IsTrue (is_register register) }
    ensures { result ≡ with_register is_in register registers }
{
    let bit: u16 = 1 << register;
    let mask = if is_in {
        registers.mask | bit
    } else {
        registers.mask & !bit
    };
    Registers { mask }
}

/// Whether the first set has each register of the second.
pub fn includes(have: Registers, need: Registers) -> bool
    ensures { result ≡ includes have need }
{
    have.mask & need.mask == need.mask
}

/// Whether the first set has each cursor of the second.
pub fn covers(have: Cursors, need: Cursors) -> bool
    ensures { result ≡ covers have need }
{
    (have.party || !need.party) && (have.land || !need.land) && (have.win || !need.win)
}

pub fn same_entries(a: Entries, b: Entries) -> bool
    ensures { result ≡ same_entries a b }
{
    a == b
}

pub fn same_ranking(a: Ranking, b: Ranking) -> bool
    ensures { result ≡ same_ranking a b }
{
    a == b
}

/// Whether a table of which the first is known is one of which the second is.
pub fn fits_table(have: Option<TableState>, need: Option<TableState>) -> bool
    ensures { result ≡ fits_table have need }
{
    match (have, need) {
        (_, None) => true,
        (None, Some(_)) => false,
        (Some(have), Some(need)) => {
            same_entries(have.entries, need.entries)
                && same_ranking(have.ranking, need.ranking)
                && (have.ready || !need.ready)
        }
    }
}

/// Whether a state of which the first kinds are known is one of which the second are.
pub fn implies(have: Kinds, need: Kinds) -> bool
    ensures { result ≡ implies have need }
{
    includes(have.positive, need.positive)
        && covers(have.cursors, need.cursors)
        && fits_table(have.table, need.table)
}
