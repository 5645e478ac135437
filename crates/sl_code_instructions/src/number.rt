//! The numbers of operands of a few values (docs/code.md, section 2).

ghost use Rattle.std.specs.Prelude.{◌≡◌};
ghost use Rattle.sl_code_instructions.specs.Numbers.{scope_number, entries_number, ranking_number, input_number, rounding_number, fault_number, cursors_number, table_number};

use crate::kinds::{Cursors, TableState};
use crate::operand::{EndFault, Entries, Input, Ranking, Rounding, ScopeKind};

impl ScopeKind {
    /// The number by which it is spelled and listed.
    pub fn number(self) -> u8
        ensures { result ≡ scope_number self }
    {
        self as u8
    }
}

impl Entries {
    /// The number by which it is spelled and listed.
    pub fn number(self) -> u8
        ensures { result ≡ entries_number self }
    {
        self as u8
    }
}

impl Ranking {
    /// The number by which it is spelled and listed.
    pub fn number(self) -> u8
        ensures { result ≡ ranking_number self }
    {
        self as u8
    }
}

impl Input {
    /// The number by which it is spelled and listed.
    pub fn number(self) -> u8
        ensures { result ≡ input_number self }
    {
        self as u8
    }
}

impl Rounding {
    /// The number by which it is spelled and listed.
    pub fn number(self) -> u8
        ensures { result ≡ rounding_number self }
    {
        self.divisor().number()
    }
}

impl EndFault {
    /// The number by which it is spelled and listed.
    pub fn number(self) -> u8
        ensures { result ≡ fault_number self }
    {
        self as u8
    }
}

impl Cursors {
    /// The number by which it is spelled and listed.
    pub fn number(self) -> u8
        ensures { result ≡ cursors_number self }
    {
        u8::from(self.party) + 2 * u8::from(self.land) + 4 * u8::from(self.win)
    }
}

impl TableState {
    /// The number by which it is spelled and listed.
    pub fn number(table: Option<TableState>) -> u8
        ensures { result ≡ table_number table }
    {
        match table {
            None => 0,
            Some(table) => {
                1 + table.entries.number() + 4 * table.ranking.number() + 8 * u8::from(table.ready)
            }
        }
    }
}
