//! The values of operands and slots by their numbers (docs/code.md, section 2).

ghost use Rattle.std.specs.Prelude.{◌≡◌, ℕ, Bool, false, MatchOption};
ghost use Rattle.sl_base_quotients.specs.Quotient.{method_number};
ghost use Rattle.sl_base_terms.specs.Shapes.{shape_number};
ghost use Rattle.sl_code_instructions.specs.Numbers.{scope_number, entries_number, ranking_number, input_number, rounding_number, fault_number, cursors_number, table_number};
ghost use Rattle.sl_code.specs.Operands.{is_below, is_scope, is_entries, is_ranking, is_input, is_method, is_rounding, is_end_fault, is_shape};

use sl_base_quotients::{DIVISORS, Divisor};
use sl_code_instructions::{
    Cursors, END_FAULTS, ENTRY_KINDS, EndFault, Entries, INPUTS, Input, RANKINGS, Ranking,
    Rounding, SCOPE_KINDS, ScopeKind, TableState,
};
use sl_law_meaning::{SHAPES, Shape};

/// A value of an operand or a slot that is spelled by its number, in one byte.
pub(crate) trait FromNumber: Copy {
    /// The number of a value.
    ghost number_of: { Self → ℕ };

    /// Which bytes are a number of one.
    ghost is_number: { ℕ → Bool };

    /// The value of that number, if there is one.
    fn from_number(number: u8) -> Option<Self>
        ensures { MatchOption result (is_number number ≡ false) (λ x. number_of x ≡ number) };
}

impl FromNumber for ScopeKind {
    ghost number_of = { scope_number };

    ghost is_number = { is_scope };

    fn from_number(number: u8) -> Option<ScopeKind> {
        SCOPE_KINDS.get(usize::from(number)).copied()
    }
}

impl FromNumber for Entries {
    ghost number_of = { entries_number };

    ghost is_number = { is_entries };

    fn from_number(number: u8) -> Option<Entries> {
        ENTRY_KINDS.get(usize::from(number)).copied()
    }
}

impl FromNumber for Ranking {
    ghost number_of = { ranking_number };

    ghost is_number = { is_ranking };

    fn from_number(number: u8) -> Option<Ranking> {
        RANKINGS.get(usize::from(number)).copied()
    }
}

impl FromNumber for Input {
    ghost number_of = { input_number };

    ghost is_number = { is_input };

    fn from_number(number: u8) -> Option<Input> {
        INPUTS.get(usize::from(number)).copied()
    }
}

impl FromNumber for Rounding {
    ghost number_of = { rounding_number };

    ghost is_number = { is_rounding };

    fn from_number(number: u8) -> Option<Rounding> {
        Rounding::of(Divisor::from_number(number)?)
    }
}

impl FromNumber for EndFault {
    ghost number_of = { fault_number };

    ghost is_number = { is_end_fault };

    fn from_number(number: u8) -> Option<EndFault> {
        END_FAULTS.iter().copied().find(|x| x.number() == number)
    }
}

impl FromNumber for Cursors {
    ghost number_of = { cursors_number };

    ghost is_number = { is_below 8 };

    fn from_number(number: u8) -> Option<Cursors> {
        if number >= 8 {
            return None;
        }
        Some(Cursors {
            party: number % 2 == 1,
            land: number / 2 % 2 == 1,
            win: number / 4 == 1,
        })
    }
}

impl FromNumber for Option<TableState> {
    ghost number_of = { table_number };

    ghost is_number = { is_below 17 };

    fn from_number(number: u8) -> Option<Option<TableState>> {
        if number == 0 {
            return Some(None);
        }
        if number >= 17 {
            return None;
        }
        let bits = number - 1;
        Some(Some(TableState {
            entries: Entries::from_number(bits % 4)?,
            ranking: Ranking::from_number(bits / 4 % 2)?,
            ready: bits / 8 == 1,
        }))
    }
}

impl FromNumber for Divisor {
    ghost number_of = { method_number };

    ghost is_number = { is_method };

    fn from_number(number: u8) -> Option<Divisor> {
        DIVISORS.get(usize::from(number)).copied()
    }
}

impl FromNumber for Shape {
    ghost number_of = { shape_number };

    ghost is_number = { is_shape };

    fn from_number(number: u8) -> Option<Shape> {
        SHAPES.get(usize::from(number)).copied()
    }
}
