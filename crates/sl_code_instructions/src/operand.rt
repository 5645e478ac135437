//! Operands of instructions that have a few values, and lists of these. The number by which a value is spelled (docs/code.md, section 2)
//! is that of its declaration, a rounding's that of its divisor method.

ghost use Rattle.std.specs.Prelude.{◌≡◌};
ghost use Rattle.sl_code_instructions.specs.Numbers.{divisor_of, rounding_of};

use sl_base_quotients::Divisor;

/// What the entries of the priority table are.
#[derive(Clone, Copy)]
pub enum Entries {
    Party,
    Land,
    List,
    Win,
}

/// Each of them, by its number.
pub const ENTRY_KINDS: [Entries; 4] = [Entries::Party, Entries::Land, Entries::List, Entries::Win];

/// By what the entries of the priority table are ranked.
#[derive(Clone, Copy)]
pub enum Ranking {
    Quotients,
    Remainders,
}

/// Each of them, by its number.
pub const RANKINGS: [Ranking; 2] = [Ranking::Quotients, Ranking::Remainders];

/// The scope that the cursors stand at.
#[derive(Clone, Copy)]
pub enum ScopeKind {
    All,
    Land,
    Party,
    List,
}

/// Each of them, by its number.
pub const SCOPE_KINDS: [ScopeKind; 4] = [
    ScopeKind::All,
    ScopeKind::Land,
    ScopeKind::Party,
    ScopeKind::List,
];

/// A column of the returns: valid votes, counted votes and names left on each list, whether a party is one of a national minority,
/// and the people of a Land.
#[derive(Clone, Copy)]
pub enum Input {
    Valid,
    Counted,
    Minority,
    Population,
    Names,
}

/// Each of them, by its number.
pub const INPUTS: [Input; 5] = [
    Input::Valid,
    Input::Counted,
    Input::Minority,
    Input::Population,
    Input::Names,
];

/// A legal fault without names, with the number of that fault.
#[derive(Clone, Copy)]
pub enum EndFault {
    Limit = 1,
    Short = 2,
    NoList = 3,
    Majority = 5,
    Cap = 6,
}

/// Each of them.
pub const END_FAULTS: [EndFault; 5] = [
    EndFault::Limit,
    EndFault::Short,
    EndFault::NoList,
    EndFault::Majority,
    EndFault::Cap,
];

/// The divisor methods whose weights are recorded: adams rounds up, webster to the nearest, jefferson down.
#[derive(Clone, Copy)]
pub enum Rounding {
    Adams,
    Webster,
    Jefferson,
}

/// Each of them, by its number.
pub const ROUNDINGS: [Rounding; 3] = [Rounding::Adams, Rounding::Webster, Rounding::Jefferson];

impl Rounding {
    /// How a divisor method rounds, if it does.
    pub fn of(divisor: Divisor) -> Option<Rounding>
        ensures { result ≡ rounding_of divisor }
    {
        match divisor {
            Divisor::Adams => Some(Rounding::Adams),
            Divisor::Webster => Some(Rounding::Webster),
            Divisor::Jefferson => Some(Rounding::Jefferson),
            _ => None,
        }
    }

    /// The divisor method that rounds so.
    pub fn divisor(self) -> Divisor
        ensures { result ≡ divisor_of self }
    {
        match self {
            Rounding::Adams => Divisor::Adams,
            Rounding::Webster => Divisor::Webster,
            Rounding::Jefferson => Divisor::Jefferson,
        }
    }
}
