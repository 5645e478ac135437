//! What a plan of counting code asks and goes over.

use sl_code_semantics::REGISTERS;

/// The register of the number 1, by which other registers count.
pub const ONES: u8 = REGISTERS - 1;

/// What a jump asks.
#[derive(Clone, Copy)]
pub enum Test {
    /// Is the register 0?
    Zero(u8),
    /// Is the first register less than the second?
    Less(u8, u8),
    /// Have the Land and the party of the cursors no list?
    NoList,
    /// Has the winner no party? Else the party cursor is the winner's party.
    NoParty,
    /// Is the priority table empty? Else the register is the number of peers of its top.
    Empty(u8),
    /// Does the stage's lot leave a peer of the top unnamed?
    NotCovered(u8),
}

/// What a loop goes over.
#[derive(Clone, Copy)]
pub enum Cursor {
    Party,
    Land,
    Win,
}

/// How many turns a counted loop makes at most.
#[derive(Clone, Copy)]
pub enum Bound {
    /// So many.
    AtMost(u32),
    /// One for each pair of a Land and a party.
    Lists,
    /// One for each winner.
    Wins,
}
