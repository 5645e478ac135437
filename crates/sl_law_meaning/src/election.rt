//! What an election has of a list, of a winner and of a lot.

use crate::label::Label;

/// The votes of a list, and how many names are left on it, if that is given.
#[derive(Clone, Copy)]
pub struct ListVotes {
    pub valid: u32,
    pub counted: u32,
    pub slate: Option<u32>,
}

/// The winner of a constituency: the Land, the party, if there is one, the winner's first votes, and all valid first votes.
#[derive(Clone, Copy)]
pub struct Win {
    pub land: usize,
    pub party: Option<usize>,
    pub first: u32,
    pub valid: u32,
}

/// A lot that was drawn: the Land and the party that it names, the stage, or `seats`, at which it counts, and with `seats` the winner.
#[derive(Drop)]
pub struct Lot {
    pub land: Option<usize>,
    pub party: Option<usize>,
    pub stage: Label,
    pub win: Option<usize>,
}
