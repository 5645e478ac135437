//! One condition at most of each kind.

use sl_law_meaning::Number;

/// At least `share` votes in each `per` of all valid votes.
#[derive(Clone, Copy)]
pub struct Share {
    pub share: Number,
    pub per: u32,
}

/// Conditions of which a party that takes part meets one.
#[derive(Clone, Copy)]
pub struct Easiest {
    pub valid: Option<Share>,
    /// At least so many winners.
    pub winners: Option<u32>,
    /// The parties of national minorities.
    pub minority: bool,
    /// Every party.
    pub all: bool,
}
