//! Seat tables.

ghost use Rattle.std.specs.Prelude.{◌≡◌};

use crate::fault::{Item, LegalFault, Scope};
use sl_base_quotients::{Divisor, Ratio};
use std::marker::Model;

/// What won a seat.
#[derive(Clone, Copy)]
pub enum Mark {
    /// A minimum, a whole part, or an entry without votes.
    Given,
    /// A quotient.
    Quotient(Ratio),
    /// A remainder.
    Rest(u64),
    /// The majority clause that prefers an entry.
    Lead,
}

/// The step that won a seat: the n-th one of an entry in a scope of a stage.
#[derive(Clone, Copy)]
pub struct SeatStep {
    pub stage: usize,
    pub scope: Scope,
    pub entry: Item,
    pub n: u64,
    pub step: u64,
    pub mark: Mark,
}

/// The weight of an entry of the field, in a scope of a stage that Adams', Webster's or Jefferson's method splits without minima.
#[derive(Clone, Copy)]
pub struct Weight {
    pub stage: usize,
    pub scope: Scope,
    pub entry: Item,
    pub divisor: Divisor,
    pub weight: u64,
}

/// A list's seats, the constituency winners seated on it, and its vacant seats.
#[derive(Clone, Copy)]
pub struct ListSeats {
    pub land: usize,
    pub party: usize,
    pub seats: u64,
    pub direct: u64,
    pub vacant: u64,
}

/// Where a constituency winner sits.
#[derive(Clone, Copy)]
pub enum Placed {
    Unseated,
    OnList,
    Single,
}

/// A seat table: the lists in list order, the winners in the order of their records, and the steps and weights in any order.
#[derive(Drop)]
pub struct Table {
    lists: Vec<ListSeats>,
    placed: Vec<Placed>,
    steps: Vec<SeatStep>,
    weights: Vec<Weight>,
}

impl Model for Table {
    ghost use Rattle.sl_law_meaning.specs.meaning.Tables.{SeatTable};

    ghost Value = { SeatTable };

    ghost view = { λ t. record { lists = t.lists.items; placed = t.placed.items; steps = t.steps.items; weights = t.weights.items } };
}

impl Table {
    /// A table of these parts. Takes no memory.
    pub fn new(
        lists: Vec<ListSeats>,
        placed: Vec<Placed>,
        steps: Vec<SeatStep>,
        weights: Vec<Weight>,
    ) -> Table
        ensures { result ≡ record { lists = lists.items; placed = placed.items; steps = steps.items; weights = weights.items } }
    {
        Table {
            lists,
            placed,
            steps,
            weights,
        }
    }

    /// The lists, in list order.
    pub fn lists(&self) -> &[ListSeats]
        ensures { result.now ≡ self.now.lists }
    {
        self.lists.as_slice()
    }

    /// Where the winners sit, in the order of their records.
    pub fn placed(&self) -> &[Placed]
        ensures { result.now ≡ self.now.placed }
    {
        self.placed.as_slice()
    }

    /// The steps that won seats, in any order.
    pub fn steps(&self) -> &[SeatStep]
        ensures { result.now ≡ self.now.steps }
    {
        self.steps.as_slice()
    }

    /// The weights, in any order.
    pub fn weights(&self) -> &[Weight]
        ensures { result.now ≡ self.now.weights }
    {
        self.weights.as_slice()
    }
}

/// What a rulebook comes to on returns.
#[derive(Drop)]
pub enum Outcome {
    Table(Table),
    Fault(LegalFault),
}
