//! Legal faults: where and why a rulebook gives no table.

ghost use Rattle.std.specs.Prelude.{◌≡◌};

use std::marker::Model;

/// One of the parts in which a stage distributes seats: a single one, or one for each Land, party or list. Pairs have the Land first.
#[derive(Clone, Copy, PartialEq, Eq)]
pub enum Scope {
    All,
    Land(usize),
    Party(usize),
    List(usize, usize),
}

/// What takes part in a scope, by its number: a party, a Land, a list (its Land first), or a constituency winner.
#[derive(Clone, Copy, PartialEq, Eq)]
pub enum Item {
    Party(usize),
    Land(usize),
    List(usize, usize),
    Win(usize),
}

/// The items of a tie, in their order.
#[derive(Drop)]
pub struct Items {
    items: Vec<Item>,
}

impl Model for Items {
    ghost use Rattle.std.specs.Prelude.{List};
    ghost use Rattle.sl_law_meaning.specs.declared.fault.Item.{Item as Entry};

    ghost Value = { List Entry };

    ghost view = { λ i. i.items.items };
}

impl Items {
    /// The items of a vector. Takes no memory.
    pub fn new(items: Vec<Item>) -> Items
        ensures { result ≡ items.items }
    {
        Items { items }
    }

    /// The items.
    pub fn as_slice(&self) -> &[Item]
        ensures { result.now ≡ self.now }
    {
        self.items.as_slice()
    }
}

/// Why a scope of a stage has no seats.
#[derive(Drop)]
pub enum FaultKind {
    /// More than `MAX_SEATS` seats are to be distributed.
    Limit,
    /// The minima sum to more than the seats.
    Short,
    /// No entry has weight, and there are seats to give beyond the minima, or it is a growth.
    NoList,
    /// So many seats fall to more items with equal claims, and no lot names them all.
    Tie { seats: u64, names: Items },
    /// An entry with more than half of the votes has no more than half of the seats.
    Majority,
    /// No house up to the cap meets the minima.
    Cap,
}

/// A legal fault. The stage is its number from 0, or the number of stages for the last clause.
#[derive(Drop)]
pub struct LegalFault {
    pub stage: usize,
    pub scope: Scope,
    pub kind: FaultKind,
}
