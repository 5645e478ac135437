//! What a run leaves.

ghost use Rattle.std.specs.Prelude.{◌≡◌, ◌<◌, Some, slice_get, length};
ghost use Rattle.std.specs.Option.{ForSome};
ghost use Rattle.sl_law_meaning.specs.returns.Election.{Election};
ghost use Rattle.sl_code_instructions.specs.Codes.{CountingCode};
ghost use Rattle.sl_code_semantics.specs.Memories.{held_of};
ghost use Rattle.sl_code_steps.specs.inner.Leaving.{held_with, HasVacancy};
ghost use Rattle.sl_code_steps.specs.inner.Stores.{state_of, sizes_of, sizes_for};

use crate::column::Column;
use crate::store::Store;
use sl_stages::{Placed, SeatStep, Weight};
use std::marker::Model;

// Where the lists' vacant seats are: in the column of a slot, or nowhere, with a 0 for each list.
#[derive(Drop)]
pub(crate) enum Vacant {
    Column(usize),
    Nowhere(Column),
}

/// What the machine holds when a run is done (docs/machine.md, section 1).
#[derive(Drop)]
pub struct Memory {
    columns: Vec<Column>,
    base: usize,
    vacant: Vacant,
    placed: Vec<Placed>,
    steps: Vec<SeatStep>,
    weights: Vec<Weight>,
}

impl Model for Memory {
    ghost use Rattle.sl_code_semantics.specs.Memories.{Held};

    ghost Value = { Held };

    ghost use Rattle.sl_code_steps.specs.inner.Memories.{held_in, HasColumns};

    ghost view = { held_in };

    ghost invariant = { HasColumns };
}

impl Memory {
    // What a store holds that halts with the seats of the lists in a slot, and with the vacant ones if a slot is named.
    pub fn new(store: Store, base: usize, vacant: Option<usize>) -> Memory
        requires base { base < length (sizes_of store).columns }
        requires vacant { ForSome vacant (λ slot. slot < length (sizes_of store).columns) }
        ensures { (c : CountingCode) (e : Election) → sizes_of store ≡ sizes_for c e → result ≡ held_of c e base vacant (state_of store) }
    {
        match vacant {
            Some(slot) => Memory::of(store, base, Vacant::Column(slot)),
            None => {
                let zeros = Column::zeros(store.alloc, store.columns[base].len());
                Memory::of(store, base, Vacant::Nowhere(zeros))
            }
        }
    }

    // What a store holds, with its seats and its vacant seats.
    fn of(store: Store, base: usize, vacant: Vacant) -> Memory
        requires base { base < length (sizes_of store).columns }
        requires vacant { HasVacancy store vacant }
        ensures { result ≡ held_with store base vacant }
    {
        Memory {
            columns: store.columns,
            base,
            vacant,
            placed: store.placed,
            steps: store.steps,
            weights: store.weights,
        }
    }

    /// The column of a slot.
    pub fn column(&self, slot: usize) -> &[u64]
        requires { slot < length self.now.columns }
        ensures { slice_get self.now.columns slot ≡ Some result.now }
    {
        self.columns[slot].as_slice()
    }

    /// The seats of the lists, in the order of Länder and then of parties.
    pub fn base(&self) -> &[u64]
        ensures { result.now ≡ self.now.base }
    {
        self.columns[self.base].as_slice()
    }

    /// The vacant seats of the lists, all 0 where the code names none.
    pub fn vacant(&self) -> &[u64]
        ensures { result.now ≡ self.now.vacant }
    {
        match &self.vacant {
            Vacant::Column(slot) => self.columns[*slot].as_slice(),
            Vacant::Nowhere(zeros) => zeros.as_slice(),
        }
    }

    /// Where a winner sits.
    pub fn placed(&self, win: usize) -> Placed
        requires { win < length self.now.placed }
        ensures { slice_get self.now.placed win ≡ Some result }
    {
        self.placed[win]
    }

    /// The seat steps, in the order in which they were recorded.
    pub fn steps(&self) -> &[SeatStep]
        ensures { result.now ≡ self.now.steps }
    {
        self.steps.as_slice()
    }

    /// The weights, in the order in which they were recorded.
    pub fn weights(&self) -> &[Weight]
        ensures { result.now ≡ self.now.weights }
    {
        self.weights.as_slice()
    }

    /// The seat steps and the weights themselves, each in the order in which they were recorded. What else is held is let go.
    pub fn into_records(self) -> (Vec<SeatStep>, Vec<Weight>)
        ensures steps { result.0.items ≡ self.steps }
        ensures weights { result.1.items ≡ self.weights }
    {
        (self.steps, self.weights)
    }
}
