//! The lots that the records have given, where a lot given before is found by its key.

ghost use Rattle.std.specs.Prelude.{◌≡◌, ◌++◌, ◌∷◌, [], false, OnOk};
ghost use Rattle.sl_returns.specs.Tests.{has_lot, same_lot};
ghost use Rattle.sl_returns.specs.inner.Lots.{lot_told};
ghost use Rattle.sl_returns.specs.inner.LotKeys.{lot_kept, fed_alike, same_as_equal};

use crate::lot::ToldLot;
use indexmap::{Equivalent, IndexSet};
use sl_base_quotients::NoMemory;
use std::alloc::Global;
use std::marker::Model;

// A lot, as it is kept to be found again.
#[derive(PartialEq, Eq, Hash, Drop)]
struct LotKey {
    land: Option<usize>,
    party: Option<usize>,
    stage: Vec<u8>,
    win: Option<usize>,
}

// A lot is looked up as a record tells it.
impl Equivalent<LotKey> for ToldLot<'_> {
    ghost equivalent = { λ lot key. same_lot (lot_kept key) (lot_told lot) };

    ghost respects_hash = { λ lot key. fed_alike (lot_kept key) (lot_told lot) };

    ghost respects_eq = { λ lot x y. same_as_equal (lot_told lot) (lot_kept x) (lot_kept y) };

    fn equivalent(&self, key: &LotKey) -> bool {
        key.land == self.land
            && key.party == self.party
            && key.stage.as_slice() == self.stage
            && key.win == self.win
    }
}

// The lots that the records have given, in their order.
#[derive(Drop)]
pub(crate) struct ToldLots {
    keys: IndexSet<LotKey>,
    alloc: Global,
}

impl Model for ToldLots {
    ghost use Rattle.std.specs.Prelude.{List, map};
    ghost use Rattle.sl_law_meaning.specs.declared.election.Lot.{Lot};
    ghost use Rattle.sl_returns.specs.inner.LotKeys.{lot_kept};

    ghost Value = { List Lot };

    ghost view = { λ told. map lot_kept told.keys.keys };
}

impl ToldLots {
    // No lots. Takes no memory.
    pub(crate) fn new(alloc: Global) -> ToldLots
        ensures { result ≡ [] }
    {
        ToldLots {
            keys: IndexSet::new(alloc),
            alloc,
        }
    }

    // Whether a lot is one of them.
    pub(crate) fn contains(&self, lot: &ToldLot<'_>) -> bool
        ensures { result ≡ has_lot self.now (lot_told lot.now) }
    {
        self.keys.contains(*lot)
    }

    // Adds a lot that is none of them.
    pub(crate) fn add(&mut self, lot: &ToldLot<'_>) -> Result<(), NoMemory>
        requires new { has_lot self.old (lot_told lot.now) ≡ false }
        ensures added { OnOk result (self.new ≡ self.old ++ lot_told lot.now ∷ []) }
    {
        let key = LotKey {
            land: lot.land,
            party: lot.party,
            stage: Vec::from_slice(self.alloc, lot.stage)?,
            win: lot.win,
        };
        self.keys.insert(key)?;
        Ok(())
    }
}
