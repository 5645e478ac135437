//! Tables from which seats are awarded: the entry that gets a seat is taken, and mostly comes back with its next quotient.

ghost use Rattle.std.specs.Prelude.{◌≡◌, ◌∷◌, [], length, IfSome, IfNone, OnOk, OnErr, IsPermutation, option_map};
ghost use Rattle.sl_base_rankings.specs.Peers.{top, peers, is_covered};
ghost use Rattle.sl_base_rankings.specs.Lot.{drawn};
ghost use Rattle.sl_prio.specs.inner.Taken.{held_in};
ghost use Rattle.sl_prio.specs.inner.Marks.{IsPassed};

use crate::prio::{Drawn, Prio};
use sl_base_quotients::{Entry, NoMemory};
use std::alloc::Global;
use std::marker::Model;

/// A priority table that puts off the work of a taking. A top without other peers stays where it stands when it is taken: if another
/// entry comes in before anything else is asked, that one goes in its place.
#[derive(Drop)]
pub struct AwardTable {
    prio: Prio,
    is_top_taken: bool,
}

impl Model for AwardTable {
    ghost use Rattle.std.specs.Prelude.{◌≡◌, List, IsTrue, length};
    ghost use Rattle.sl_base_quotients.specs.declared.entry.Entry.{Entry};
    ghost use Rattle.sl_base_rankings.specs.Peers.{peers};
    ghost use Rattle.sl_prio.specs.inner.Taken.{held_in};

    ghost Value = { List Entry };

    ghost view = { λ a. held_in a.is_top_taken a.prio };

    ghost invariant = { λ a. IsTrue a.is_top_taken → length (peers a.prio) ≡ 1 };
}

// Takes the top of a table away, if it is taken.
fn settle(prio: &mut Prio, is_top_taken: bool)
    ensures { IsPermutation (held_in is_top_taken prio.old) prio.new }
{
    if is_top_taken {
        let _ = prio.take();
    }
}

impl AwardTable {
    /// A table without an entry. Takes no memory.
    pub fn new(alloc: Global) -> AwardTable
        ensures { result ≡ [] }
    {
        AwardTable {
            prio: Prio::new(alloc),
            is_top_taken: false,
        }
    }

    /// Takes all entries away.
    pub fn clear(&mut self)
        ensures { self.new ≡ [] }
    {
        self.is_top_taken = false;
        self.prio.clear();
    }

    /// Puts an entry into the table, in addition to those that it holds, an equal one too.
    ///
    /// # Errors
    ///
    /// Out of memory. The table is then unchanged.
    pub fn put(&mut self, entry: Entry) -> Result<(), NoMemory>
        ensures added { OnOk result (IsPermutation (entry ∷ self.old) self.new) }
        ensures unchanged { OnErr result (self.new ≡ self.old) }
    {
        if !self.is_top_taken {
            return self.prio.put(entry);
        }
        self.is_top_taken = false;
        self.prio.replace_top(entry);
        Ok(())
    }

    /// Takes the greatest entry away, and answers it, or `None` where there is none.
    pub fn take(&mut self) -> Option<Entry>
        ensures top { result ≡ top self.old }
        ensures rest { IfSome result (λ entry. IsPermutation self.old (entry ∷ self.new)) }
        ensures none { IfNone result (IsPermutation self.old self.new) }
    {
        settle(&mut self.prio, self.is_top_taken);
        self.is_top_taken = self.prio.peers() == 1;
        if self.is_top_taken {
            self.prio.top()
        } else {
            self.prio.take()
        }
    }

    /// The greatest entry, or `None` where there is none.
    pub fn top(&mut self) -> Option<Entry>
        ensures value { result ≡ top self.old }
        ensures same { IsPermutation self.old self.new }
    {
        settle(&mut self.prio, self.is_top_taken);
        self.is_top_taken = false;
        self.prio.top()
    }

    /// The number of entries with the quotient of the top, which is 0 where there is no entry.
    pub fn peers(&mut self) -> usize
        ensures value { result ≡ length (peers self.old) }
        ensures same { IsPermutation self.old self.new }
    {
        settle(&mut self.prio, self.is_top_taken);
        self.is_top_taken = false;
        self.prio.peers()
    }

    /// Whether a lot names the index of each peer of the top, as it does where there is no entry.
    pub fn covers(&mut self, lot: &[u32]) -> bool
        ensures value { result ≡ is_covered lot.now self.old }
        ensures same { IsPermutation self.old self.new }
    {
        settle(&mut self.prio, self.is_top_taken);
        self.is_top_taken = false;
        self.prio.covers(lot)
    }

    /// Takes the peer that a lot draws away, as `Prio::take_lot_from` does.
    pub fn take_lot_from(&mut self, lot: &[u32], passed: usize) -> Option<Drawn>
        requires { IsPassed lot.now passed (peers self.old) }
        ensures drawn { option_map (λ taken. taken.entry) result ≡ drawn lot.now self.old }
        ensures rest { IfSome result (λ taken. IsPermutation self.old (taken.entry ∷ self.new)) }
        ensures passed { IfSome result (λ taken. IsPassed lot.now taken.passed (peers self.new)) }
        ensures none { IfNone result (IsPermutation self.old self.new) }
    {
        settle(&mut self.prio, self.is_top_taken);
        self.is_top_taken = false;
        self.prio.take_lot_from(lot, passed)
    }
}
