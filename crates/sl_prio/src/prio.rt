//! The entries of a scope, from which the greatest is taken first.

ghost use Rattle.std.specs.Prelude.{◌≡◌, ◌<◌, ◌&&◌, ◌↔◌, IsTrue, Contains, [], ◌∷◌, length, slice_get, slice_index_or, OnOk, OnErr, IfSome, IfNone, IsPermutation, MatchOption, Some, option_map};
ghost use Rattle.sl_prio.specs.inner.Heap.{IsNewPeer};
ghost use Rattle.std.specs.List.{count_by, filter};
ghost use Rattle.std.specs.Ordering.{is_gt, is_ge};
ghost use Rattle.sl_base_quotients.specs.Quotient.{FitsRatio};
ghost use Rattle.sl_base_quotients.specs.Entry.{entry_cmp};
ghost use Rattle.sl_base_rankings.specs.Ranking.{ranked};
ghost use Rattle.sl_base_rankings.specs.Peers.{has_quotient_of, top, peers, is_covered};
ghost use Rattle.sl_base_rankings.specs.Lot.{drawn};
ghost use Rattle.sl_prio.specs.inner.Marks.{IsPassed};

use crate::heap::{across, raise, replace_first, take_out};
use crate::lot::{LEAST_MARKS, MARKS, marks};
use crate::peers::{Counted, are_named, drawn_at, is_peer, marked_again, peers_left};
use crate::places::note;
use sl_base_quotients::{Entry, NoMemory};
use std::alloc::Global;
use std::marker::Model;

/// An entry that a lot drew, and a place of the lot before which it names none of the peers that are left.
#[derive(Clone, Copy)]
pub struct Drawn {
    pub entry: Entry,
    pub passed: usize,
}

/// A priority table: the entries that it holds, of which the greatest is the top. The peers of the top are the entries with its
/// quotient, the top among them.
#[derive(Drop)]
pub struct Prio {
    entries: Vec<Entry>,
    // the peers, the top among them
    counted: Counted,
    // by index, as far as they reach: the peers' indexes have marks, and another may have one that a peer left after
    marks: Vec<bool>,
    // by index, as far as they reach: where the peers stand, or stood before they rose
    places: Vec<u16>,
}

impl Model for Prio {
    ghost use Rattle.std.specs.Prelude.{List};
    ghost use Rattle.sl_base_quotients.specs.declared.entry.Entry.{Entry};
    ghost use Rattle.sl_prio.specs.inner.Heap.{IsTable};

    ghost Value = { List Entry };

    ghost view = { λ p. p.entries.items };

    ghost invariant = { λ p. IsTable p.entries.items p.counted.count p.counted.marked p.marks.items };
}

impl Prio {
    /// A table without an entry. Takes no memory.
    pub fn new(alloc: Global) -> Prio
        ensures { result ≡ [] }
    {
        Prio {
            entries: Vec::new(alloc),
            counted: Counted::NONE,
            marks: Vec::new(alloc),
            places: Vec::new(alloc),
        }
    }

    /// Takes all entries away.
    pub fn clear(&mut self)
        ensures { self.new ≡ [] }
    {
        self.entries.clear();
        self.counted = Counted::NONE;
    }

    /// Puts an entry into the table, in addition to those that it holds, an equal one too.
    ///
    /// # Errors
    ///
    /// Out of memory. The table is then unchanged.
    pub fn put(&mut self, entry: Entry) -> Result<(), NoMemory>
        ensures added { OnOk result (IsPermutation (entry ∷ self.old) self.new) }
        ensures unchanged { OnErr result (self.new ≡ self.old) }
    {
        let index = entry.index as usize;
        if index >= self.marks.len() && index < MARKS {
            self.reach(index)?;
        }
        self.add(entry)
    }

    // Adds an entry to those that there are.
    fn add(&mut self, entry: Entry) -> Result<(), NoMemory>
        ensures added { OnOk result (IsPermutation (entry ∷ self.old) self.new) }
        ensures unchanged { OnErr result (self.new ≡ self.old) }
    {
        // no ratio has numerator 0: in order, only entries with their quotient come between two entries with one quotient
        prove!(entry.ratio.num() > 0);
        let joined = self.peers_with(&entry);
        let place = self.entries.len();
        self.entries.push(entry)?;
        raise(&mut self.entries, &mut self.places, place, entry);
        let Some(count) = joined else {
            return Ok(());
        };
        // from there it has risen
        note(&mut self.places, entry.index, place);
        self.counted = self.counted.with_one(count, &mut self.marks, entry.index);
        Ok(())
    }

    // Makes the marks and the places reach an index, and as far again, so that they seldom grow. It stands apart so that a put of an
    // index that they reach is short.
    #[cold]
    #[inline(never)]
    fn reach(&mut self, index: usize) -> Result<(), NoMemory>
        requires { index < MARKS }
        ensures { self.new ≡ self.old }
    {
        let reach = (2 * index + 2).clamp(LEAST_MARKS, MARKS);
        self.places.resize(reach, 0)?;
        self.marks.resize(reach, false)?;
        self.counted.marked = false;
        Ok(())
    }

    // The number of peers that there are with one entry more, or `None` where that is none of them.
    fn peers_with(&self, entry: &Entry) -> Option<usize>
        requires { FitsRatio entry.now.ratio }
        ensures { MatchOption result (peers (entry.now ∷ self.now) ≡ peers self.now) (IsNewPeer self.now entry.now) }
    {
        let Some(top) = self.entries.first() else {
            return Some(1);
        };
        if entry.ratio.whole() < top.ratio.whole() {
            return None;
        }
        let mine = across(&entry.ratio, &top.ratio);
        let its = across(&top.ratio, &entry.ratio);
        if mine < its {
            return None;
        }
        if mine == its {
            Some(self.counted.count + 1)
        } else {
            Some(1)
        }
    }

    /// The number of entries.
    pub fn len(&self) -> usize
        ensures { result ≡ length self.now }
    {
        self.entries.len()
    }

    /// Whether there are no entries.
    pub fn is_empty(&self) -> bool
        ensures { IsTrue result ↔ (self.now ≡ []) }
    {
        self.entries.is_empty()
    }

    /// The greatest entry, or `None` where there is none.
    pub fn top(&self) -> Option<Entry>
        ensures { result ≡ top self.now }
    {
        self.entries.first().copied()
    }

    /// The number of entries with the quotient of the top, which is 0 where there is no entry.
    pub fn peers(&self) -> usize
        ensures { result ≡ length (peers self.now) }
    {
        self.counted.count
    }

    /// The peer at place `i` from the greatest, counted from 0, or `None` where there are no more than `i` peers. Peers have equal
    /// quotients, so this is their order by index.
    pub fn member(&self, i: usize) -> Option<Entry>
        ensures { result ≡ slice_get (peers self.now) i }
    {
        let top = self.top()?;
        self.entries
            .iter()
            .copied()
            .find(|entry| self.is_at(&top, entry, i))
    }

    // Whether an entry stands at place `i` among the entries with the quotient of `top`, from the greatest.
    fn is_at(&self, top: &Entry, entry: &Entry, i: usize) -> bool
        ensures { IsTrue result ↔ (slice_get (ranked (filter (has_quotient_of top.now) self.now)) i ≡ Some entry.now) }
    {
        is_peer(top, entry) && self.peers_above(top, entry) <= i && i < self.peers_from(top, entry)
    }

    // The number of entries with the quotient of `top` that are greater than an entry.
    fn peers_above(&self, top: &Entry, entry: &Entry) -> usize
        ensures { result ≡ count_by (λ peer. has_quotient_of top.now peer && is_gt (entry_cmp peer entry.now)) self.now }
    {
        self.entries
            .iter()
            .filter(|peer| is_peer(top, peer) && *peer > entry)
            .count()
    }

    // The number of entries with the quotient of `top` that are no smaller than an entry.
    fn peers_from(&self, top: &Entry, entry: &Entry) -> usize
        ensures { result ≡ count_by (λ peer. has_quotient_of top.now peer && is_ge (entry_cmp peer entry.now)) self.now }
    {
        self.entries
            .iter()
            .filter(|peer| is_peer(top, peer) && *peer >= entry)
            .count()
    }

    /// Takes the greatest entry away, and answers it, or `None` where there is none.
    pub fn take(&mut self) -> Option<Entry>
        ensures top { result ≡ top self.old }
        ensures rest { IfSome result (λ entry. IsPermutation self.old (entry ∷ self.new)) }
        ensures none { IfNone result (self.new ≡ self.old) }
    {
        if self.entries.is_empty() {
            return None;
        }
        Some(self.remove(0))
    }

    /// Puts an entry in the place of the greatest one, which has no other peer: what `take` and `put` do one after the other, on one way
    /// through the table. Takes no memory.
    pub fn replace_top(&mut self, entry: Entry)
        requires { length (peers self.old) ≡ 1 }
        ensures { IfSome (top self.old) (λ first. IsPermutation (entry ∷ self.old) (first ∷ self.new)) }
    {
        // no ratio has numerator 0: the peers of the next top stand together
        prove!(entry.ratio.num() > 0);
        replace_first(&mut self.entries, &mut self.places, entry);
        self.counted = Counted::again(&self.entries);
    }

    /// Whether a lot names the index of each peer of the top, as it does where there is no entry.
    pub fn covers(&self, lot: &[u32]) -> bool
        ensures { result ≡ is_covered lot.now self.now }
    {
        match self.entries.first() {
            Some(top) => are_named(&self.entries, top, lot, &marks(lot), 0),
            None => true,
        }
    }

    /// Takes the peer that a lot draws away, and answers it, or `None` where there is no entry.
    ///
    /// The lot draws the peer whose index stands first in it. Those that it does not name come after, by index. Of several peers with
    /// one index it draws the greatest.
    pub fn take_lot(&mut self, lot: &[u32]) -> Option<Entry>
        ensures drawn { result ≡ drawn lot.now self.old }
        ensures rest { IfSome result (λ entry. IsPermutation self.old (entry ∷ self.new)) }
        ensures none { IfNone result (self.new ≡ self.old) }
    {
        Some(self.take_lot_from(lot, 0)?.entry)
    }

    /// Takes the peer that a lot draws away as `take_lot` does, but looks for its name from the place `passed` of the lot on: the names
    /// before are those of no peers. Draws that go on from place to place pass over a lot once, as long as no peer joins the others.
    pub fn take_lot_from(&mut self, lot: &[u32], passed: usize) -> Option<Drawn>
        requires { IsPassed lot.now passed (peers self.old) }
        ensures drawn { option_map (λ taken. taken.entry) result ≡ drawn lot.now self.old }
        ensures rest { IfSome result (λ taken. IsPermutation self.old (taken.entry ∷ self.new)) }
        ensures passed { IfSome result (λ taken. IsPassed lot.now taken.passed (peers self.new)) }
        ensures none { IfNone result (self.new ≡ self.old) }
    {
        let top = *self.entries.first()?;
        self.counted = marked_again(
            &self.entries,
            &top,
            &mut self.marks,
            &mut self.places,
            self.counted,
        );
        let named = drawn_at(
            &self.entries,
            &top,
            &self.marks,
            &self.places,
            self.counted.marked,
            lot,
            passed,
        );
        // after the last of the peers come others
        let passed = if self.counted.count > 1 {
            named.name
        } else {
            0
        };
        let entry = self.remove(named.peer);
        Some(Drawn { entry, passed })
    }

    // Takes the peer at a place away.
    fn remove(&mut self, place: usize) -> Entry
        requires within { place < length self.old }
        requires peer { (d : Entry) → Contains (peers self.old) (slice_index_or self.old place d) }
        ensures value { result ≡ slice_index_or self.old place result }
        ensures rest { IsPermutation self.old (result ∷ self.new) }
    {
        // the index is read apart, so that the entry is copied as a whole
        let index = self.entries[place].index;
        let removed = self.entries[place];
        take_out(&mut self.entries, &mut self.places, place);
        self.counted = peers_left(&self.entries, &mut self.marks, self.counted, index);
        removed
    }
}
