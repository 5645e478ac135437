//! A binary heap of entries in a slice, whose greatest entry stands first: no entry is greater than the one at its parent's place.
//! The children of place `p` stand at `2 * p + 1` and `2 * p + 2`.

ghost use Rattle.std.specs.Prelude.{◌≡◌, ◌+◌, ◌*◌, ◌<◌, ◌≤◌, ◌∷◌, length, slice_index_or, slice_set, IsPermutation, MatchOption};
ghost use Rattle.std.specs.Ordering.{is_gt};
ghost use Rattle.sl_base_quotients.specs.declared.entry.Entry.{Entry};
ghost use Rattle.sl_base_quotients.specs.Entry.{entry_cmp};
ghost use Rattle.sl_prio.specs.inner.Heap.{IsHeap, IsHeapBut, MayRise, IsGreatestChild, HasNoSmallerParent, IsSmallerParent};

use crate::places::note;
use sl_base_quotients::{Entry, Ratio};

// The numerator of a quotient times the denominator of another, which has at most 64 bits.
pub(crate) fn across(ratio: &Ratio, other: &Ratio) -> u128
    ensures { result ≡ ratio.now.num * other.now.den }
{
    ratio.num() * u128::from(other.den() as u64)
}

// Whether an entry is greater than another. Mostly the whole parts of their quotients tell.
fn exceeds(entry: &Entry, other: &Entry) -> bool
    ensures { result ≡ is_gt (entry_cmp entry.now other.now) }
{
    let mine = entry.ratio.whole();
    let its = other.ratio.whole();
    if mine == its {
        return exceeds_by_products(entry, other);
    }
    mine > its
}

// The same by cross products. All but entries with equal quotients are distinguished by these.
fn exceeds_by_products(entry: &Entry, other: &Entry) -> bool
    ensures { result ≡ is_gt (entry_cmp entry.now other.now) }
{
    let mine = across(&entry.ratio, &other.ratio);
    let its = across(&other.ratio, &entry.ratio);
    if mine == its {
        return exceeds_at_tie(*entry, *other);
    }
    mine > its
}

// Whether an entry is greater than another, where their quotients may be equal. It stands apart, and takes copies, so that the comparison
// of entries with different quotients is short.
#[cold]
#[inline(never)]
fn exceeds_at_tie(entry: Entry, other: Entry) -> bool
    ensures { result ≡ is_gt (entry_cmp entry other) }
{
    entry > other
}

// Puts an entry, which reaches the hole at a place, into the heap: moves the parents down into the hole until one is no smaller, and notes
// the places of those that go down.
pub(crate) fn raise(entries: &mut [Entry], places: &mut [u16], place: usize, entry: Entry)
    requires { MayRise (slice_set entries.old place entry) place }
    ensures moved { IsPermutation (slice_set entries.old place entry) entries.new }
    ensures heap { IsHeap entries.new }
{
    let mut hole = place;
    while let Some(parent) = smaller_parent(entries, &entry, hole) {
        entries[hole] = entries[parent];
        note(places, entries[hole].index, hole);
        hole = parent;
    }
    entries[hole] = entry;
}

// The parent of a place, if an entry that reaches that place is greater than the one there.
fn smaller_parent(entries: &[Entry], entry: &Entry, place: usize) -> Option<usize>
    requires { place < length entries.now }
    ensures { MatchOption result (HasNoSmallerParent entries.now entry.now place) (IsSmallerParent entries.now entry.now place) }
{
    if place == 0 {
        return None;
    }
    let parent = (place - 1) / 2;
    if exceeds(entry, &entries[parent]) {
        Some(parent)
    } else {
        None
    }
}

// Takes the entry at a place out of a heap. The last entry comes into the hole that it leaves, once that has sunk to the bottom, unless it
// was itself moved up on the way.
pub(crate) fn take_out(entries: &mut Vec<Entry>, places: &mut [u16], place: usize)
    requires within { place < length entries.old.items }
    requires heap { IsHeap entries.old.items }
    ensures rest { (d : Entry) → IsPermutation entries.old.items (slice_index_or entries.old.items place d ∷ entries.new.items) }
    ensures heap { IsHeap entries.new.items }
{
    let hole = sink(entries, place);
    let Some(last) = entries.pop() else {
        return;
    };
    if hole < entries.len() {
        note(places, last.index, hole);
        raise(entries, places, hole, last);
    }
}

// Puts an entry in the place of the first one, which goes. It comes into the hole that that one leaves, once the hole has sunk to the bottom,
// and rises from there.
pub(crate) fn replace_first(entries: &mut [Entry], places: &mut [u16], entry: Entry)
    requires some { 0 < length entries.old }
    requires heap { IsHeap entries.old }
    ensures moved { IsPermutation (slice_set entries.old 0 entry) entries.new }
    ensures heap { IsHeap entries.new }
{
    let hole = sink(entries, 0);
    note(places, entry.index, hole);
    raise(entries, places, hole, entry);
}

// Moves the hole at a place down to a place without children, and answers that. An entry that comes into it stands too low, if it is
// greater than its parent: the last entry of a heap seldom is.
fn sink(entries: &mut [Entry], place: usize) -> usize
    requires within { place < length entries.old }
    requires others { IsHeapBut entries.old place }
    ensures moved { (x : Entry) → IsPermutation (slice_set entries.old place x) (slice_set entries.new result x) }
    ensures settled { (x : Entry) → MayRise (slice_set entries.new result x) result }
{
    let mut hole = place;
    while let Some(child) = greatest_child(entries, hole) {
        entries[hole] = entries[child];
        hole = child;
    }
    hole
}

// The place of the greatest child of a place, where that has one.
fn greatest_child(entries: &[Entry], place: usize) -> Option<usize>
    requires { place < length entries.now }
    ensures { MatchOption result (length entries.now ≤ place * 2 + 1) (λ child. IsGreatestChild entries.now place child) }
{
    let right = 2 * place + 2;
    let left = right - 1;
    if right < entries.len() {
        return Some(left + usize::from(exceeds(&entries[right], &entries[left])));
    }
    if left < entries.len() {
        Some(left)
    } else {
        None
    }
}
