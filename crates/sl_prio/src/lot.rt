//! The order in which a lot draws entries of equal quotients, and marks of indexes.

ghost use Rattle.std.specs.Prelude.{◌≡◌, ◌||◌, ◌∷◌, ℕ, Bool, IsTrue, List, Some, false, nat_eq, slice_get};
ghost use Rattle.sl_base_quotients.specs.declared.entry.Entry.{Entry};
ghost use Rattle.sl_base_rankings.specs.Lot.{place_in_lot, lot_cmp};
ghost use Rattle.sl_prio.specs.inner.Marks.{AreMarks, HaveMarks, have_index, names};

use sl_base_quotients::{Entry, MAX_LANDS, MAX_PARTIES};
use std::cmp::Ordering;

// How many indexes can have a mark: those of the lists of the greatest election.
pub(crate) const MARKS: usize = MAX_PARTIES * MAX_LANDS;

// How many indexes have a mark at least, where one has.
pub(crate) const LEAST_MARKS: usize = 64;

// Marks an index, where the marks reach it, and answers whether that was still to be done.
pub(crate) fn mark(marks: &mut [bool], index: u32) -> bool
    ensures fresh { IsTrue result → slice_get marks.old index ≡ Some false }
    ensures marked { (before : ℕ → Bool) → AreMarks before marks.old → AreMarks (λ other. before other || nat_eq index other) marks.new }
    ensures kept { (xs : List Entry) (x : Entry) → x.index ≡ index → HaveMarks xs marks.old → HaveMarks (x ∷ xs) marks.new }
{
    let place = index as usize;
    if place >= marks.len() {
        return false;
    }
    let fresh = !marks[place];
    marks[place] = true;
    fresh
}

// Takes the mark of an index away.
pub(crate) fn unmark(marks: &mut [bool], index: u32)
    ensures { (xs : List Entry) → have_index xs index ≡ false → HaveMarks xs marks.old → HaveMarks xs marks.new }
{
    let place = index as usize;
    if place < marks.len() {
        marks[place] = false;
    }
}

// Marks the indexes that a lot names.
pub(crate) fn marks(lot: &[u32]) -> [bool; MARKS]
    ensures { AreMarks (names lot.now) result }
{
    let mut marks = [false; MARKS];
    for named in lot {
        mark(&mut marks, *named);
    }
    marks
}

// Whether a lot with these marks names an index. Only an index that the marks do not reach is searched for.
pub(crate) fn is_named(lot: &[u32], marks: &[bool], index: u32) -> bool
    requires { AreMarks (names lot.now) marks.now }
    ensures { result ≡ names lot.now index }
{
    let place = index as usize;
    if place < marks.len() {
        marks[place]
    } else {
        lot.contains(&index)
    }
}

// The place at which the lot first names an index, or the lot's length.
fn place_in_lot(lot: &[u32], index: u32) -> usize
    ensures { result ≡ place_in_lot lot.now index }
{
    lot.iter()
        .position(|named| *named == index)
        .unwrap_or(lot.len())
}

// Which of two entries the lot draws before the other, as the greater.
pub(crate) fn lot_cmp(lot: &[u32], entry: &Entry, other: &Entry) -> Ordering
    ensures { result ≡ lot_cmp lot.now entry.now other.now }
{
    let by_index = place_in_lot(lot, other.index)
        .cmp(&place_in_lot(lot, entry.index))
        .then(other.index.cmp(&entry.index));
    match by_index {
        Ordering::Equal => entry.cmp(other),
        _ => by_index,
    }
}
