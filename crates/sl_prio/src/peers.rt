//! The peers of a heap's top. They stand together from the first place on: an entry with the top's quotient has a parent with it,
//! and so a place is visited only where its parent's quotient is the top's.

ghost use Rattle.std.specs.Prelude.{◌≡◌, ◌<◌, ◌||◌, ◌∷◌, ℕ, Bool, List, [], MatchOption, IfSome, IsTrue, None, Some, false, length, slice_get};
ghost use Rattle.sl_base_quotients.specs.declared.entry.Entry.{Entry};
ghost use Rattle.sl_base_rankings.specs.Peers.{has_quotient_of, peers};
ghost use Rattle.sl_prio.specs.inner.Heap.{AreCounted, IsKept, IsPeerAt, IsAt, IsFirstNamed, IsDrawnFrom, are_named, is_peer_with, peers_under};
ghost use Rattle.sl_prio.specs.inner.Marks.{AreApart, AreApartFrom, AreMarks, HaveMarks, IsPassed, names, have_index, first_named};

use crate::heap::across;
use crate::lot::{is_named, lot_cmp, mark, unmark};
use crate::places::note;
use sl_base_quotients::Entry;

// Whether an entry has the quotient of the top. Mostly it has another whole part.
#[tactic(auto, using(sl_base_quotients::proofs::WholeParts::unequal_by_wholes))]
pub(crate) fn is_peer(top: &Entry, entry: &Entry) -> bool
    ensures { result ≡ has_quotient_of top.now entry.now }
{
    top.ratio.whole() == entry.ratio.whole()
        && across(&top.ratio, &entry.ratio) == across(&entry.ratio, &top.ratio)
}

// The entry at a place, where it is a peer. Where it is none, there is none below it.
fn peer_at(entries: &[Entry], top: &Entry, place: usize) -> Option<Entry>
    requires kept { IsKept entries.now }
    requires first { slice_get entries.now 0 ≡ Some top.now }
    ensures { MatchOption result (peers_under top.now entries.now place ≡ []) (IsPeerAt top.now entries.now place) }
{
    let entry = *entries.get(place)?;
    if is_peer(top, &entry) {
        Some(entry)
    } else {
        None
    }
}

// How many peers there are, and whether their indexes have marks, none of them that of two peers.
#[derive(Clone, Copy)]
pub(crate) struct Counted {
    pub(crate) count: usize,
    pub(crate) marked: bool,
}

impl Counted {
    // Where there is no entry.
    pub(crate) const NONE: Counted = Counted {
        count: 0,
        marked: false,
    };

    // The peers of a heap's top. None of them is marked.
    pub(crate) fn again(entries: &[Entry]) -> Counted
        requires kept { IsKept entries.now }
        ensures count { result.count ≡ length (peers entries.now) }
        ensures marked { result.marked ≡ false }
    {
        Counted {
            count: count_peers(entries),
            marked: false,
        }
    }

    // With one peer more, with which there are `count`. Beside others that are marked, it is marked too.
    pub(crate) fn with_one(self, count: usize, marks: &mut [bool], index: u32) -> Counted
        ensures count { result.count ≡ count }
        ensures fresh { IsTrue result.marked → IsTrue self.marked × (slice_get marks.old index ≡ Some false) }
        ensures kept { IsTrue result.marked → (xs : List Entry) (x : Entry) → x.index ≡ index → HaveMarks xs marks.old → HaveMarks (x ∷ xs) marks.new }
    {
        if count == 1 || !self.marked {
            return Counted {
                count,
                marked: false,
            };
        }
        Counted {
            count,
            marked: mark(marks, index),
        }
    }
}

// The number of the peers at a place and below it.
fn count_under(entries: &[Entry], top: &Entry, place: usize) -> usize
    requires kept { IsKept entries.now }
    requires first { slice_get entries.now 0 ≡ Some top.now }
    ensures { result ≡ length (peers_under top.now entries.now place) }
{
    match peer_at(entries, top, place) {
        Some(_) => {
            let left = count_under(entries, top, 2 * place + 1);
            let right = count_under(entries, top, 2 * place + 2);
            1 + left + right
        }
        None => 0,
    }
}

// Whether the top of a heap has no other peer: one would stand at a child of it.
fn is_alone(entries: &[Entry], top: &Entry) -> bool
    requires kept { IsKept entries.now }
    requires first { slice_get entries.now 0 ≡ Some top.now }
    ensures { IsTrue result → length (peers entries.now) ≡ 1 }
{
    peer_at(entries, top, 1).is_none() && peer_at(entries, top, 2).is_none()
}

// The number of the peers of a heap's top.
fn count_peers(entries: &[Entry]) -> usize
    requires kept { IsKept entries.now }
    ensures { result ≡ length (peers entries.now) }
{
    match entries.first() {
        Some(top) if is_alone(entries, top) => 1,
        Some(top) => count_under(entries, top, 0),
        None => 0,
    }
}

// The peers that are left in a heap of those before, of which one with an index is gone. Where it was the only one, they are counted again.
pub(crate) fn peers_left(
    entries: &[Entry],
    marks: &mut [bool],
    before: Counted,
    gone: u32,
) -> Counted
    requires kept { IsKept entries.now }
    requires before { 1 < before.count → (x : Entry) × (x.index ≡ gone) × AreCounted (x ∷ peers entries.now) before.count before.marked marks.old }
    ensures { AreCounted (peers entries.now) result.count result.marked marks.new }
{
    if before.count > 1 {
        unmark_gone(marks, before.marked, gone);
        return Counted {
            count: before.count - 1,
            marked: before.marked,
        };
    }
    Counted::again(entries)
}

// Takes the mark of an index away that a peer had which is gone.
fn unmark_gone(marks: &mut [bool], marked: bool, index: u32)
    ensures { IsTrue marked → (xs : List Entry) → have_index xs index ≡ false → HaveMarks xs marks.old → HaveMarks xs marks.new }
{
    if marked {
        unmark(marks, index);
    }
}

// Marks the indexes of a heap's peers, unless they have marks, and notes the peers' places. No mark is left of others.
pub(crate) fn marked_again(
    entries: &[Entry],
    top: &Entry,
    marks: &mut [bool],
    places: &mut [u16],
    counted: Counted,
) -> Counted
    requires kept { IsKept entries.now }
    requires first { slice_get entries.now 0 ≡ Some top.now }
    requires counted { AreCounted (peers entries.now) counted.count counted.marked marks.old }
    ensures counted { AreCounted (peers entries.now) result.count result.marked marks.new }
    ensures marks { HaveMarks (peers entries.now) marks.new }
{
    if counted.marked {
        return counted;
    }
    marks.fill(false);
    Counted {
        count: counted.count,
        marked: mark_peers(entries, top, marks, places, 0),
    }
}

// Whether a lot with these marks names the index of each peer at a place and below it.
pub(crate) fn are_named(
    entries: &[Entry],
    top: &Entry,
    lot: &[u32],
    marks: &[bool],
    place: usize,
) -> bool
    requires marks { AreMarks (names lot.now) marks.now }
    requires kept { IsKept entries.now }
    requires first { slice_get entries.now 0 ≡ Some top.now }
    ensures { result ≡ are_named lot.now (peers_under top.now entries.now place) }
{
    match peer_at(entries, top, place) {
        Some(peer) => {
            is_named(lot, marks, peer.index)
                && are_named(entries, top, lot, marks, 2 * place + 1)
                && are_named(entries, top, lot, marks, 2 * place + 2)
        }
        None => true,
    }
}

// Marks the index of each peer at a place and below it, notes its place, and answers whether each was still to be marked.
fn mark_peers(
    entries: &[Entry],
    top: &Entry,
    marks: &mut [bool],
    places: &mut [u16],
    place: usize,
) -> bool
    requires kept { IsKept entries.now }
    requires first { slice_get entries.now 0 ≡ Some top.now }
    ensures marks { (before : ℕ → Bool) → AreMarks before marks.old → AreMarks (λ index. before index || have_index (peers_under top.now entries.now place) index) marks.new }
    ensures apart { IsTrue result → (before : ℕ → Bool) → AreMarks before marks.old → AreApartFrom before (peers_under top.now entries.now place) }
{
    let Some(peer) = peer_at(entries, top, place) else {
        return true;
    };
    note(places, peer.index, place);
    let fresh = mark(marks, peer.index);
    let left = mark_peers(entries, top, marks, places, 2 * place + 1);
    let right = mark_peers(entries, top, marks, places, 2 * place + 2);
    fresh & left & right
}

// A place at which a peer with an index stands. Of the indexes that the marks reach, one without a mark is not searched for, and one with
// a mark is first searched for from its noted place upwards. All entries are gone through only where that fails, and for an index that the
// marks do not reach.
fn place_of(
    entries: &[Entry],
    top: &Entry,
    marks: &[bool],
    places: &[u16],
    index: u32,
) -> Option<usize>
    requires kept { IsKept entries.now }
    requires marks { HaveMarks (peers_under top.now entries.now 0) marks.now }
    ensures { MatchOption result (have_index (peers_under top.now entries.now 0) index ≡ false) (IsAt (is_peer_with top.now index) entries.now) }
{
    let mark = index as usize;
    if mark < marks.len() && !marks[mark] {
        return None;
    }
    if let Some(place) = noted_place(entries, top, places, index) {
        return Some(place);
    }
    entries
        .iter()
        .position(|entry| entry.index == index && is_peer(top, entry))
}

// Whether a peer with an index stands at a place.
fn has_at(entries: &[Entry], top: &Entry, index: u32, place: usize) -> bool
    ensures { IsTrue result → IsAt (is_peer_with top.now index) entries.now place }
{
    match entries.get(place) {
        Some(entry) => entry.index == index && is_peer(top, entry),
        None => false,
    }
}

// The first place from the noted one of an index upwards at which a peer with that index stands, where one is noted.
fn noted_place(entries: &[Entry], top: &Entry, places: &[u16], index: u32) -> Option<usize>
    ensures { IfSome result (IsAt (is_peer_with top.now index) entries.now) }
{
    let noted = *places.get(index as usize)?;
    place_above(entries, top, index, noted as usize)
}

// The first place from the noted one upwards at which a peer with an index stands.
fn place_above(entries: &[Entry], top: &Entry, index: u32, noted: usize) -> Option<usize>
    ensures { IfSome result (IsAt (is_peer_with top.now index) entries.now) }
{
    let mut place = noted;
    while !has_at(entries, top, index, place) {
        if place == 0 {
            return None;
        }
        place = (place - 1) / 2;
    }
    Some(place)
}

/// A name of a lot, by its place there, and the place of the heap at which a peer stands.
#[derive(Clone, Copy)]
pub(crate) struct Named {
    pub(crate) name: usize,
    pub(crate) peer: usize,
}

// The first name of a lot that is the index of a peer, and a place at which such a peer stands. The names before `passed` are those of no
// peers.
fn first_named(
    entries: &[Entry],
    top: &Entry,
    marks: &[bool],
    places: &[u16],
    lot: &[u32],
    passed: usize,
) -> Option<Named>
    requires kept { IsKept entries.now }
    requires marks { HaveMarks (peers_under top.now entries.now 0) marks.now }
    requires passed { IsPassed lot.now passed (peers_under top.now entries.now 0) }
    ensures peer { MatchOption result (first_named lot.now (peers_under top.now entries.now 0) ≡ None) (λ named. IsFirstNamed lot.now top.now entries.now named.peer) }
    ensures passed { IfSome result (λ named. IsPassed lot.now named.name (peers_under top.now entries.now 0)) }
{
    for name in passed..lot.len() {
        if let Some(peer) = place_of(entries, top, marks, places, lot[name]) {
            return Some(Named { name, peer });
        }
    }
    None
}

// The place of the one that a lot draws first of the entry at `best` and the peers at a place and below it.
fn draw(entries: &[Entry], top: &Entry, lot: &[u32], place: usize, best: usize) -> usize
    requires kept { IsKept entries.now }
    requires first { slice_get entries.now 0 ≡ Some top.now }
    requires within { best < length entries.now }
    ensures { IsDrawnFrom lot.now entries.now (peers_under top.now entries.now place) best result }
{
    let Some(peer) = peer_at(entries, top, place) else {
        return best;
    };
    let earlier = lot_cmp(lot, &peer, &entries[best]).is_gt();
    let here = if earlier { place } else { best };
    let left = draw(entries, top, lot, 2 * place + 1, here);
    draw(entries, top, lot, 2 * place + 2, left)
}

// The peer that a lot draws, and a place of the lot before which it names no peer. Of peers that it does not name it draws the top. The
// names before `passed` are those of no peers.
pub(crate) fn drawn_at(
    entries: &[Entry],
    top: &Entry,
    marks: &[bool],
    places: &[u16],
    distinct: bool,
    lot: &[u32],
    passed: usize,
) -> Named
    requires kept { IsKept entries.now }
    requires first { slice_get entries.now 0 ≡ Some top.now }
    requires marks { HaveMarks (peers_under top.now entries.now 0) marks.now }
    requires apart { IsTrue distinct → AreApart (peers_under top.now entries.now 0) }
    requires passed { IsPassed lot.now passed (peers_under top.now entries.now 0) }
    ensures drawn { IsDrawnFrom lot.now entries.now (peers_under top.now entries.now 0) 0 result.peer }
    ensures passed { IsPassed lot.now result.name (peers_under top.now entries.now 0) }
{
    let Some(named) = first_named(entries, top, marks, places, lot, passed) else {
        return Named {
            name: lot.len(),
            peer: 0,
        };
    };
    if distinct {
        return named;
    }
    let index = entries[named.peer].index;
    Named {
        name: named.name,
        peer: draw(entries, top, &[index], 0, 0),
    }
}
