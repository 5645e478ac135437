//! Names and priority tables: where memory is refused they are as before.

ghost use Rattle.std.specs.Prelude.{◌≤◌, ◌^◌};

use crate::marks::{begin, end};
use sl_base_quotients::{Entry, NameFault, Ratio};
use sl_prio::Prio;
use sl_ratio::Names;
use std::alloc::Global;

// Whether a name is added, which is new and has this number; where memory is refused, the names are as they were.
fn is_added(alloc: Global, names: &mut Names, name: &[u8], number: usize) -> bool {
    begin(alloc);
    let first = names.add(name);
    end(alloc);
    if first == Err(NameFault::NoMemory) {
        names.len() == number && names.find(name).is_none() && names.add(name) == Ok(number)
    } else {
        first == Ok(number)
    }
}

// Whether the names are A and B, in this order, each found by its bytes.
fn are_two(names: &Names) -> bool {
    names.len() == 2
        && names.name(0) == b"A".as_slice()
        && names.name(1) == b"B".as_slice()
        && names.find(b"A") == Some(0)
        && names.find(b"B") == Some(1)
}

// Whether a name that is there, and one for which there is no room, are refused.
fn are_full(names: &mut Names) -> bool {
    names.add(b"A") == Err(NameFault::Twice) && names.add(b"C") == Err(NameFault::Full)
}

// Whether two names are added to a list for two, and found, and no more names are added.
fn are_added(alloc: Global, names: &mut Names) -> bool {
    is_added(alloc, names, b"A", 0)
        && is_added(alloc, names, b"B", 1)
        && are_two(names)
        && are_full(names)
        && are_two(names)
}

#[test]
fn names(rt: HostRuntime) {
    assert!(rt; are_added(rt.alloc(), &mut Names::new(rt.alloc(), 2)));
}

fn entry(num: u128, den: u128, index: u32) -> Entry
    requires least { 1 ≤ num }
    requires most { num ≤ 10 ^ 25 }
    requires den { den ≤ 10 ^ 12 }
{
    Entry {
        ratio: Ratio::new(num, den),
        index,
    }
}

// Whether an entry is put into a table; the entries before are as they were where memory is refused.
fn is_put(alloc: Global, prio: &mut Prio, entry: &Entry) -> bool {
    let (len, peers, top) = (prio.len(), prio.peers(), prio.top());
    begin(alloc);
    let first = prio.put(*entry);
    end(alloc);
    let is_in = first.is_ok()
        || prio.len() == len
            && prio.peers() == peers
            && prio.top() == top
            && prio.put(*entry).is_ok();
    is_in && prio.len() == len.saturating_add(1)
}

fn index_of(entry: Option<Entry>) -> Option<u32> {
    entry.map(|entry| entry.index)
}

// Whether these are two peers, of which a lot takes the second one.
fn are_taken(prio: &mut Prio) -> bool {
    prio.peers() == 2
        && !prio.covers(&[1])
        && prio.covers(&[1, 0])
        && index_of(prio.take_lot(&[1, 0])) == Some(1)
        && index_of(prio.take()) == Some(0)
        && prio.take().is_none()
}

// The same of two that are put into a table.
fn are_put_and_taken(alloc: Global, prio: &mut Prio) -> bool {
    is_put(alloc, prio, &entry(60, 3, 0))
        && is_put(alloc, prio, &entry(20, 1, 1))
        && are_taken(prio)
}

#[test]
fn two_peers(rt: HostRuntime) {
    assert!(rt; are_put_and_taken(rt.alloc(), &mut Prio::new(rt.alloc())));
}

// Whether ten peers are put into a table.
fn are_ten_put(alloc: Global, prio: &mut Prio) -> bool {
    for index in (0..10u32).rev() {
        let part = u128::from(index) + 1;
        if !is_put(alloc, prio, &entry(part, part, index)) {
            return false;
        }
    }
    true
}

// Whether an entry above them and one below are, too.
fn are_twelve_put(alloc: Global, prio: &mut Prio) -> bool {
    are_ten_put(alloc, prio)
        && is_put(alloc, prio, &entry(3, 1, 10))
        && is_put(alloc, prio, &entry(1, 2, 11))
}

// Whether the entry above is taken first, and the lot takes one of the ten.
fn are_drawn(prio: &mut Prio) -> bool {
    index_of(prio.take()) == Some(10)
        && prio.peers() == 10
        && index_of(prio.member(9)) == Some(9)
        && index_of(prio.take_lot(&[7, 2])) == Some(7)
}

// Whether entries with these indexes are taken then, and no more are left.
fn are_last(prio: &mut Prio, indexes: &[u32]) -> bool {
    for index in indexes {
        if index_of(prio.take()) != Some(*index) {
            return false;
        }
    }
    prio.is_empty()
}

// Whether the twelve are taken as they have to be.
fn are_twelve_taken(alloc: Global, prio: &mut Prio) -> bool {
    are_twelve_put(alloc, prio)
        && are_drawn(prio)
        && are_last(prio, &[0, 1, 2, 3, 4, 5, 6, 8, 9, 11])
}

#[test]
fn twelve_entries(rt: HostRuntime) {
    assert!(rt; are_twelve_taken(rt.alloc(), &mut Prio::new(rt.alloc())));
}
