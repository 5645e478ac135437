//! Priority tables beside lists, from which an entry is taken by going through all; and tables from which seats are awarded beside priority tables.

use crate::numbers::dice::Dice;
use sl_base_quotients::Entry;
use sl_prio::{AwardTable, Prio};
use std::alloc::Global;

// Where a lot names an index, and its length if it does not.
fn place_in(lot: &[u32], index: u32) -> usize {
    for (place, named) in lot.iter().enumerate() {
        if *named == index {
            return place;
        }
    }
    lot.len()
}

// Whether an entry exceeds another, or a lot draws it first.
fn goes_first(lot: &[u32], entry: &Entry, other: &Entry) -> bool {
    entry
        .ratio
        .cmp(&other.ratio)
        .then(place_in(lot, other.index).cmp(&place_in(lot, entry.index)))
        .then(other.index.cmp(&entry.index))
        .then(entry.cmp(other))
        .is_gt()
}

// The entry that a lot draws from a list, by going through all.
fn drawn(listed: &[Entry], lot: &[u32]) -> Option<Entry> {
    let mut drawn = *listed.first()?;
    for entry in listed {
        if goes_first(lot, entry, &drawn) {
            drawn = *entry;
        }
    }
    Some(drawn)
}

// Takes it out of the list.
fn take_listed(listed: &mut Vec<Entry>, lot: &[u32]) -> Option<Entry> {
    let drawn = drawn(listed.as_slice(), lot)?;
    let place = listed.iter().position(|entry| *entry == drawn)?;
    Some(listed.swap_remove(place))
}

// A table, and a list of the same entries.
#[derive(Drop)]
struct Both {
    table: Prio,
    listed: Vec<Entry>,
}

impl Both {
    fn has(&self, index: u32) -> bool {
        for entry in self.listed.as_slice() {
            if entry.index == index {
                return true;
            }
        }
        false
    }

    // Whether an entry is put into both.
    fn put(&mut self, entry: &Entry) -> bool {
        self.table.put(*entry).is_ok() && self.listed.push(*entry).is_ok()
    }

    // Whether the two take the same entry.
    fn take(&mut self) -> bool {
        self.table.take() == take_listed(&mut self.listed, &[])
    }

    // Whether they take the same one by a lot.
    fn take_lot(&mut self, lot: &[u32]) -> bool {
        self.table.take_lot(lot) == take_listed(&mut self.listed, lot)
    }

    // Whether they answer one call alike. Where `once` is set, no two entries have one index.
    fn call(&mut self, roll: u32, lot: &[u32], entry: &Entry, once: bool) -> bool {
        match roll % 8 {
            0 => self.take(),
            1 | 2 => self.take_lot(lot),
            _ if once && self.has(entry.index) => self.take_lot(&[entry.index]),
            _ => self.put(entry),
        }
    }

    // The same of the call that the dice say, and whether the two are as long then.
    fn roll(&mut self, dice: &mut Dice, one: bool, once: bool) -> bool {
        let lot = dice.lot();
        let entry = dice.entry(one);
        self.call(dice.roll(), lot.as_slice(), &entry, once)
            && self.table.len() == self.listed.len()
    }

    // The same of so many calls.
    fn are_alike(&mut self, calls: u32, mut dice: Dice, once: bool) -> bool {
        for call in 0..calls {
            if !self.roll(&mut dice, call < calls / 2, once) {
                return false;
            }
        }
        true
    }
}

// Whether a table answers as a list does, in so many calls in no order.
fn are_drawn_alike(alloc: Global, calls: u32, dice: Dice, once: bool) -> bool {
    let mut both = Both {
        table: Prio::new(alloc),
        listed: Vec::new(alloc),
    };
    both.are_alike(calls, dice, once)
}

// Dice by a number to begin with, for entries with so many indexes, which stand so far apart; the calls; and whether each index is there once.
const DRAWN: [(Dice, u32, bool); 3] = [
    (
        Dice {
            state: 1,
            indexes: 400,
            spread: 1,
        },
        4_000,
        true,
    ),
    (
        Dice {
            state: 2,
            indexes: 100,
            spread: 1,
        },
        2_000,
        false,
    ),
    (
        Dice {
            state: 3,
            indexes: 100,
            spread: 300,
        },
        2_000,
        true,
    ),
];

/// The first dice by which a table does not answer as a list does.
pub(crate) fn first_drawn_wrong(alloc: Global) -> Option<usize> {
    for (place, (dice, calls, once)) in DRAWN.iter().enumerate() {
        if !are_drawn_alike(alloc, *calls, *dice, *once) {
            return Some(place);
        }
    }
    None
}

// A table from which seats are awarded, and one of the same entries.
#[derive(Drop)]
struct Beside {
    awards: AwardTable,
    prio: Prio,
}

impl Beside {
    // Whether an entry is put into both.
    fn put(&mut self, entry: &Entry) -> bool {
        self.prio.put(*entry).is_ok() && self.awards.put(*entry).is_ok()
    }

    // Whether the two take the same entry.
    fn take(&mut self) -> bool {
        self.awards.take() == self.prio.take()
    }

    // Whether they answer alike.
    fn answer_alike(&mut self, lot: &[u32]) -> bool {
        self.awards.peers() == self.prio.peers()
            && self.awards.top() == self.prio.top()
            && self.awards.covers(lot) == self.prio.covers(lot)
    }

    // Whether they do so after one call more. More entries come in than are taken.
    fn call(&mut self, roll: u32, lot: &[u32], entry: &Entry) -> bool {
        match roll % 8 {
            0 | 1 | 2 => self.take(),
            3 => self.answer_alike(lot),
            _ => self.put(entry),
        }
    }

    // The same of the call that the dice say.
    fn roll(&mut self, dice: &mut Dice, one: bool) -> bool {
        let lot = dice.lot();
        let entry = dice.entry_of_many(one);
        self.call(dice.roll(), lot.as_slice(), &entry)
    }

    // The same of so many calls, and whether the table of awards is empty when it is cleared.
    fn are_alike(&mut self, calls: u32, dice: &mut Dice, one: bool) -> bool {
        for _ in 0..calls {
            if !self.roll(dice, one) {
                return false;
            }
        }
        self.awards.clear();
        self.awards.take().is_none()
    }
}

// Whether the two are alike in so many calls in no order, with entries of one quotient or of many.
fn are_awarded_alike(alloc: Global, calls: u32, dice: &mut Dice, one: bool) -> bool {
    let mut both = Beside {
        awards: AwardTable::new(alloc),
        prio: Prio::new(alloc),
    };
    both.are_alike(calls, dice, one)
}

/// Which is not so of entries of one quotient, and of entries of many.
pub(crate) fn first_awarded_wrong(alloc: Global) -> Option<usize> {
    let mut dice = Dice {
        state: 3,
        indexes: 200,
        spread: 1,
    };
    if !are_awarded_alike(alloc, 2_000, &mut dice, true) {
        return Some(0);
    }
    if !are_awarded_alike(alloc, 2_000, &mut dice, false) {
        return Some(1);
    }
    None
}
