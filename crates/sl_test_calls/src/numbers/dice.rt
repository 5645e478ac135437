//! Numbers in no order, and entries and lots of them.

use crate::numbers::quotients::entry;
use sl_base_quotients::Entry;

/// Numbers in no order, for entries with so many indexes, which stand `spread` apart.
#[derive(Clone, Copy)]
pub struct Dice {
    pub state: u64,
    pub indexes: u32,
    pub spread: u32,
}

/// A lot of fewer than eight indexes.
#[derive(Clone, Copy)]
pub struct Lot {
    indexes: [u32; 8],
    length: usize,
}

impl Lot {
    pub(crate) fn as_slice(&self) -> &[u32] {
        &self.indexes[..self.length.min(8)]
    }
}

impl Dice {
    /// The next number.
    pub(crate) fn roll(&mut self) -> u32 {
        self.state = self
            .state
            .wrapping_mul(6_364_136_223_846_793_005)
            .wrapping_add(1_442_695_040_888_963_407);
        (self.state >> 40) as u32
    }

    /// An index.
    pub(crate) fn index(&mut self) -> u32 {
        (self.roll() % self.indexes.max(1)).wrapping_mul(self.spread)
    }

    /// An entry with the quotient 1, or with one of three.
    pub(crate) fn entry(&mut self, one: bool) -> Entry {
        let index = self.index();
        let part = u128::from(self.roll() % 3) + 1;
        entry((part, if one { part } else { 2 }), index)
    }

    /// An entry with the quotient 1, or with one of many.
    pub(crate) fn entry_of_many(&mut self, one: bool) -> Entry {
        let alike = self.entry(true);
        if one {
            return alike;
        }
        entry((u128::from(self.roll() % 90) + 1, 7), alike.index)
    }

    /// A lot.
    pub(crate) fn lot(&mut self) -> Lot {
        let length = (self.roll() % 8) as usize;
        let mut indexes = [0; 8];
        for index in &mut indexes[..length] {
            *index = self.index();
        }
        Lot { indexes, length }
    }
}
