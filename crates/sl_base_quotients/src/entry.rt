//! Entries of a scope with their quotients, in the order in which they are awarded seats.

ghost use Rattle.std.specs.Prelude.{refl};
ghost use Rattle.std.specs.Cmp.{po};
ghost use Rattle.std.specs.Ordering.{as_partial_cmp};
ghost use Rattle.sl_base_quotients.specs.Entry.{entry_cmp};
ghost use Rattle.sl_base_quotients.specs.inner.EntryLaws.{entry_total, kept_ties};

use crate::ratio::Ratio;
use std::cmp::Ordering;

/// The quotient of an entry, with the entry's number in its scope.
///
/// The greater of two entries is the one with the greater quotient, at equal quotients the one with the smaller index, and then
/// the one with the greater numerator, and the greater denominator.
#[derive(Clone, Copy, PartialEq, Eq, Hash)]
pub struct Entry {
    pub ratio: Ratio,
    pub index: u32,
}

impl Ord for Entry {
    ghost cmp = { entry_cmp };

    ghost total = { entry_total };

    ghost matches_partial_cmp = { λ x y. refl };

    ghost matches_eq = { kept_ties };

    fn cmp(&self, other: &Entry) -> Ordering {
        self.ratio
            .cmp(&other.ratio)
            .then(other.index.cmp(&self.index))
            .then(self.ratio.num().cmp(&other.ratio.num()))
            .then(self.ratio.den().cmp(&other.ratio.den()))
    }
}

impl PartialOrd for Entry {
    ghost partial_cmp = { as_partial_cmp entry_cmp };

    ghost laws = { po entry_total kept_ties };

    fn partial_cmp(&self, other: &Entry) -> Option<Ordering> {
        Some(self.cmp(other))
    }
}
