//! Margins by Webster's method: a divisor, the last seat, the next claim, the votes missing and to spare, and the swing that wins a seat; and decimals.

ghost use Rattle.std.specs.Prelude.{◌≡◌, slice_index};

use sl_base_quotients::{Divisor, MAX_NUMERATOR, NoMemory};
use sl_law_margins::{
    Decimal, MAX_PLACES, are_within, cut, divisor, is_allocation, is_allocation_with_minima,
    is_swing_within, last_seats, next_claims, swing, votes_missing, votes_missing_with_minima,
    votes_to_spare,
};
use std::alloc::Global;

// The method by which seats are given here.
const METHOD: Divisor = Divisor::Webster;

/// Votes and seats of each entry, and minima, of which the last entries may lack theirs.
#[derive(Clone, Copy)]
pub struct Election {
    votes: &'static [u64],
    minima: &'static [u32],
    seats: &'static [u32],
}

/// A call, and what it is to answer.
pub enum Call {
    Divisor(Option<&'static str>),
    Last(&'static [usize]),
    Next(&'static [usize]),
    /// What an entry lacks for one more seat, without minima and with them.
    Missing(usize, Option<u64>),
    MissingWithMinima(usize, Option<u64>),
    Spare(usize, Option<u64>),
    Swing(usize, usize, Option<u64>),
}

/// Elections, and calls on each. The second is of entries with equal claims, 60/3 and 20/1, of which a lot gave the first one its second seat; the
/// third is of the lists of a party by the statute of 2013, of which the second has two seats for its two winners, whatever its votes.
pub const ELECTIONS: [(&str, Election, &[Call]); 3] = [
    (
        "margins in a house of 630",
        Election {
            votes: &[
                11_196_374, 10_328_780, 8_149_124, 5_762_380, 4_356_532, 2_964_028, 76_138,
            ],
            minima: &[],
            seats: &[164, 152, 120, 85, 64, 44, 1],
        },
        &[
            Call::Divisor(Some("68100")),
            Call::Last(&[5]),
            Call::Next(&[0]),
            Call::Missing(0, Some(12_422)),
            Call::Missing(1, Some(62_353)),
            Call::Missing(2, Some(61_575)),
            Call::Missing(3, Some(63_469)),
            Call::Missing(4, Some(38_407)),
            Call::Missing(5, Some(69_839)),
            Call::Missing(6, Some(26_070)),
            Call::MissingWithMinima(0, Some(12_422)),
            Call::Spare(0, Some(122_567)),
            Call::MissingWithMinima(1, Some(62_353)),
            Call::Spare(1, Some(17_225)),
            Call::MissingWithMinima(2, Some(61_575)),
            Call::Spare(2, Some(15_587)),
            Call::MissingWithMinima(3, Some(63_469)),
            Call::Spare(3, Some(11_051)),
            Call::MissingWithMinima(4, Some(38_407)),
            Call::Spare(4, Some(34_527)),
            Call::MissingWithMinima(5, Some(69_839)),
            Call::Spare(5, Some(3_284)),
            Call::MissingWithMinima(6, Some(26_070)),
            Call::Spare(6, Some(42_106)),
            Call::Swing(2, 0, Some(9_029)),
            Call::Swing(0, 2, Some(59_090)),
        ],
    ),
    (
        "margins of equal claims",
        Election {
            votes: &[30, 10],
            minima: &[],
            seats: &[2, 0],
        },
        &[
            Call::Divisor(None),
            Call::Last(&[0]),
            Call::Next(&[1]),
            Call::Missing(0, None),
            Call::Missing(1, Some(1)),
            Call::Swing(0, 1, Some(1)),
        ],
    ),
    (
        "margins with minima",
        Election {
            votes: &[500, 100, 400],
            minima: &[0, 2, 1],
            seats: &[3, 2, 2],
        },
        &[
            Call::MissingWithMinima(0, Some(434)),
            Call::Spare(0, Some(99)),
            Call::MissingWithMinima(1, Some(401)),
            Call::MissingWithMinima(2, Some(101)),
            Call::Spare(2, Some(185)),
        ],
    ),
];

// Whether a number in decimals has this text.
fn is_text(alloc: Global, decimal: &Decimal, text: &str) -> bool {
    match decimal.text(alloc) {
        Ok(found) => found.as_str() == text,
        Err(_) => false,
    }
}

// Whether there is a number in decimals, or none, as is wanted.
fn is_decimal(alloc: Global, found: Option<Decimal>, wanted: Option<&str>) -> bool {
    match (found, wanted) {
        (Some(found), Some(wanted)) => is_text(alloc, &found, wanted),
        (None, None) => true,
        _ => false,
    }
}

// Whether these entries are the ones that are wanted.
fn are_entries(found: Result<Vec<usize>, NoMemory>, wanted: &[usize]) -> bool {
    match found {
        Ok(found) => found.as_slice() == wanted,
        Err(_) => false,
    }
}

fn minimum(minima: &[u32], entry: usize) -> u32
    ensures { result ≡ slice_index minima.now entry }
{
    match minima.get(entry) {
        Some(least) => *least,
        None => 0,
    }
}

impl Election {
    fn has_divisor(self, alloc: Global, wanted: Option<&str>) -> bool {
        are_within(self.votes, self.seats)
            && is_decimal(alloc, divisor(METHOD, self.votes, self.seats), wanted)
    }

    fn has_last(self, alloc: Global, wanted: &[usize]) -> bool {
        are_within(self.votes, self.seats)
            && are_entries(last_seats(alloc, METHOD, self.votes, self.seats), wanted)
    }

    fn has_next(self, alloc: Global, wanted: &[usize]) -> bool {
        are_within(self.votes, self.seats)
            && are_entries(next_claims(alloc, METHOD, self.votes, self.seats), wanted)
    }

    fn is_missing(self, entry: usize, wanted: Option<u64>) -> bool {
        are_within(self.votes, self.seats)
            && is_allocation(METHOD, self.votes, self.seats)
            && entry < self.votes.len()
            && votes_missing(METHOD, self.votes, self.seats, entry) == wanted
    }

    fn is_missing_with_minima(self, entry: usize, wanted: Option<u64>) -> bool {
        are_within(self.votes, self.seats)
            && self.minima.len() <= self.votes.len()
            && is_allocation_with_minima(METHOD, self.votes, self.minima, self.seats)
            && entry < self.votes.len()
            && votes_missing_with_minima(METHOD, self.votes, self.minima, self.seats, entry)
                == wanted
    }

    fn is_spare(self, entry: usize, wanted: Option<u64>) -> bool {
        are_within(self.votes, self.seats)
            && self.minima.len() <= self.votes.len()
            && is_allocation_with_minima(METHOD, self.votes, self.minima, self.seats)
            && entry < self.votes.len()
            && minimum(self.minima, entry) < self.seats[entry]
            && votes_to_spare(METHOD, self.votes, self.minima, self.seats, entry) == wanted
    }

    fn is_swing(self, from: usize, to: usize, wanted: Option<u64>) -> bool {
        are_within(self.votes, self.seats)
            && is_allocation(METHOD, self.votes, self.seats)
            && is_swing_within(self.votes, self.seats, from, to)
            && swing(METHOD, self.votes, self.seats, from, to) == wanted
    }

    // Whether a call answers as wanted.
    fn answers(self, alloc: Global, call: &Call) -> bool {
        match call {
            Call::Divisor(wanted) => self.has_divisor(alloc, *wanted),
            Call::Last(wanted) => self.has_last(alloc, wanted),
            Call::Next(wanted) => self.has_next(alloc, wanted),
            Call::Missing(entry, wanted) => self.is_missing(*entry, *wanted),
            Call::MissingWithMinima(entry, wanted) => self.is_missing_with_minima(*entry, *wanted),
            Call::Spare(entry, wanted) => self.is_spare(*entry, *wanted),
            Call::Swing(from, to, wanted) => self.is_swing(*from, *to, *wanted),
        }
    }
}

/// The first call on an election that does not answer as wanted.
pub(crate) fn first_wrong(alloc: Global, election: &Election, calls: &[Call]) -> Option<usize> {
    for (place, call) in calls.iter().enumerate() {
        if !election.answers(alloc, call) {
            return Some(place);
        }
    }
    None
}

// Votes, a divisor, decimal places, and the text of the quotient.
const DECIMALS: [(u128, u128, u32, &str); 5] = [
    (11_196_374, 68_100, 4, "164.4107"),
    (2_830_238, 68_196, 3, "41.501"),
    (1, 200, 2, "0.00"),
    (1, 200, 12, "0.005000000000"),
    (17, 5, 0, "3"),
];

fn is_cut(alloc: Global, votes: u128, divisor: u128, places: u32, wanted: &str) -> bool {
    votes <= MAX_NUMERATOR
        && divisor > 0
        && places <= MAX_PLACES
        && is_text(alloc, &cut(votes, divisor, places), wanted)
}

/// The first quotient that does not have its text.
pub(crate) fn first_wrong_decimal(alloc: Global) -> Option<usize> {
    for (call, (votes, divisor, places, wanted)) in DECIMALS.iter().enumerate() {
        if !is_cut(alloc, *votes, *divisor, *places, wanted) {
            return Some(call);
        }
    }
    None
}
