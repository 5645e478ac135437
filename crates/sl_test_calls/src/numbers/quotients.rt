//! Quotients, the order of entries by them, and the bounds between them.

use sl_base_quotients::{
    DIVISORS, Divisor, Entry, MAX_DENOMINATOR, MAX_NUMERATOR, MAX_SEATS, MAX_WEIGHT, Ratio,
};
use sl_ratio::bounds;
use std::cmp::Ordering;
use std::hash::{DefaultHasher, Hash, Hasher};

/// A quotient: its numerator and its denominator.
pub type Quotient = (u128, u128);

/// The ratio of a quotient, made to fit.
pub(crate) fn ratio((num, den): Quotient) -> Ratio {
    Ratio::new(num.clamp(1, MAX_NUMERATOR), den.min(MAX_DENOMINATOR))
}

// A method, votes and the seats that are held, and the quotient.
const QUOTIENTS: [(Divisor, u64, u32, Quotient); 35] = [
    (Divisor::Adams, 30, 0, (30, 0)),
    (Divisor::Dean, 30, 0, (30, 0)),
    (Divisor::Hill, 30, 0, (900, 0)),
    (Divisor::Webster, 30, 0, (60, 1)),
    (Divisor::Jefferson, 30, 0, (30, 1)),
    (Divisor::Adams, 100, 3, (100, 3)),
    (Divisor::Dean, 100, 3, (700, 24)),
    (Divisor::Hill, 100, 3, (10000, 12)),
    (Divisor::Webster, 100, 3, (200, 7)),
    (Divisor::Jefferson, 100, 3, (100, 4)),
    (Divisor::Adams, 30, 1, (30, 1)),
    (Divisor::Dean, 30, 1, (90, 4)),
    (Divisor::Hill, 30, 1, (900, 2)),
    (Divisor::Webster, 30, 1, (60, 3)),
    (Divisor::Jefferson, 30, 1, (30, 2)),
    (Divisor::Adams, 10, 0, (10, 0)),
    (Divisor::Dean, 10, 0, (10, 0)),
    (Divisor::Hill, 10, 0, (100, 0)),
    (Divisor::Webster, 10, 0, (20, 1)),
    (Divisor::Jefferson, 10, 0, (10, 1)),
    (Divisor::Adams, 3, 0, (3, 0)),
    (Divisor::Dean, 3, 0, (3, 0)),
    (Divisor::Hill, 3, 0, (9, 0)),
    (Divisor::Webster, 3, 0, (6, 1)),
    (Divisor::Jefferson, 3, 0, (3, 1)),
    (Divisor::Adams, 3, 1, (3, 1)),
    (Divisor::Dean, 3, 1, (9, 4)),
    (Divisor::Hill, 3, 1, (9, 2)),
    (Divisor::Webster, 3, 1, (6, 3)),
    (Divisor::Jefferson, 3, 1, (3, 2)),
    (Divisor::Adams, 3, 2, (3, 2)),
    (Divisor::Dean, 3, 2, (15, 12)),
    (Divisor::Hill, 3, 2, (9, 6)),
    (Divisor::Webster, 3, 2, (6, 5)),
    (Divisor::Jefferson, 3, 2, (3, 3)),
];

fn is_quotient(method: Divisor, votes: u64, held: u32, wanted: Quotient) -> bool {
    if votes == 0 || votes > MAX_WEIGHT || held > MAX_SEATS {
        return false;
    }
    let ratio = method.ratio(votes, held);
    (ratio.num(), ratio.den()) == wanted
}

/// The first votes and seats whose quotient is not this one.
pub(crate) fn first_wrong_quotient() -> Option<usize> {
    for (call, (method, votes, held, wanted)) in QUOTIENTS.iter().enumerate() {
        if !is_quotient(*method, *votes, *held, *wanted) {
            return Some(call);
        }
    }
    None
}

/// 0 if the methods do not stand from Adams' to Jefferson's.
pub(crate) fn first_wrong_method() -> Option<usize> {
    match DIVISORS {
        [
            Divisor::Adams,
            Divisor::Dean,
            Divisor::Hill,
            Divisor::Webster,
            Divisor::Jefferson,
        ] => None,
        _ => Some(0),
    }
}

// A quotient and an index, two times; how the quotients compare, how the entries do in all, and whether their hashes are the same.
type Order = (Quotient, u32, Quotient, u32, Ordering, Ordering, bool);

const ORDERS: [Order; 7] = [
    (
        (3, 0),
        0,
        (2, 0),
        0,
        Ordering::Equal,
        Ordering::Greater,
        false,
    ),
    (
        (3, 0),
        0,
        (10_000_000_000_000_000_000_000_000, 1),
        0,
        Ordering::Greater,
        Ordering::Greater,
        false,
    ),
    (
        (60, 3),
        0,
        (20, 1),
        1,
        Ordering::Equal,
        Ordering::Greater,
        false,
    ),
    (
        (60, 3),
        0,
        (20, 1),
        0,
        Ordering::Equal,
        Ordering::Greater,
        false,
    ),
    (
        (20, 1),
        0,
        (20, 1),
        1,
        Ordering::Equal,
        Ordering::Greater,
        false,
    ),
    (
        (61, 3),
        9,
        (60, 3),
        0,
        Ordering::Greater,
        Ordering::Greater,
        false,
    ),
    (
        (60, 3),
        0,
        (60, 3),
        0,
        Ordering::Equal,
        Ordering::Equal,
        true,
    ),
];

fn hash_of(entry: &Entry) -> u64 {
    let mut state = DefaultHasher::new();
    entry.hash(&mut state);
    state.finish()
}

/// The entry of a quotient.
pub(crate) fn entry(quotient: Quotient, index: u32) -> Entry {
    Entry {
        ratio: ratio(quotient),
        index,
    }
}

fn are_ordered(first: &Entry, second: &Entry, by_quotient: Ordering, in_all: Ordering) -> bool {
    first.ratio.cmp(&second.ratio) == by_quotient && first.cmp(second) == in_all
}

fn is_order(order: &Order) -> bool {
    let (quotient, index, other, other_index, by_quotient, in_all, is_same) = order;
    let first = entry(*quotient, *index);
    let second = entry(*other, *other_index);
    are_ordered(&first, &second, *by_quotient, *in_all)
        && (hash_of(&first) == hash_of(&second)) == *is_same
}

/// The first entries that do not compare so.
pub(crate) fn first_wrong_order() -> Option<usize> {
    for (call, order) in ORDERS.iter().enumerate() {
        if !is_order(order) {
            return Some(call);
        }
    }
    None
}

/// Of eight seats for 100, 80 and 30 votes, which of those that no divisor gives, and of those that one gives, do not have bounds as they should.
pub(crate) fn first_wrong_bound() -> Option<usize> {
    if bounds(Divisor::Jefferson, &[100, 80, 30], &[3, 3, 2]).is_some() {
        return Some(0);
    }
    if bounds(Divisor::Jefferson, &[100, 80, 30], &[4, 3, 1]).is_none() {
        return Some(1);
    }
    None
}
