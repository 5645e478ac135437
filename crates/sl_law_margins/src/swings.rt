//! The votes that must go over from one entry to another for one more seat.

ghost use Rattle.std.specs.Prelude.{◌≡◌, ◌≢◌, ◌+◌, ◌<◌, ◌≤◌, IsTrue, All, length, sum, slice_index};
ghost use Rattle.sl_law_margins.specs.MissingVotes.{IsAllocation};
ghost use Rattle.sl_law_margins.specs.Swings.{IsSwing};
ghost use Rattle.sl_law_margins.specs.VotesToSpare.{with_fewer};
ghost use Rattle.sl_law_margins.specs.inner.Filled.{Reaches, AreFilled};

use sl_base_quotients::{Divisor, MAX_SEATS, MAX_WEIGHT, Ratio};

// How many seats, at most so many, a weight has by claims that are no smaller than this one.
fn seats_reached(method: Divisor, weight: u64, claim: Ratio, most: u32) -> u32
    requires positive { 1 ≤ weight }
    requires weight { weight ≤ MAX_WEIGHT }
    requires most { most ≤ MAX_SEATS }
    ensures { Reaches method weight claim most result }
{
    let mut seats = 0;
    while seats < most && claim.cmp(&method.ratio(weight, seats)).is_le() {
        seats += 1;
    }
    seats
}

// The votes of an entry, with so many gone from one entry.
fn weight_left(weights: &[u64], from: usize, moved: u64, entry: usize) -> u64
    requires from { from < length weights.now }
    requires entry { entry < length weights.now }
    requires moved { moved ≤ slice_index weights.now from }
    ensures { result ≡ slice_index (with_fewer weights.now from moved) entry }
{
    if entry == from {
        weights[entry] - moved
    } else {
        weights[entry]
    }
}

// The seats of all entries but one.
fn seats_of_others(seats: &[u32], entry: usize) -> u32
    requires house { sum seats.now ≤ MAX_SEATS }
    requires entry { entry < length seats.now }
    ensures { result + slice_index seats.now entry ≡ sum seats.now }
{
    let mut all = 0;
    for held in seats {
        all += *held;
    }
    all - seats[entry]
}

// Whether all entries but `to` can fill their seats by claims that are no smaller than its next one, with so many votes moved to it.
fn are_filled(
    method: Divisor,
    weights: &[u64],
    seats: &[u32],
    from: usize,
    to: usize,
    moved: u64,
) -> bool
    requires same_length { length seats.now ≡ length weights.now }
    requires weights { All (λ v. v ≤ MAX_WEIGHT) weights.now }
    requires house { sum seats.now ≤ MAX_SEATS }
    requires from { from < length weights.now }
    requires to { to < length weights.now }
    requires moved { moved ≤ slice_index weights.now from }
    requires some { 0 < moved }
    requires fits { slice_index weights.now to + slice_index weights.now from ≤ MAX_WEIGHT }
    ensures { AreFilled method weights.now seats.now from to moved result }
{
    let claim = method.ratio(weights[to] + moved, seats[to]);
    let mut left = seats_of_others(seats, to);
    for rival in 0..weights.len() {
        if rival != to && left > 0 {
            let weight = weight_left(weights, from, moved, rival);
            if weight > 0 {
                left -= seats_reached(method, weight, claim, left);
            }
        }
    }
    left == 0
}

// Whether all seats are within the limit of a house.
fn is_house(seats: &[u32]) -> bool
    ensures { IsTrue result → sum seats.now ≤ MAX_SEATS }
{
    let mut left = MAX_SEATS;
    for held in seats {
        if *held > left {
            return false;
        }
        left -= *held;
    }
    true
}

// Whether the votes of both are within the limit of one.
fn are_within_one(from: u64, to: u64) -> bool
    ensures { IsTrue result → to + from ≤ MAX_WEIGHT }
{
    to <= MAX_WEIGHT && from <= MAX_WEIGHT - to
}

/// Whether a swing may be asked of these votes and seats and of these two entries: there are the two, all seats are within the limit of a house,
/// and the votes of both within the limit of one.
pub fn is_swing_within(weights: &[u64], seats: &[u32], from: usize, to: usize) -> bool
    ensures house { IsTrue result → sum seats.now ≤ MAX_SEATS }
    ensures from { IsTrue result → from < length weights.now }
    ensures to { IsTrue result → to < length weights.now }
    ensures apart { IsTrue result → from ≢ to }
    ensures fits { IsTrue result → slice_index weights.now to + slice_index weights.now from ≤ MAX_WEIGHT }
{
    from < weights.len()
        && to < weights.len()
        && from != to
        && are_within_one(weights[from], weights[to])
        && is_house(seats)
}

/// The swing that wins an entry a seat: the least number of votes that must go over to it from another entry, all else equal, so that every
/// allocation of the same number of seats gives it more than it has, or `None` where all of them would not do.
///
/// Nothing is said of minima or of Hamilton's method.
pub fn swing(method: Divisor, weights: &[u64], seats: &[u32], from: usize, to: usize) -> Option<u64>
    requires weights { All (λ v. v ≤ MAX_WEIGHT) weights.now }
    requires house { sum seats.now ≤ MAX_SEATS }
    requires allocation { IsAllocation method weights.now seats.now }
    requires from { from < length weights.now }
    requires to { to < length weights.now }
    requires apart { from ≢ to }
    requires fits { slice_index weights.now to + slice_index weights.now from ≤ MAX_WEIGHT }
    ensures { IsSwing method weights.now seats.now from to result }
{
    let all = weights[from];
    if all == 0 || are_filled(method, weights, seats, from, to, all) {
        return None;
    }
    let mut few = 0;
    let mut enough = all;
    while enough - few > 1 {
        let half = few + (enough - few) / 2;
        if are_filled(method, weights, seats, from, to, half) {
            few = half;
        } else {
            enough = half;
        }
    }
    Some(enough)
}
