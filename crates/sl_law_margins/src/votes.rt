//! The votes that an entry lacks for one more seat.

ghost use Rattle.std.specs.Prelude.{◌≡◌, ◌≢◌, ◌^◌, ◌<◌, ◌≤◌, ◌↔◌, None, All, MatchOption, length, sum, slice_index};
ghost use Rattle.sl_base_quotients.specs.Bounds.{IsLast};
ghost use Rattle.sl_base_quotients.specs.Quotient.{quotient};
ghost use Rattle.sl_law_meaning.specs.methods.Allocations.{IsDivisorAllocation};
ghost use Rattle.sl_law_meaning.specs.methods.Ties.{Lists};
ghost use Rattle.sl_law_margins.specs.MissingVotes.{IsAllocation, AreMissing, AreMissingWith, AreOthersSafe, AreOthersSafeWith};
ghost use Rattle.sl_law_margins.specs.inner.Needed.{power_of, IsLeast, IsAbove, IsNeeded, lesser};

use sl_base_quotients::{Divisor, MAX_SEATS, MAX_WEIGHT};

// The least number whose power, by the degree that quotients have in the weight, exceeds `power`.
pub(crate) fn root_above(method: Divisor, power: u128) -> u128
    requires { power < 2 ^ 127 }
    ensures { IsLeast (λ w. power < power_of method w) result }
{
    match method {
        Divisor::Hill => power.isqrt() + 1,
        _ => power + 1,
    }
}

// The least weight whose quotient with `held` seats is above that of `weight` with `won` seats, or `None` where that one is infinite,
// so that none is above it.
pub(crate) fn weight_above(method: Divisor, held: u32, weight: u64, won: u32) -> Option<u64>
    requires positive { 1 ≤ weight }
    requires weight { weight ≤ MAX_WEIGHT }
    requires held { held ≤ MAX_SEATS }
    requires won { won ≤ MAX_SEATS }
    ensures { MatchOption result ((quotient method weight won).den ≡ 0) (IsLeast (IsAbove method held (quotient method weight won))) }
{
    let claim = method.ratio(weight, won);
    if claim.is_infinite() {
        return None;
    }
    let unit = method.ratio(1, held);
    let power = claim.num() * unit.den() / (claim.den() * unit.num());
    Some(root_above(method, power) as u64)
}

// The lesser of two numbers, where there are two.
fn lesser(found: Option<u64>, weight: Option<u64>) -> Option<u64>
    ensures { result ≡ lesser found weight }
{
    match (found, weight) {
        (Some(least), Some(other)) => Some(least.min(other)),
        (Some(least), None) => Some(least),
        (None, other) => other,
    }
}

// The minimum of an entry: 0 past the end of the list.
pub(crate) fn minimum(minima: &[u32], entry: usize) -> u32
    ensures { result ≡ slice_index minima.now entry }
{
    match minima.get(entry) {
        Some(least) => *least,
        None => 0,
    }
}

// The least weight by which the entry's next quotient is above the last one of another entry, by a seat beyond the minimum of that one.
fn weight_needed(
    method: Divisor,
    weights: &[u64],
    minima: &[u32],
    seats: &[u32],
    entry: usize,
) -> Option<u64>
    requires weights { All (λ v. v ≤ MAX_WEIGHT) weights.now }
    requires seats { All (λ s. s ≤ MAX_SEATS) seats.now }
    requires allocation { IsDivisorAllocation method weights.now minima.now (sum seats.now) seats.now }
    requires entry { entry < length weights.now }
    ensures { IsNeeded method weights.now minima.now seats.now entry (length weights.now) result }
{
    let mut needed = None;
    for (rival, weight) in weights.iter().enumerate() {
        let held = seats[rival];
        if rival != entry && held > minimum(minima, rival) {
            needed = lesser(
                needed,
                weight_above(method, seats[entry], *weight, held - 1),
            );
        }
    }
    needed
}

/// The votes that an entry lacks for one more seat in addition to minima: the least number of further votes for it, all else equal, with which every
/// allocation of the same number of seats, with the same minima, gives it more than it has, or `None` where no number does. An entry may be
/// without votes.
pub fn votes_missing_with_minima(
    method: Divisor,
    weights: &[u64],
    minima: &[u32],
    seats: &[u32],
    entry: usize,
) -> Option<u64>
    requires weights { All (λ v. v ≤ MAX_WEIGHT) weights.now }
    requires seats { All (λ s. s ≤ MAX_SEATS) seats.now }
    requires allocation { IsDivisorAllocation method weights.now minima.now (sum seats.now) seats.now }
    requires entry { entry < length weights.now }
    ensures missing { AreMissingWith method weights.now minima.now seats.now entry result }
    ensures none { (result ≡ None) ↔ AreOthersSafeWith method minima.now seats.now entry }
{
    let needed = weight_needed(method, weights, minima, seats, entry)?;
    Some(needed - weights[entry])
}

/// The votes that an entry lacks for one more seat: the least number of further votes for it, all else equal, with which every allocation of
/// the same number of seats gives it more than it has, or `None` where no number does. An entry may be without votes.
///
/// Nothing is said of minima or of Hamilton's method.
pub fn votes_missing(method: Divisor, weights: &[u64], seats: &[u32], entry: usize) -> Option<u64>
    requires weights { All (λ v. v ≤ MAX_WEIGHT) weights.now }
    requires seats { All (λ s. s ≤ MAX_SEATS) seats.now }
    requires allocation { IsAllocation method weights.now seats.now }
    requires entry { entry < length weights.now }
    ensures missing { AreMissing method weights.now seats.now entry result }
    ensures none { (result ≡ None) ↔ AreOthersSafe method seats.now entry }
{
    votes_missing_with_minima(method, weights, &[], seats, entry)
}

// The votes that an entry lacks for one more seat, by another entry that won the last seat.
fn votes_missing_over(
    method: Divisor,
    weights: &[u64],
    seats: &[u32],
    other: usize,
    entry: usize,
) -> Option<u64>
    requires weights { All (λ v. v ≤ MAX_WEIGHT) weights.now }
    requires seats { All (λ s. s ≤ MAX_SEATS) seats.now }
    requires allocation { IsAllocation method weights.now seats.now }
    requires entry { entry < length weights.now }
    requires other { other ≢ entry }
    requires last { IsLast method weights.now seats.now other }
    ensures missing { AreMissing method weights.now seats.now entry result }
    ensures none { (result ≡ None) ↔ AreOthersSafe method seats.now entry }
{
    let needed = weight_above(method, seats[entry], weights[other], seats[other] - 1)?;
    Some(needed - weights[entry])
}

/// The votes that an entry lacks for one more seat, as `votes_missing` tells them, by the entries that won the last seat: but for one that alone won
/// it, as fast for many entries as for few.
pub fn votes_missing_by(
    method: Divisor,
    weights: &[u64],
    seats: &[u32],
    last: &[usize],
    entry: usize,
) -> Option<u64>
    requires weights { All (λ v. v ≤ MAX_WEIGHT) weights.now }
    requires seats { All (λ s. s ≤ MAX_SEATS) seats.now }
    requires allocation { IsAllocation method weights.now seats.now }
    requires entry { entry < length weights.now }
    requires last { Lists (IsLast method weights.now seats.now) last.now }
    ensures missing { AreMissing method weights.now seats.now entry result }
    ensures none { (result ≡ None) ↔ AreOthersSafe method seats.now entry }
{
    if last.is_empty() {
        return None;
    }
    for other in last {
        if *other != entry {
            return votes_missing_over(method, weights, seats, *other, entry);
        }
    }
    votes_missing(method, weights, seats, entry)
}
