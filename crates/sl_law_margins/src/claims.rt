//! Who won the last seat of an allocation, and who has the claim to the next one.

ghost use Rattle.std.specs.Prelude.{◌≡◌, ◌-◌, ◌<◌, ◌≤◌, ◌↔◌, IsTrue, All, IfOk, length};
ghost use Rattle.sl_base_quotients.specs.Quotient.{AtMost, quotient};
ghost use Rattle.sl_base_quotients.specs.Bounds.{IsLast, IsNext};
ghost use Rattle.sl_ratio.specs.inner.Picks.{lesser, greater};
ghost use Rattle.sl_law_meaning.specs.methods.Ties.{Lists};
ghost use Rattle.sl_law_margins.specs.MissingVotes.{IsAllocation};
ghost use Rattle.sl_law_margins.specs.inner.Claims.{IsLeastLast, IsGreatestNext, IsInField, IsFair};

use sl_base_quotients::{Divisor, MAX_SEATS, MAX_WEIGHT, NoMemory, Ratio};
use std::alloc::Global;

// The lesser of two claims, the one found before where they are equal.
fn lesser(found: Option<Ratio>, claim: Ratio) -> Ratio
    ensures { result ≡ lesser found claim }
{
    match found {
        Some(least) if least.cmp(&claim).is_le() => least,
        _ => claim,
    }
}

// The greater of two claims, the one found before where they are equal.
fn greater(found: Option<Ratio>, claim: Ratio) -> Ratio
    ensures { result ≡ greater found claim }
{
    match found {
        Some(greatest) if greatest.cmp(&claim).is_ge() => greatest,
        _ => claim,
    }
}

// The least claim by which a seat was won, or `None` where none was.
pub(crate) fn least_last(method: Divisor, weights: &[u64], seats: &[u32]) -> Option<Ratio>
    requires same_length { length seats.now ≡ length weights.now }
    requires weights { All (λ v. v ≤ MAX_WEIGHT) weights.now }
    requires seats { All (λ s. s ≤ MAX_SEATS) seats.now }
    ensures { IsLeastLast method weights.now seats.now result }
{
    let mut last = None;
    for (entry, weight) in weights.iter().enumerate() {
        let held = seats[entry];
        if *weight > 0 && held > 0 {
            last = Some(lesser(last, method.ratio(*weight, held - 1)));
        }
    }
    last
}

// The greatest claim to a next seat, or `None` where no entry has votes.
pub(crate) fn greatest_next(method: Divisor, weights: &[u64], seats: &[u32]) -> Option<Ratio>
    requires same_length { length seats.now ≡ length weights.now }
    requires weights { All (λ v. v ≤ MAX_WEIGHT) weights.now }
    requires seats { All (λ s. s ≤ MAX_SEATS) seats.now }
    ensures { IsGreatestNext method weights.now seats.now result }
{
    let mut next = None;
    for (entry, weight) in weights.iter().enumerate() {
        if *weight > 0 {
            next = Some(greater(next, method.ratio(*weight, seats[entry])));
        }
    }
    next
}

// Whether an entry was given a last seat by a claim that is no greater than this one.
fn is_last(method: Divisor, weight: u64, held: u32, least: Ratio) -> bool
    requires weight { weight ≤ MAX_WEIGHT }
    requires held { held ≤ MAX_SEATS }
    ensures { IsTrue result ↔ ((0 < weight) × (0 < held) × AtMost (quotient method weight (held - 1)) least) }
{
    weight > 0 && held > 0 && method.ratio(weight, held - 1).cmp(&least).is_le()
}

// Whether an entry has a next claim that is no smaller than this one.
fn is_next(method: Divisor, weight: u64, held: u32, greatest: Ratio) -> bool
    requires weight { weight ≤ MAX_WEIGHT }
    requires held { held ≤ MAX_SEATS }
    ensures { IsTrue result ↔ ((0 < weight) × AtMost greatest (quotient method weight held)) }
{
    weight > 0 && greatest.cmp(&method.ratio(weight, held)).is_le()
}

/// The entries that won the last seat, in entry order: those whose last seat has the least quotient of all seats given. There is none where no
/// seat was given.
pub fn last_seats(
    alloc: Global,
    method: Divisor,
    weights: &[u64],
    seats: &[u32],
) -> Result<Vec<usize>, NoMemory>
    requires same_length { length seats.now ≡ length weights.now }
    requires weights { All (λ v. v ≤ MAX_WEIGHT) weights.now }
    requires seats { All (λ s. s ≤ MAX_SEATS) seats.now }
    ensures { IfOk result (λ entries. Lists (IsLast method weights.now seats.now) entries.items) }
{
    let mut entries = Vec::new(alloc);
    let Some(least) = least_last(method, weights, seats) else {
        return Ok(entries);
    };
    for (entry, weight) in weights.iter().enumerate() {
        if is_last(method, *weight, seats[entry], least) {
            entries.push(entry)?;
        }
    }
    Ok(entries)
}

/// The entries that have the claim to the next seat, in entry order: those whose next quotient is the greatest. There is none where no entry has
/// votes.
pub fn next_claims(
    alloc: Global,
    method: Divisor,
    weights: &[u64],
    seats: &[u32],
) -> Result<Vec<usize>, NoMemory>
    requires same_length { length seats.now ≡ length weights.now }
    requires weights { All (λ v. v ≤ MAX_WEIGHT) weights.now }
    requires seats { All (λ s. s ≤ MAX_SEATS) seats.now }
    ensures { IfOk result (λ entries. Lists (IsNext method weights.now seats.now) entries.items) }
{
    let mut entries = Vec::new(alloc);
    let Some(greatest) = greatest_next(method, weights, seats) else {
        return Ok(entries);
    };
    for (entry, weight) in weights.iter().enumerate() {
        if is_next(method, *weight, seats[entry], greatest) {
            entries.push(entry)?;
        }
    }
    Ok(entries)
}

// Whether each entry without votes has no seat.
fn is_in_field(weights: &[u64], seats: &[u32]) -> bool
    requires same_length { length seats.now ≡ length weights.now }
    ensures { IsTrue result ↔ IsInField weights.now seats.now }
{
    for (entry, weight) in weights.iter().enumerate() {
        if *weight == 0 && seats[entry] > 0 {
            return false;
        }
    }
    true
}

// Whether no next claim is above one by which a seat was won.
fn is_fair(method: Divisor, weights: &[u64], seats: &[u32]) -> bool
    requires same_length { length seats.now ≡ length weights.now }
    requires weights { All (λ v. v ≤ MAX_WEIGHT) weights.now }
    requires seats { All (λ s. s ≤ MAX_SEATS) seats.now }
    ensures { IsTrue result ↔ IsFair method weights.now seats.now }
{
    let Some(last) = least_last(method, weights, seats) else {
        return true;
    };
    let Some(next) = greatest_next(method, weights, seats) else {
        return true;
    };
    next.cmp(&last).is_le()
}

/// Whether the seats are an allocation, by the method and without minima, of as many seats as they are.
pub fn is_allocation(method: Divisor, weights: &[u64], seats: &[u32]) -> bool
    requires same_length { length seats.now ≡ length weights.now }
    requires weights { All (λ v. v ≤ MAX_WEIGHT) weights.now }
    requires seats { All (λ s. s ≤ MAX_SEATS) seats.now }
    ensures { IsTrue result ↔ IsAllocation method weights.now seats.now }
{
    is_in_field(weights, seats) && is_fair(method, weights, seats)
}
