//! Whether seats are an allocation with minima.

ghost use Rattle.std.specs.Prelude.{◌≡◌, ◌-◌, ◌<◌, ◌≤◌, ◌↔◌, IsTrue, All, length, sum};
ghost use Rattle.sl_base_quotients.specs.Quotient.{AtMost, quotient};
ghost use Rattle.sl_law_meaning.specs.methods.Allocations.{IsDivisorAllocation};
ghost use Rattle.sl_law_margins.specs.inner.Minima.{AreMet, AreReached};

use crate::claims::greatest_next;
use crate::votes::minimum;
use sl_base_quotients::{Divisor, MAX_SEATS, MAX_WEIGHT, Ratio};

// Whether an entry has its minimum, and just that if it has no votes.
fn is_met(weight: u64, least: u32, held: u32) -> bool
    ensures { IsTrue result ↔ ((least ≤ held) × (weight ≡ 0 → held ≡ least)) }
{
    if weight == 0 {
        held == least
    } else {
        least <= held
    }
}

// Whether each entry has its minimum, and just that if it has no votes.
fn are_met(weights: &[u64], minima: &[u32], seats: &[u32]) -> bool
    requires same_length { length seats.now ≡ length weights.now }
    ensures { IsTrue result ↔ AreMet weights.now minima.now seats.now }
{
    for (entry, weight) in weights.iter().enumerate() {
        if !is_met(*weight, minimum(minima, entry), seats[entry]) {
            return false;
        }
    }
    true
}

// Whether the claim to an entry's last seat beyond its minimum, if there is one, is no smaller than this one.
fn reaches(method: Divisor, weight: u64, least: u32, held: u32, next: Ratio) -> bool
    requires weight { weight ≤ MAX_WEIGHT }
    requires held { held ≤ MAX_SEATS }
    ensures { IsTrue result ↔ (0 < weight → least < held → AtMost next (quotient method weight (held - 1))) }
{
    weight == 0 || held <= least || next.cmp(&method.ratio(weight, held - 1)).is_le()
}

// Whether no next claim is above one by which a seat beyond a minimum was won.
fn are_reached(method: Divisor, weights: &[u64], minima: &[u32], seats: &[u32]) -> bool
    requires same_length { length seats.now ≡ length weights.now }
    requires weights { All (λ v. v ≤ MAX_WEIGHT) weights.now }
    requires seats { All (λ s. s ≤ MAX_SEATS) seats.now }
    ensures { IsTrue result ↔ AreReached method weights.now minima.now seats.now }
{
    let Some(next) = greatest_next(method, weights, seats) else {
        return true;
    };
    for (entry, weight) in weights.iter().enumerate() {
        if !reaches(method, *weight, minimum(minima, entry), seats[entry], next) {
            return false;
        }
    }
    true
}

/// Whether the seats are an allocation, by the method and with these minima, of as many seats as they are. Without minima the list of minima is
/// empty.
pub fn is_allocation_with_minima(
    method: Divisor,
    weights: &[u64],
    minima: &[u32],
    seats: &[u32],
) -> bool
    requires same_length { length seats.now ≡ length weights.now }
    requires minima { length minima.now ≤ length weights.now }
    requires weights { All (λ v. v ≤ MAX_WEIGHT) weights.now }
    requires seats { All (λ s. s ≤ MAX_SEATS) seats.now }
    ensures { IsTrue result ↔ IsDivisorAllocation method weights.now minima.now (sum seats.now) seats.now }
{
    are_met(weights, minima, seats) && are_reached(method, weights, minima, seats)
}
