//! The bounds of an allocation: the least quotient of an awarded seat, and the greatest of a next one.

ghost use Rattle.std.specs.Prelude.{◌≡◌, ◌-◌, ◌*◌, ◌<◌, ◌≤◌, Some, length, sum, MatchOption};
ghost use Rattle.std.specs.List.{All};
ghost use Rattle.sl_base_quotients.specs.Bounds.{AreBounds, IsRounding, IsLastBound, IsNextBound};
ghost use Rattle.sl_base_quotients.specs.Quotient.{quotient};
ghost use Rattle.sl_ratio.specs.inner.Picks.{lesser, greater};

use sl_base_quotients::{Divisor, MAX_SEATS, MAX_WEIGHT, Ratio};

// The lesser of two quotients, the one found before where they are equal.
fn lesser(found: Option<Ratio>, quotient: Ratio) -> Ratio
    ensures { result ≡ lesser found quotient }
{
    match found {
        Some(least) if least.cmp(&quotient).is_le() => least,
        _ => quotient,
    }
}

// The greater of two quotients, the one found before where they are equal.
fn greater(found: Option<Ratio>, quotient: Ratio) -> Ratio
    ensures { result ≡ greater found quotient }
{
    match found {
        Some(greatest) if greatest.cmp(&quotient).is_ge() => greatest,
        _ => quotient,
    }
}

// The least quotient found after an entry more, which counts with its last seat, if it has one.
fn last_with(method: Divisor, found: Option<Ratio>, weight: u64, held: u32) -> Option<Ratio>
    requires positive { 1 ≤ weight }
    requires weight { weight ≤ MAX_WEIGHT }
    requires held { held ≤ MAX_SEATS }
    ensures awarded { 0 < held → result ≡ Some (lesser found (quotient method weight (held - 1))) }
    ensures passed { held ≡ 0 → result ≡ found }
{
    if held == 0 {
        return found;
    }
    Some(lesser(found, method.ratio(weight, held - 1)))
}

// The least quotient of an awarded seat, or `None` where there is no such seat.
fn last_bound(method: Divisor, weights: &[u64], seats: &[u32]) -> Option<Ratio>
    requires same_length { length seats.now ≡ length weights.now }
    requires positive { All (λ v. 1 ≤ v) weights.now }
    requires weights { All (λ v. v ≤ MAX_WEIGHT) weights.now }
    requires seats { All (λ s. s ≤ MAX_SEATS) seats.now }
    ensures { MatchOption result (All (λ s. s ≡ 0) seats.now) (IsLastBound method weights.now seats.now) }
{
    let mut last = None;
    for (weight, held) in weights.iter().zip(seats) {
        last = last_with(method, last, *weight, *held);
    }
    last
}

// The greatest quotient of a next seat, or `None` where there are no entries.
fn next_bound(method: Divisor, weights: &[u64], seats: &[u32]) -> Option<Ratio>
    requires same_length { length seats.now ≡ length weights.now }
    requires positive { All (λ v. 1 ≤ v) weights.now }
    requires weights { All (λ v. v ≤ MAX_WEIGHT) weights.now }
    requires seats { All (λ s. s ≤ MAX_SEATS) seats.now }
    ensures { MatchOption result (length weights.now ≡ 0) (IsNextBound method weights.now seats.now) }
{
    let mut next = None;
    for (weight, held) in weights.iter().zip(seats) {
        next = Some(greater(next, method.ratio(*weight, *held)));
    }
    next
}

/// The bounds `last` and `next` of an allocation without minima: the least quotient of an awarded seat, and the greatest quotient of a
/// next one, or `None` where `next` is above `last`, so that these seats are no allocation by the method.
///
/// Of equal quotients the ratio is that of the first entry. The method rounds: it is that of Adams, Webster or Jefferson.
pub fn bounds(method: Divisor, weights: &[u64], seats: &[u32]) -> Option<(Ratio, Ratio)>
    requires rounding { IsRounding method }
    requires same_length { length seats.now ≡ length weights.now }
    requires positive { All (λ v. 1 ≤ v) weights.now }
    requires weights { All (λ v. v ≤ MAX_WEIGHT) weights.now }
    requires seats { All (λ s. s ≤ MAX_SEATS) seats.now }
    requires awarded { 0 < sum seats.now }
    ensures { AreBounds method weights.now seats.now result }
{
    let last = last_bound(method, weights, seats)?;
    let next = next_bound(method, weights, seats)?;
    next.cmp(&last).is_le().then_some((last, next))
}
