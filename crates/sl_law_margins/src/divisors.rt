//! A divisor of the fewest digits between the claims of an allocation.

ghost use Rattle.std.specs.Int.{div_ceil};
ghost use Rattle.std.specs.Prelude.{◌≡◌, ◌+◌, ◌*◌, ◌^◌, ◌<◌, ◌≤◌, All, IfSome, MatchOption, length, sum};
ghost use Rattle.sl_law_margins.specs.Divisors.{IsShortDivisor, unit_places};
ghost use Rattle.sl_law_margins.specs.inner.Needed.{power_of};
ghost use Rattle.sl_law_margins.specs.inner.Units.{IsFrom, IsUpTo, IsUnitsAbove, IsHighest, IsRoundest, IsPowerOfTen, IsRound};

use crate::claims::{greatest_next, least_last};
use crate::decimal::{Decimal, shortened};
use crate::votes::root_above;
use sl_base_quotients::{Divisor, MAX_SEATS, MAX_WEIGHT, Ratio};

// A quotient is counted in parts of this size. A divisor is counted in units of the same size, and under Hill, where quotients are squares,
// in units of its root.
const SCALE: u128 = 1_000_000_000_000;

// How many places the unit of a divisor has.
fn places(method: Divisor) -> u32
    ensures value { result ≡ unit_places method }
    ensures most { result ≤ 12 }
{
    match method {
        Divisor::Hill => 6,
        _ => 12,
    }
}

// The greatest number whose power, by the degree that quotients have in the weight, is no greater than `power`.
fn root_within(method: Divisor, power: u128) -> u128
    ensures value { IsUpTo (λ n. power_of method n ≤ power) result }
    ensures most { result ≤ power }
{
    match method {
        Divisor::Hill => power.isqrt(),
        _ => power,
    }
}

// The least number of units that is above a next claim.
fn lowest(method: Divisor, next: Ratio) -> u128
    requires finite { 0 < next.den }
    ensures value { IsFrom (IsUnitsAbove method next) result }
    ensures positive { 0 < result }
    ensures most { result ≤ 10 ^ 37 + 1 }
{
    let parts = next.num() * SCALE / next.den();
    root_above(method, parts)
}

// The greatest number of units that is below a last claim, or `None` where there is no such claim, or an infinite one.
fn highest(method: Divisor, last: Option<Ratio>) -> Option<u128>
    ensures value { IsHighest method last result }
    ensures most { IfSome result (λ high. high ≤ 10 ^ 37) }
{
    let last = last?;
    if last.is_infinite() {
        return None;
    }
    let parts = (last.num() * SCALE - 1) / last.den();
    Some(root_within(method, parts))
}

// The least multiple of `step` that is no less than `low`.
fn multiple_from(low: u128, step: u128) -> u128
    requires step { 0 < step }
    requires fits { low + step < 2 ^ 128 }
    ensures multiple { result ≡ div_ceil low step * step }
    ensures from { low ≤ result }
    ensures next { result < low + step }
{
    low.div_ceil(step) * step
}

// The least of the numbers from `low` to `high` that end in the most zeros.
fn roundest(low: u128, high: u128) -> Option<u128>
    requires low { 0 < low }
    requires low_fits { low ≤ 10 ^ 37 + 1 }
    requires high_fits { high ≤ 10 ^ 37 }
    ensures { MatchOption result (high < low) (IsRoundest low high) }
{
    if low > high {
        return None;
    }
    let mut step = 1;
    while multiple_from(low, step * 10) <= high {
        step *= 10;
    }
    Some(multiple_from(low, step))
}

// The least power of ten that is no less than `low`.
fn power_from(low: u128) -> u128
    requires low_fits { low ≤ 10 ^ 37 + 1 }
    ensures power { IsPowerOfTen result }
    ensures from { low ≤ result }
{
    let mut power = 1;
    while power < low {
        power *= 10;
    }
    power
}

// The roundest number from `low` to `high`, or without an upper bound a power of ten.
fn round_number(low: u128, high: Option<u128>) -> Option<u128>
    requires low { 0 < low }
    requires low_fits { low ≤ 10 ^ 37 + 1 }
    requires high_fits { IfSome high (λ h. h ≤ 10 ^ 37) }
    ensures { IsRound low high result }
{
    match high {
        Some(high) => roundest(low, high),
        None => Some(power_from(low)),
    }
}

/// A divisor of the fewest significant digits that stands strictly between the next claims and those of the last seats. Where every seat was
/// given by an infinite claim, or none was given, it is a power of ten.
///
/// `None` where no decimal number of twelve places lies between, under Hill's method none of six: at a tie, for one.
pub fn divisor(method: Divisor, weights: &[u64], seats: &[u32]) -> Option<Decimal>
    requires same_length { length seats.now ≡ length weights.now }
    requires weights { All (λ v. v ≤ MAX_WEIGHT) weights.now }
    requires seats { All (λ s. s ≤ MAX_SEATS) seats.now }
    requires field { 0 < sum weights.now }
    ensures { IsShortDivisor method weights.now seats.now result }
{
    let next = greatest_next(method, weights, seats)?;
    if next.is_infinite() {
        return None;
    }
    let low = lowest(method, next);
    let last = least_last(method, weights, seats);
    let units = round_number(low, highest(method, last))?;
    Some(shortened(units, places(method)))
}
