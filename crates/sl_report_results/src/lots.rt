//! Whether a lot decided in an allocation, what it gave, and the divisor of its equal claims.

ghost use Rattle.std.specs.Prelude.{◌≡◌, ◌<◌, ◌≤◌, ◌↔◌, ℕ, None, All, Contains, IfOk, IsTrue, MatchOption, length, slice_index_or, unwrap_or};
ghost use Rattle.std.specs.List.Sorted.{IsStrictlyIncreasing};
ghost use Rattle.sl_base_quotients.specs.Bounds.{IsLast, IsNext, last_quotient, next_quotient};
ghost use Rattle.sl_report_results.specs.Lots.{AreLots, IsBorder, IsDrawn, IsMark, TellsLot};
ghost use Rattle.sl_report_results.specs.inner.Common.{IsClaim, IsCommon};
ghost use Rattle.sl_law_meaning.specs.methods.Ties.{Lists};

use sl_base_quotients::{Divisor, MAX_SEATS, MAX_WEIGHT, NoMemory, Ratio};
use std::alloc::Global;

/// What is told of a lot: whether one decided, where that is known; the divisor on the border of equal claims; and for each entry whether the lot
/// gave it a last seat, where it did or did not.
#[derive(Drop)]
pub(crate) struct Lots {
    pub drawn: Option<bool>,
    pub border: Option<Ratio>,
    pub marks: Vec<Option<bool>>,
}

// The claim by which an entry won the last seat.
fn last_of(method: Divisor, weights: &[u64], seats: &[u32], entry: usize) -> Ratio
    requires same_length { length seats.now ≡ length weights.now }
    requires weights { All (λ v. v ≤ MAX_WEIGHT) weights.now }
    requires seats { All (λ s. s ≤ MAX_SEATS) seats.now }
    requires within { entry < length weights.now }
    requires won { IsLast method weights.now seats.now entry }
    ensures { result ≡ last_quotient method weights.now seats.now entry }
{
    method.ratio(weights[entry], seats[entry] - 1)
}

// The next claim of an entry.
fn next_of(method: Divisor, weights: &[u64], seats: &[u32], entry: usize) -> Ratio
    requires same_length { length seats.now ≡ length weights.now }
    requires weights { All (λ v. v ≤ MAX_WEIGHT) weights.now }
    requires seats { All (λ s. s ≤ MAX_SEATS) seats.now }
    requires within { entry < length weights.now }
    requires claims { IsNext method weights.now seats.now entry }
    ensures { result ≡ next_quotient method weights.now seats.now entry }
{
    method.ratio(weights[entry], seats[entry])
}

// The claim by which the first of these entries won the last seat.
fn last_claim(method: Divisor, weights: &[u64], seats: &[u32], last: &[usize]) -> Option<Ratio>
    requires same_length { length seats.now ≡ length weights.now }
    requires weights { All (λ v. v ≤ MAX_WEIGHT) weights.now }
    requires seats { All (λ s. s ≤ MAX_SEATS) seats.now }
    requires won { Lists (IsLast method weights.now seats.now) last.now }
    ensures { IsClaim (IsLast method weights.now seats.now) (last_quotient method weights.now seats.now) result }
{
    let entry = *last.first()?;
    Some(last_of(method, weights, seats, entry))
}

// The next claim of the first of these entries.
fn next_claim(method: Divisor, weights: &[u64], seats: &[u32], next: &[usize]) -> Option<Ratio>
    requires same_length { length seats.now ≡ length weights.now }
    requires weights { All (λ v. v ≤ MAX_WEIGHT) weights.now }
    requires seats { All (λ s. s ≤ MAX_SEATS) seats.now }
    requires claims { Lists (IsNext method weights.now seats.now) next.now }
    ensures { IsClaim (IsNext method weights.now seats.now) (next_quotient method weights.now seats.now) result }
{
    let entry = *next.first()?;
    Some(next_of(method, weights, seats, entry))
}

// The claim of the last seat, where the next one equals it.
fn common_claim(
    method: Divisor,
    weights: &[u64],
    seats: &[u32],
    last: &[usize],
    next: &[usize],
) -> Option<Ratio>
    requires same_length { length seats.now ≡ length weights.now }
    requires weights { All (λ v. v ≤ MAX_WEIGHT) weights.now }
    requires seats { All (λ s. s ≤ MAX_SEATS) seats.now }
    requires won { Lists (IsLast method weights.now seats.now) last.now }
    requires claims { Lists (IsNext method weights.now seats.now) next.now }
    ensures { MatchOption result (¬ IsDrawn method weights.now seats.now) (IsCommon method weights.now seats.now) }
{
    let last = last_claim(method, weights, seats, last)?;
    let next = next_claim(method, weights, seats, next)?;
    last.cmp(&next).is_eq().then_some(last)
}

// The claim that two entries have in common as a divisor, where it is one.
fn border_of(
    method: Divisor,
    weights: &[u64],
    seats: &[u32],
    common: &Option<Ratio>,
) -> Option<Ratio>
    requires { MatchOption common.now (¬ IsDrawn method weights.now seats.now) (IsCommon method weights.now seats.now) }
    ensures { IsBorder method weights.now seats.now result }
{
    let claim = (*common)?;
    match method {
        Divisor::Hill => None,
        _ if claim.is_infinite() => None,
        _ => Some(claim),
    }
}

// Whether a lot decided, where no seats were given as minima.
fn drawn_of(
    method: Divisor,
    weights: &[u64],
    seats: &[u32],
    given: bool,
    common: &Option<Ratio>,
) -> Option<bool>
    requires { MatchOption common.now (¬ IsDrawn method weights.now seats.now) (IsCommon method weights.now seats.now) }
    ensures { TellsLot given method weights.now seats.now result }
{
    if given { None } else { Some(common.is_some()) }
}

// Whether a number is among numbers in order.
fn is_among(numbers: &[usize], number: usize) -> bool
    requires { IsStrictlyIncreasing numbers.now }
    ensures { IsTrue result ↔ Contains numbers.now number }
{
    numbers.binary_search(&number).is_ok()
}

// What the lot did for an entry.
fn mark_of(drawn: bool, last: &[usize], next: &[usize], entry: usize) -> Option<bool>
    requires last { IsStrictlyIncreasing last.now }
    requires next { IsStrictlyIncreasing next.now }
    ensures { IsMark drawn last.now next.now entry result }
{
    if !drawn {
        return None;
    }
    if is_among(last, entry) {
        return Some(true);
    }
    if is_among(next, entry) {
        Some(false)
    } else {
        None
    }
}

// What the lot did for each of so many entries.
fn marks_of(
    alloc: Global,
    drawn: bool,
    last: &[usize],
    next: &[usize],
    count: usize,
) -> Result<Vec<Option<bool>>, NoMemory>
    requires last { IsStrictlyIncreasing last.now }
    requires next { IsStrictlyIncreasing next.now }
    ensures long { IfOk result (λ marks. length marks.items ≡ count) }
    ensures marked { IfOk result (λ marks. (k : ℕ) → k < count → IsMark drawn last.now next.now k (slice_index_or marks.items k None)) }
{
    let mut marks = Vec::new(alloc);
    for entry in 0..count {
        marks.push(mark_of(drawn, last, next, entry))?;
    }
    Ok(marks)
}

/// What is told of a lot by who won the last seat and who has the next claim. `given`: seats may have been given as minima.
pub(crate) fn lots_of(
    alloc: Global,
    method: Divisor,
    weights: &[u64],
    seats: &[u32],
    last: &[usize],
    next: &[usize],
    given: bool,
) -> Result<Lots, NoMemory>
    requires same_length { length seats.now ≡ length weights.now }
    requires weights { All (λ v. v ≤ MAX_WEIGHT) weights.now }
    requires seats { All (λ s. s ≤ MAX_SEATS) seats.now }
    requires won { Lists (IsLast method weights.now seats.now) last.now }
    requires claims { Lists (IsNext method weights.now seats.now) next.now }
    ensures { IfOk result (λ l. AreLots given method weights.now seats.now last.now next.now l.drawn l.border l.marks.items) }
{
    let common = common_claim(method, weights, seats, last, next);
    let drawn = drawn_of(method, weights, seats, given, &common);
    let marks = marks_of(alloc, drawn.unwrap_or(false), last, next, weights.len())?;
    Ok(Lots {
        drawn,
        border: border_of(method, weights, seats, &common),
        marks,
    })
}
