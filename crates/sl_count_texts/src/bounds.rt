//! The bounds of a table's scopes, by the weights and the seats of their entries.

ghost use Rattle.std.specs.Prelude.{◌≡◌, ◌+◌, ◌^◌, ◌<◌, ◌≤◌, All, IfOk, OnOk, MatchBool, MatchOption, map, option_map, sum, count_by, nat_lt};
ghost use Rattle.sl_count_texts.specs.Bounds.{is_one_scope, groups, is_of_entry, IsBoundsWeight, IsToldPair, IsBoundsOf, AreBoundsOf, is_lot};
ghost use Rattle.sl_count_texts.specs.inner.Counts.{count_of, CountsOne, counted_seats, IsWithin, HasMore};

use crate::orders::{entry_key, weights_in_order};
use sl_base_quotients::{Divisor, MAX_SEATS, MAX_WEIGHT, NoMemory, Ratio};
use sl_ratio::bounds;
use sl_stages::{Scope, SeatStep, Table, Weight};
use std::alloc::Global;
use std::collections::HashMap;

/// The bounds of a scope: the least quotient that won a seat, and the greatest that won none.
#[derive(Clone, Copy)]
pub struct ScopeBounds {
    pub stage: usize,
    pub scope: Scope,
    pub last: Ratio,
    pub next: Ratio,
}

impl ScopeBounds {
    /// Whether a lot decided between them: they are equal.
    pub fn is_lot(self) -> bool
        ensures { result ≡ is_lot self }
    {
        self.last.cmp(&self.next).is_eq()
    }
}

// How many seats each entry has in each scope, by the key of the stage, the scope and the entry.
type SeatCounts = HashMap<[u64; 7], u64>;

/// The bounds of a table's scopes, by stages and scopes, of each scope for which they are told (docs/output.md, section 1).
pub fn bounds_in_order(alloc: Global, table: &Table) -> Result<Vec<ScopeBounds>, NoMemory>
    ensures { IfOk result (λ found. AreBoundsOf table.now found.items) }
{
    let weights = weights_in_order(alloc, table)?;
    let scopes = scopes_of(alloc, &weights)?;
    let counts = count_seats(alloc, table.steps())?;
    let mut found = Vec::new(alloc);
    for scope in &scopes {
        add_bounds(alloc, &mut found, *scope, &counts)?;
    }
    Ok(found)
}

// ---- the weights and the seats of a scope

fn is_one_scope(first: &Weight, second: &Weight) -> bool
    ensures { result ≡ is_one_scope first.now second.now }
{
    first.stage == second.stage && first.scope == second.scope
}

// The weights of each scope, of weights in order.
fn scopes_of<'a>(
    alloc: Global,
    weights: &'a [&'a Weight],
) -> Result<Vec<&'a [&'a Weight]>, NoMemory>
    ensures { IfOk result (λ scopes. map (λ s. map (λ w. w.now) s.now) scopes.items ≡ groups is_one_scope (map (λ w. w.now) weights.now)) }
{
    let scopes = weights
        .chunk_by(
            |first, second|
                ensures { result ≡ is_one_scope first.now.now second.now.now }
            { is_one_scope(first, second) },
        )
        .collect(alloc)?;
    Ok(scopes)
}

// Counts a key once more.
fn count_one(counts: &mut SeatCounts, key: [u64; 7]) -> Result<(), NoMemory>
    requires { count_of counts.old key + 1 < 2 ^ 64 }
    ensures { OnOk result (CountsOne counts.old counts.new key) }
{
    *counts.entry(key)?.or_insert(0) += 1;
    Ok(())
}

// Counts the seat steps of each stage, scope and entry.
fn count_seats(alloc: Global, steps: &[SeatStep]) -> Result<SeatCounts, NoMemory>
    ensures { IfOk result (λ counts. (w : Weight) → counted_seats counts w ≡ count_by (is_of_entry w) steps.now) }
{
    let mut counts = HashMap::new(alloc);
    for step in steps {
        let key = entry_key(step.stage, step.scope, step.entry);
        count_one(&mut counts, key)?;
    }
    Ok(counts)
}

// The seats of a weight's entry, unless they are past the limit.
fn entry_seats(weight: &Weight, counts: &SeatCounts) -> Option<u32>
    ensures { MatchOption result (MAX_SEATS < counted_seats counts.now weight.now) (λ seats. (seats ≡ counted_seats counts.now weight.now) × (seats ≤ MAX_SEATS)) }
{
    let key = entry_key(weight.stage, weight.scope, weight.entry);
    let seats = counts.get(&key).copied().unwrap_or(0);
    if seats <= u64::from(MAX_SEATS) {
        Some(seats as u32)
    } else {
        None
    }
}

// The seats of the entries, unless those of one are past the limit.
fn seats_within(
    alloc: Global,
    scope: &[&Weight],
    counts: &SeatCounts,
) -> Result<Option<Vec<u32>>, NoMemory>
    ensures { IfOk result (λ seats. IsWithin (λ s. s ≤ MAX_SEATS) (map (λ w. counted_seats counts.now w.now) scope.now) (option_map (λ s. s.items) seats)) }
{
    let mut seats = Vec::new(alloc);
    for weight in scope {
        let Some(held) = entry_seats(*weight, counts) else {
            return Ok(None);
        };
        seats.push(held)?;
    }
    Ok(Some(seats))
}

// Whether bounds are given for a weight by a method.
fn is_bounds_weight(method: Divisor, weight: &Weight) -> bool
    ensures { MatchBool result (IsBoundsWeight method weight.now) (¬ IsBoundsWeight method weight.now) }
{
    weight.divisor == method && 1 <= weight.weight && weight.weight <= MAX_WEIGHT
}

// Whether bounds are given for weights by a method.
fn are_bounds_weights(method: Divisor, scope: &[&Weight]) -> bool
    ensures { MatchBool result (All (IsBoundsWeight method) (map (λ w. w.now) scope.now)) (¬ All (IsBoundsWeight method) (map (λ w. w.now) scope.now)) }
{
    scope.iter().all(
        |weight|
            ensures { MatchBool result (IsBoundsWeight method weight.now.now) (¬ IsBoundsWeight method weight.now.now) }
        { is_bounds_weight(method, weight) },
    )
}

// The weights of a scope, as numbers.
fn weights_of(alloc: Global, scope: &[&Weight]) -> Result<Vec<u64>, NoMemory>
    ensures { IfOk result (λ weights. weights.items ≡ map (λ w. w.weight) (map (λ w. w.now) scope.now)) }
{
    let weights = scope
        .iter()
        .map(
            |weight|
                ensures { result ≡ weight.now.now.weight }
            { weight.weight },
        )
        .collect(alloc)?;
    Ok(weights)
}

// Whether a seat is among these seats of entries.
fn is_awarded(seats: &[u32]) -> bool
    ensures { MatchBool result (0 < sum seats.now) (sum seats.now ≡ 0) }
{
    seats.iter().any(
        |held|
            ensures { result ≡ nat_lt 0 held.now }
        { *held > 0 },
    )
}

// The pair of bounds that is told of a scope, by a method.
fn told_pair(
    alloc: Global,
    method: Divisor,
    scope: &[&Weight],
    counts: &SeatCounts,
) -> Result<Option<(Ratio, Ratio)>, NoMemory>
    ensures { IfOk result (IsToldPair method (map (λ w. w.now) scope.now) (map (λ w. counted_seats counts.now w.now) scope.now)) }
{
    if !method.is_rounding() || !are_bounds_weights(method, scope) {
        return Ok(None);
    }
    let Some(seats) = seats_within(alloc, scope, counts)? else {
        return Ok(None);
    };
    if !is_awarded(&seats) {
        return Ok(None);
    }
    let weights = weights_of(alloc, scope)?;
    Ok(bounds(method, &weights, &seats))
}

// Adds the bounds of a scope, if they are told.
fn add_bounds(
    alloc: Global,
    found: &mut Vec<ScopeBounds>,
    scope: &[&Weight],
    counts: &SeatCounts,
) -> Result<(), NoMemory>
    ensures { OnOk result (HasMore found.old.items (IsBoundsOf (counted_seats counts.now) (map (λ w. w.now) scope.now)) found.new.items) }
{
    let Some(first) = scope.first() else {
        return Ok(());
    };
    let Some(pair) = told_pair(alloc, first.divisor, scope, counts)? else {
        return Ok(());
    };
    let (last, next) = pair;
    found.push(ScopeBounds {
        stage: first.stage,
        scope: first.scope,
        last,
        next,
    })?;
    Ok(())
}
