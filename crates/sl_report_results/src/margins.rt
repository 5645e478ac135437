//! The margins of an allocation, all at once.

ghost use Rattle.std.specs.Prelude.{◌≡◌, ℕ, ◌<◌, ◌≤◌, ◌↔◌, None, All, IfOk, IsTrue, MatchOption, length, sum, sum_by, slice_index_or};
ghost use Rattle.sl_report_parties.specs.Sums.{capped};
ghost use Rattle.sl_base_quotients.specs.Bounds.{IsLast};
ghost use Rattle.sl_law_margins.specs.MissingVotes.{AreMissing, IsAllocation};
ghost use Rattle.sl_law_meaning.specs.methods.Ties.{Lists};
ghost use Rattle.sl_report_results.specs.Lots.{AreLots};
ghost use Rattle.sl_report_results.specs.Scopes.{AreLacking, AreMargins, IsAllocated, IsFew, held_of, weights_of};

use crate::lots::lots_of;
use crate::scopes::Entry;
use sl_base_quotients::{Divisor, MAX_SEATS, MAX_WEIGHT, NoMemory, Ratio};
use sl_law_margins::{Decimal, divisor, is_allocation, last_seats, next_claims, votes_missing_by};
use std::alloc::Global;

/// The margins of an allocation by a divisor method without minima: a divisor, if a decimal number lies between the claims; the entries that won
/// the last seat, and those that have the next claim; the votes that each entry lacks for one more seat, where a number is enough; and whether a
/// lot decided, the divisor on the border of equal claims, and what the lot did for each entry.
#[derive(Drop)]
pub(crate) struct Margins {
    pub divisor: Option<Decimal>,
    pub last: Vec<usize>,
    pub next: Vec<usize>,
    pub missing: Vec<Option<u64>>,
    pub drawn: Option<bool>,
    pub border: Option<Ratio>,
    pub marks: Vec<Option<bool>>,
}

// Whether the weights and the seats of entries are within the limits.
fn are_few(entries: &[Entry]) -> bool
    ensures { IsTrue result ↔ All IsFew entries.now }
{
    entries.iter().all(|entry| entry.weight <= MAX_WEIGHT && entry.seats <= u64::from(MAX_SEATS))
}

fn weights_of(alloc: Global, entries: &[Entry]) -> Result<Vec<u64>, NoMemory>
    ensures { IfOk result (λ weights. weights.items ≡ weights_of entries.now) }
{
    let mut weights = Vec::new(alloc);
    for entry in entries {
        weights.push(entry.weight)?;
    }
    Ok(weights)
}

// The seats of entries.
fn held_of(alloc: Global, entries: &[Entry]) -> Result<Vec<u32>, NoMemory>
    requires { All IsFew entries.now }
    ensures { IfOk result (λ held. held.items ≡ held_of entries.now) }
{
    let mut held = Vec::new(alloc);
    for entry in entries {
        held.push(entry.seats as u32)?;
    }
    Ok(held)
}

// The votes that each entry lacks, by the entries that won the last seat.
fn all_missing(
    alloc: Global,
    method: Divisor,
    weights: &[u64],
    seats: &[u32],
    last: &[usize],
) -> Result<Vec<Option<u64>>, NoMemory>
    requires weights { All (λ v. v ≤ MAX_WEIGHT) weights.now }
    requires seats { All (λ s. s ≤ MAX_SEATS) seats.now }
    requires allocation { IsAllocation method weights.now seats.now }
    requires won { Lists (IsLast method weights.now seats.now) last.now }
    ensures long { IfOk result (λ missing. length missing.items ≡ length weights.now) }
    ensures missing { IfOk result (λ missing. (k : ℕ) → k < length weights.now → AreMissing method weights.now seats.now k (slice_index_or missing.items k None)) }
{
    let mut missing = Vec::new(alloc);
    for entry in 0..weights.len() {
        missing.push(votes_missing_by(method, weights, seats, last, entry))?;
    }
    Ok(missing)
}

// Nothing for each of so many entries.
fn none_missing(alloc: Global, count: usize) -> Result<Vec<Option<u64>>, NoMemory>
    ensures long { IfOk result (λ missing. length missing.items ≡ count) }
    ensures none { IfOk result (λ missing. (k : ℕ) → slice_index_or missing.items k None ≡ None) }
{
    let nothing: Option<u64> = None;
    Ok(vec![in alloc; nothing; count]?)
}

// The votes that each entry lacks where there are no minima, and nothing where there are.
fn lacking(
    alloc: Global,
    method: Divisor,
    weights: &[u64],
    seats: &[u32],
    last: &[usize],
    has_minima: bool,
) -> Result<Vec<Option<u64>>, NoMemory>
    requires weights { All (λ v. v ≤ MAX_WEIGHT) weights.now }
    requires seats { All (λ s. s ≤ MAX_SEATS) seats.now }
    requires allocation { IsAllocation method weights.now seats.now }
    requires won { Lists (IsLast method weights.now seats.now) last.now }
    ensures long { IfOk result (λ missing. length missing.items ≡ length weights.now) }
    ensures missing { IfOk result (λ missing. AreLacking has_minima method weights.now seats.now missing.items) }
{
    if has_minima {
        none_missing(alloc, weights.len())
    } else {
        all_missing(alloc, method, weights, seats, last)
    }
}

// The margins of an allocation.
fn found(
    alloc: Global,
    method: Divisor,
    weights: &[u64],
    seats: &[u32],
    has_minima: bool,
    given: bool,
) -> Result<Margins, NoMemory>
    requires same_length { length seats.now ≡ length weights.now }
    requires weights { All (λ v. v ≤ MAX_WEIGHT) weights.now }
    requires seats { All (λ s. s ≤ MAX_SEATS) seats.now }
    requires field { 0 < sum weights.now }
    requires allocation { IsAllocation method weights.now seats.now }
    ensures margins { IfOk result (λ m. AreMargins method has_minima weights.now seats.now m.divisor m.last.items m.next.items m.missing.items) }
    ensures lots { IfOk result (λ m. AreLots given method weights.now seats.now m.last.items m.next.items m.drawn m.border m.marks.items) }
{
    let divisor = divisor(method, weights, seats);
    let last = last_seats(alloc, method, weights, seats)?;
    let next = next_claims(alloc, method, weights, seats)?;
    let missing = lacking(alloc, method, weights, seats, last.as_slice(), has_minima)?;
    let lots = lots_of(
        alloc,
        method,
        weights,
        seats,
        last.as_slice(),
        next.as_slice(),
        given,
    )?;
    Ok(Margins {
        divisor,
        last,
        next,
        missing,
        drawn: lots.drawn,
        border: lots.border,
        marks: lots.marks,
    })
}

/// The margins of the seats of entries with that weight in all; `None` where they are no allocation by the method without minima, where nobody has
/// votes, or past the limits. `given`: seats may have been given as minima.
pub(crate) fn margins_of(
    alloc: Global,
    method: Divisor,
    entries: &[Entry],
    weight: u64,
    has_minima: bool,
    given: bool,
) -> Result<Option<Margins>, NoMemory>
    requires { weight ≡ capped (sum_by (λ x. x.weight) entries.now) }
    ensures { IfOk result (λ o. MatchOption o (¬ IsAllocated method entries.now) (λ m. IsAllocated method entries.now
        × AreMargins method has_minima (weights_of entries.now) (held_of entries.now) m.divisor m.last.items m.next.items m.missing.items
        × AreLots given method (weights_of entries.now) (held_of entries.now) m.last.items m.next.items m.drawn m.border m.marks.items)) }
{
    if weight == 0 || !are_few(entries) {
        return Ok(None);
    }
    let weights = weights_of(alloc, entries)?;
    let held = held_of(alloc, entries)?;
    if !is_allocation(method, weights.as_slice(), held.as_slice()) {
        return Ok(None);
    }
    let found = found(
        alloc,
        method,
        weights.as_slice(),
        held.as_slice(),
        has_minima,
        given,
    )?;
    Ok(Some(found))
}
