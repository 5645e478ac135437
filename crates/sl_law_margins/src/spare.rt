//! The votes that an entry can spare.

ghost use Rattle.std.specs.Prelude.{◌≡◌, ◌<◌, ◌≤◌, All, length, sum, slice_index};
ghost use Rattle.sl_law_meaning.specs.methods.Allocations.{IsDivisorAllocation};
ghost use Rattle.sl_law_margins.specs.VotesToSpare.{AreToSpare};
ghost use Rattle.sl_law_margins.specs.inner.Kept.{IsKept};

use crate::votes::weight_above;
use sl_base_quotients::{Divisor, MAX_SEATS, MAX_WEIGHT};

// The least weight by which the entry's last quotient is above the next one of every other entry with votes, or `None` where one of these is
// infinite.
fn weight_kept(method: Divisor, weights: &[u64], seats: &[u32], entry: usize) -> Option<u64>
    requires same_length { length seats.now ≡ length weights.now }
    requires weights { All (λ v. v ≤ MAX_WEIGHT) weights.now }
    requires seats { All (λ s. s ≤ MAX_SEATS) seats.now }
    requires entry { entry < length weights.now }
    requires seated { 0 < slice_index seats.now entry }
    ensures { IsKept method weights.now seats.now entry (length weights.now) result }
{
    let mut kept = 1;
    for (rival, weight) in weights.iter().enumerate() {
        if rival != entry && *weight > 0 {
            let above = weight_above(method, seats[entry] - 1, *weight, seats[rival])?;
            kept = kept.max(above);
        }
    }
    Some(kept)
}

/// The votes that an entry can spare: the greatest number by which its votes may be fewer, all else equal, so that with so many fewer, and with
/// any smaller number, every allocation of the same number of seats, with the same minima, gives it no fewer than it has; with more it may lose
/// one. `None` where a lot may take the seat by the votes that it has. Its last vote is never spared.
///
/// Without minima the list of minima is empty.
pub fn votes_to_spare(
    method: Divisor,
    weights: &[u64],
    minima: &[u32],
    seats: &[u32],
    entry: usize,
) -> Option<u64>
    requires weights { All (λ v. v ≤ MAX_WEIGHT) weights.now }
    requires seats { All (λ s. s ≤ MAX_SEATS) seats.now }
    requires allocation { IsDivisorAllocation method weights.now minima.now (sum seats.now) seats.now }
    requires entry { entry < length weights.now }
    requires beyond { slice_index minima.now entry < slice_index seats.now entry }
    ensures { AreToSpare method weights.now minima.now seats.now entry result }
{
    let kept = weight_kept(method, weights, seats, entry)?;
    weights[entry].checked_sub(kept)
}
