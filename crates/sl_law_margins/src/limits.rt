//! What the margins ask of votes and seats, as a test.

ghost use Rattle.std.specs.Prelude.{◌≡◌, ◌<◌, ◌≤◌, ◌↔◌, IsTrue, All, length, sum};

use sl_base_quotients::{MAX_SEATS, MAX_WEIGHT};

fn are_weights(votes: &[u64]) -> bool
    ensures { IsTrue result ↔ All (λ v. v ≤ MAX_WEIGHT) votes.now }
{
    votes.iter().all(|votes| *votes <= MAX_WEIGHT)
}

fn are_seats(seats: &[u32]) -> bool
    ensures { IsTrue result ↔ All (λ s. s ≤ MAX_SEATS) seats.now }
{
    seats.iter().all(|seats| *seats <= MAX_SEATS)
}

fn has_votes(votes: &[u64]) -> bool
    ensures { IsTrue result → 0 < sum votes.now }
{
    for number in votes {
        if *number > 0 {
            return true;
        }
    }
    false
}

/// Whether the margins may be asked of these votes and seats: there are as many of the one as of the other, within their limits, and not all
/// votes are 0.
pub fn are_within(votes: &[u64], seats: &[u32]) -> bool
    ensures same_length { IsTrue result → length seats.now ≡ length votes.now }
    ensures weights { IsTrue result → All (λ v. v ≤ MAX_WEIGHT) votes.now }
    ensures seats { IsTrue result → All (λ s. s ≤ MAX_SEATS) seats.now }
    ensures field { IsTrue result → 0 < sum votes.now }
{
    votes.len() == seats.len() && are_weights(votes) && are_seats(seats) && has_votes(votes)
}
