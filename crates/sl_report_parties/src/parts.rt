//! Who takes part, and by which condition of a book.

ghost use Rattle.std.specs.Prelude.{◌≡◌, ◌<◌, ◌^◌, ℕ, IfOk, MatchOption, count_by};
ghost use Rattle.std.specs.List.{position};
ghost use Rattle.sl_law_meaning.specs.returns.Election.{parties_of};
ghost use Rattle.sl_law_meaning.specs.returns.Facts.{is_of, valid_votes, all_valid_votes, meets};
ghost use Rattle.sl_report_parties.specs.Parts.{part_of, parts_of, IsEnough, IsLeast};

use crate::votes::{Votes, all_votes, party_votes};
use crate::winners::winners_of_parties;
use sl_base_quotients::NoMemory;
use sl_stages::{Cond, Returns};
use std::alloc::Global;

/// What a party has, and the number of the first condition that it meets, from 0, if it meets one.
#[derive(Clone, Copy)]
pub struct PartyPart {
    pub votes: Votes,
    pub winners: u64,
    pub met: Option<usize>,
}

// Whether a party meets a condition, by what it has and by the valid votes in all.
fn meets(cond: Cond, has: PartyPart, valid: u64, returns: &Returns, party: usize) -> bool
    requires party { party < parties_of returns.now }
    requires valid { valid ≡ all_valid_votes returns.now }
    requires votes { has.votes.valid ≡ valid_votes returns.now party }
    requires winners { has.winners ≡ count_by (is_of party) returns.now.wins }
    ensures { result ≡ meets returns.now party cond }
{
    match cond {
        Cond::Valid { share, per } => {
            let wanted = u128::from(share.value) * u128::from(valid);
            wanted <= u128::from(per) * u128::from(has.votes.valid)
        }
        Cond::Winners { least } => u64::from(least) <= has.winners,
        Cond::Minority => returns.minority(party),
        Cond::All => true,
    }
}

// The number of the first condition that a party meets.
fn first_met(
    conditions: &[Cond],
    has: PartyPart,
    valid: u64,
    returns: &Returns,
    party: usize,
) -> Option<usize>
    requires party { party < parties_of returns.now }
    requires valid { valid ≡ all_valid_votes returns.now }
    requires votes { has.votes.valid ≡ valid_votes returns.now party }
    requires winners { has.winners ≡ count_by (is_of party) returns.now.wins }
    ensures { result ≡ position (meets returns.now party) conditions.now }
{
    for number in 0..conditions.len() {
        if meets(conditions[number], has, valid, returns, party) {
            return Some(number);
        }
    }
    None
}

// What a party has, and which of these conditions it meets, with so many winners.
fn part_with(
    conditions: &[Cond],
    returns: &Returns,
    valid: u64,
    party: usize,
    winners: u64,
) -> PartyPart
    requires party { party < parties_of returns.now }
    requires valid { valid ≡ all_valid_votes returns.now }
    requires winners { winners ≡ count_by (is_of party) returns.now.wins }
    ensures { result ≡ part_of conditions.now returns.now party }
{
    let has = PartyPart {
        votes: party_votes(returns, party),
        winners,
        met: None,
    };
    let met = first_met(conditions, has, valid, returns, party);
    PartyPart { met, ..has }
}

/// What each party has, and which of these conditions it meets, by party.
pub fn parts_of(
    alloc: Global,
    conditions: &[Cond],
    returns: &Returns,
) -> Result<Vec<PartyPart>, NoMemory>
    ensures { IfOk result (λ parts. parts.items ≡ parts_of conditions.now returns.now) }
{
    let valid = all_votes(returns).valid;
    let of_parties = winners_of_parties(alloc, returns)?;
    let mut parts = Vec::new(alloc);
    for party in 0..returns.parties() {
        let winners = of_parties[party];
        parts.push(part_with(conditions, returns, valid, party, winners))?;
    }
    Ok(parts)
}

/// The least number of further valid votes for a party, all else equal, with which it has `share` in each `per` of all valid votes; `None` where
/// no number is enough.
pub(crate) fn votes_short(share: u32, per: u32, has: u64, all: u64) -> Option<u64>
    ensures { MatchOption result ((more : ℕ) → more < 2 ^ 64 → ¬ (IsEnough share per has all more)) (λ more. IsLeast share per has all more) }
{
    let wanted = u128::from(share) * u128::from(all);
    let held = u128::from(per) * u128::from(has);
    if wanted <= held {
        return Some(0);
    }
    if per <= share {
        return None;
    }
    let more = (wanted - held).div_ceil(u128::from(per - share));
    if more <= u128::from(u64::MAX) {
        Some(more as u64)
    } else {
        None
    }
}
