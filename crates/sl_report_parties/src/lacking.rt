//! What a party that meets no condition lacks for one of them: votes or winners.

ghost use Rattle.std.specs.Prelude.{◌≡◌, ◌<◌, ◌^◌, IfSome};
ghost use Rattle.sl_report_parties.specs.Lacking.{AreVotesFor, AreWinnersFor, ForOne, IsLeastIfAny, Lacks, lesser_of};

use crate::parts::{PartyPart, votes_short};
use sl_stages::Cond;

// The lesser of two numbers, where there are two.
fn lesser(first: Option<u64>, second: Option<u64>) -> Option<u64>
    ensures { result ≡ lesser_of first second }
{
    match first {
        None => second,
        Some(one) => match second {
            None => Some(one),
            Some(other) => Some(one.min(other)),
        },
    }
}

// The votes that a party with so many valid ones lacks for a condition on votes.
fn votes_for(cond: Cond, has: u64, all: u64) -> Option<u64>
    ensures fits { IfSome result (λ n. n < 2 ^ 64) }
    ensures least { IsLeastIfAny (AreVotesFor has all cond) result }
{
    match cond {
        Cond::Valid { share, per } => votes_short(share.value, per, has, all),
        Cond::Winners { .. } => None,
        Cond::Minority => None,
        Cond::All => None,
    }
}

// The winners that a party with so many lacks for a condition on winners.
fn winners_for(cond: Cond, has: u64) -> Option<u64>
    ensures fits { IfSome result (λ n. n < 2 ^ 64) }
    ensures least { IsLeastIfAny (AreWinnersFor has cond) result }
{
    match cond {
        Cond::Valid { .. } => None,
        Cond::Winners { least } => Some(u64::from(least).saturating_sub(has)),
        Cond::Minority => None,
        Cond::All => None,
    }
}

// The least number of votes that a party with so many valid ones lacks for a condition.
fn votes_for_one(conditions: &[Cond], has: u64, all: u64) -> Option<u64>
    ensures { IsLeastIfAny (ForOne (AreVotesFor has all) conditions.now) result }
{
    let mut lacking = None;
    for number in 0..conditions.len() {
        lacking = lesser(lacking, votes_for(conditions[number], has, all));
    }
    lacking
}

// The least number of winners that a party with so many lacks for a condition.
fn winners_for_one(conditions: &[Cond], has: u64) -> Option<u64>
    ensures { IsLeastIfAny (ForOne (AreWinnersFor has) conditions.now) result }
{
    let mut lacking = None;
    for number in 0..conditions.len() {
        lacking = lesser(lacking, winners_for(conditions[number], has));
    }
    lacking
}

/// The least number of further votes with which a party that meets no condition meets one on votes, all else equal.
pub fn lacking_votes(conditions: &[Cond], part: PartyPart, all: u64) -> Option<u64>
    ensures { Lacks (AreVotesFor part.votes.valid all) conditions.now part.met result }
{
    match part.met {
        Some(_) => None,
        None => votes_for_one(conditions, part.votes.valid, all),
    }
}

/// The least number of further winners with which a party that meets no condition meets one on winners.
pub fn lacking_winners(conditions: &[Cond], part: PartyPart) -> Option<u64>
    ensures { Lacks (AreWinnersFor part.winners) conditions.now part.met result }
{
    match part.met {
        Some(_) => None,
        None => winners_for_one(conditions, part.winners),
    }
}
