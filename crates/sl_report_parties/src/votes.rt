//! Votes and winners, summed.

ghost use Rattle.std.specs.Prelude.{◌≡◌, ◌<◌, ◌^◌, count_by, if◌then◌else◌};
ghost use Rattle.sl_law_meaning.specs.returns.Election.{lands_of, parties_of};
ghost use Rattle.sl_law_meaning.specs.returns.Votes.{valid_in, counted_in};
ghost use Rattle.sl_law_meaning.specs.returns.Facts.{valid_votes, all_valid_votes, is_in};
ghost use Rattle.sl_report_parties.specs.Sums.{first_votes_in, party_sum, land_sum, sum_in_all, is_with, one_if};

use sl_stages::{Returns, Win};

/// The votes of some lists: the valid ones, and those of them that are counted.
#[derive(Clone, Copy)]
pub struct Votes {
    pub valid: u64,
    pub counted: u64,
}

/// 1 where it is so, and 0 elsewhere.
pub fn one_if(is: bool) -> u64
    ensures { result ≡ one_if is }
{
    if is { 1 } else { 0 }
}

/// The votes of a party's lists.
pub(crate) fn party_votes(returns: &Returns, party: usize) -> Votes
    requires { party < parties_of returns.now }
    ensures valid { result.valid ≡ valid_votes returns.now party }
    ensures counted { result.counted ≡ party_sum counted_in returns.now party }
    ensures valid_fits { result.valid < 2 ^ 40 }
    ensures counted_fits { result.counted < 2 ^ 40 }
{
    let mut valid = 0u64;
    let mut counted = 0u64;
    for land in 0..returns.lands() {
        valid += u64::from(returns.valid(land, party));
        counted += u64::from(returns.counted(land, party));
    }
    Votes { valid, counted }
}

/// The votes of the lists in a Land.
pub fn land_votes(returns: &Returns, land: usize) -> Votes
    requires { land < lands_of returns.now }
    ensures valid { result.valid ≡ land_sum valid_in returns.now land }
    ensures counted { result.counted ≡ land_sum counted_in returns.now land }
{
    let mut valid = 0u64;
    let mut counted = 0u64;
    for party in 0..returns.parties() {
        valid += u64::from(returns.valid(land, party));
        counted += u64::from(returns.counted(land, party));
    }
    Votes { valid, counted }
}

/// The votes of all lists.
pub fn all_votes(returns: &Returns) -> Votes
    ensures valid { result.valid ≡ all_valid_votes returns.now }
    ensures counted { result.counted ≡ sum_in_all counted_in returns.now }
{
    let mut valid = 0u64;
    let mut counted = 0u64;
    for party in 0..returns.parties() {
        let votes = party_votes(returns, party);
        valid += votes.valid;
        counted += votes.counted;
    }
    Votes { valid, counted }
}

// Whether a winner is of that party, or is without one.
fn is_of(win: Win, party: Option<usize>) -> bool
    ensures { result ≡ is_with party win }
{
    match (win.party, party) {
        (Some(of), Some(party)) => of == party,
        (None, None) => true,
        _ => false,
    }
}

/// How many winners are of that party, or are without one.
pub fn winners_of(returns: &Returns, party: Option<usize>) -> u64
    ensures { result ≡ count_by (is_with party) returns.now.wins }
{
    let mut winners = 0u64;
    for number in 0..returns.wins() {
        winners += one_if(is_of(returns.win(number), party));
    }
    winners
}

// The valid first votes of a winner's constituency, if it is of that Land.
fn first_votes(win: Win, land: usize) -> u64
    ensures { result ≡ if is_in land win then win.valid else 0 }
{
    if win.land == land {
        u64::from(win.valid)
    } else {
        0
    }
}

/// The valid first votes of the constituencies of a Land that have a winner.
pub fn first_votes_in(returns: &Returns, land: usize) -> u64
    ensures { result ≡ first_votes_in returns.now land }
{
    let mut votes = 0u64;
    for number in 0..returns.wins() {
        votes += first_votes(returns.win(number), land);
    }
    votes
}
