//! Sums of returns and of a table: lists, people, and winners who are not seated.

ghost use Rattle.std.specs.Prelude.{◌≡◌, ◌<◌, count_by, slice_index, sum_by};
ghost use Rattle.sl_report_parties.specs.Seats.{is_open};
ghost use Rattle.sl_report_parties.specs.Sums.{capped, lists_of};
ghost use Rattle.sl_law_meaning.specs.returns.Election.{parties_of};
ghost use Rattle.sl_law_meaning.specs.returns.Facts.{lands, parties};

use crate::votes::one_if;
use sl_stages::{Placed, Returns, Table};

// How many lists a party has.
fn lists_with(returns: &Returns, party: usize) -> u64
    requires { party < parties_of returns.now }
    ensures { result ≡ lists_of returns.now party }
{
    let mut lists = 0u64;
    for land in 0..returns.lands() {
        lists += one_if(returns.is_list(land, party));
    }
    lists
}

/// How many lists a party has.
pub fn lists_of(returns: &Returns, party: usize) -> u64
    ensures { party < parties_of returns.now → result ≡ lists_of returns.now party }
{
    if party < returns.parties() {
        lists_with(returns, party)
    } else {
        0
    }
}

/// How many lists there are.
pub fn all_lists(returns: &Returns) -> u64
    ensures { result ≡ capped (sum_by (lists_of returns.now) (parties returns.now)) }
{
    let mut lists = 0u64;
    for party in 0..returns.parties() {
        lists = lists.saturating_add(lists_with(returns, party));
    }
    lists
}

/// The people of all Länder.
pub fn all_people(returns: &Returns) -> u64
    ensures { result ≡ capped (sum_by (slice_index returns.now.populations) (lands returns.now)) }
{
    let mut people = 0u64;
    for land in 0..returns.lands() {
        people = people.saturating_add(u64::from(returns.population(land)));
    }
    people
}

// Whether a place is none.
fn is_open(place: Placed) -> bool
    ensures { result ≡ is_open place }
{
    match place {
        Placed::Unseated => true,
        Placed::OnList => false,
        Placed::Single => false,
    }
}

/// How many winners are not seated.
pub fn open_winners(table: &Table) -> u64
    ensures { result ≡ count_by is_open table.now.placed }
{
    let mut winners = 0u64;
    for place in table.placed() {
        winners += one_if(is_open(*place));
    }
    winners
}
