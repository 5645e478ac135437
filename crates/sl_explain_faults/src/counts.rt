//! What the returns have in a scope.

ghost use Rattle.std.specs.Prelude.{◌≡◌, count_by, sum};
ghost use Rattle.sl_explain_faults.specs.Winners.{is_winner_in};
ghost use Rattle.sl_law_meaning.specs.returns.Facts.{is_of};

use sl_base_quotients::NoMemory;
use sl_stages::{Returns, Scope, Win};
use std::alloc::Global;

// Lists and votes.
#[derive(Clone, Copy)]
pub struct Sums {
    pub lists: u64,
    pub counted: u64,
}

// No lists, and so no votes.
const NO_LISTS: Sums = Sums {
    lists: 0,
    counted: 0,
};

// Whether a Land and a party belong to a scope.
fn is_in(scope: Scope, land: usize, party: usize) -> bool {
    match scope {
        Scope::All => true,
        Scope::Land(own) => own == land,
        Scope::Party(own) => own == party,
        Scope::List(own_land, own_party) => own_land == land && own_party == party,
    }
}

impl Sums {
    // Adds the list of a party in a Land, if there is one.
    fn add(&mut self, returns: &Returns, land: usize, party: usize) {
        if land < returns.lands() && party < returns.parties() && returns.is_list(land, party) {
            self.lists = self.lists.saturating_add(1);
            let counted = u64::from(returns.counted(land, party));
            self.counted = self.counted.saturating_add(counted);
        }
    }

    // Adds the lists of a party that belong to a scope.
    fn add_party(&mut self, returns: &Returns, scope: Scope, party: usize) {
        for land in 0..returns.lands() {
            if is_in(scope, land, party) {
                self.add(returns, land, party);
            }
        }
    }
}

// All lists of a scope.
pub fn sums_of(returns: &Returns, scope: Scope) -> Sums {
    let mut sums = NO_LISTS;
    for party in 0..returns.parties() {
        sums.add_party(returns, scope, party);
    }
    sums
}

// The party with more than half of the counted votes of a scope, if there is one.
pub fn majority_party(returns: &Returns, scope: Scope) -> Option<(usize, u64)> {
    let all = sums_of(returns, scope).counted;
    for party in 0..returns.parties() {
        let mut own = NO_LISTS;
        own.add_party(returns, scope, party);
        if own.counted > all.saturating_sub(own.counted) {
            return Some((party, own.counted));
        }
    }
    None
}

/// How many people live in the Länder.
pub fn population(returns: &Returns) -> u64
    ensures { result ≡ sum returns.now.populations }
{
    let mut people = 0u64;
    for land in 0..returns.lands() {
        people += u64::from(returns.population(land));
    }
    people
}

// Whether a winner is of a party.
fn is_of(winner: Win, party: usize) -> bool
    ensures { result ≡ is_of party winner }
{
    winner.party == Some(party)
}

// Whether a winner is of a scope.
fn is_winner_in(scope: Scope, winner: Win) -> bool
    ensures { result ≡ is_winner_in scope winner }
{
    match scope {
        Scope::All => true,
        Scope::Land(land) => winner.land == land,
        Scope::Party(party) => is_of(winner, party),
        Scope::List(land, party) => winner.land == land && is_of(winner, party),
    }
}

/// How many winners there are in a scope.
pub fn winners_in(returns: &Returns, scope: Scope) -> u64
    ensures { result ≡ count_by (is_winner_in scope) returns.now.wins }
{
    let mut winners = 0u64;
    for number in 0..returns.wins() {
        if is_winner_in(scope, returns.win(number)) {
            winners += 1;
        }
    }
    winners
}

// How many winners each party has in each Land: for each Land a row with a number for each party.
#[derive(Drop)]
struct Winners {
    rows: Vec<Vec<u64>>,
}

impl Winners {
    // Counts a winner.
    fn count(&mut self, winner: Win) {
        let (Some(row), Some(party)) = (self.rows.get_mut(winner.land), winner.party) else {
            return;
        };
        if let Some(number) = row.get_mut(party) {
            *number = number.saturating_add(1);
        }
    }

    // Those of a party in a Land.
    fn of(&self, land: usize, party: usize) -> u64 {
        let row = self.rows.get(land);
        row.and_then(|row| row.get(party)).copied().unwrap_or(0)
    }
}

// The winners of all lists, none counted.
fn no_winners(alloc: Global, returns: &Returns) -> Result<Winners, NoMemory> {
    let mut rows = Vec::new(alloc);
    for _ in 0..returns.lands() {
        let mut row = Vec::new(alloc);
        row.resize(returns.parties(), 0)?;
        rows.push(row)?;
    }
    Ok(Winners { rows })
}

// The winners of all lists.
fn winners_of_lists(alloc: Global, returns: &Returns) -> Result<Winners, NoMemory> {
    let mut winners = no_winners(alloc, returns)?;
    for win in 0..returns.wins() {
        winners.count(returns.win(win));
    }
    Ok(winners)
}

// A list with its winners and its counted votes.
#[derive(Clone, Copy)]
pub struct Burden {
    pub land: usize,
    pub party: usize,
    pub winners: u64,
    pub counted: u64,
}

impl Burden {
    // Whether it has more winners for its votes than another.
    fn is_heavier(&self, other: &Burden) -> bool {
        let own = self.winners.saturating_mul(other.counted.saturating_add(1));
        own > other.winners.saturating_mul(self.counted.saturating_add(1))
    }
}

// The list of a winner, with the winners of all lists.
fn burden_of(returns: &Returns, winners: &Winners, win: usize) -> Option<Burden> {
    if win >= returns.wins() {
        return None;
    }
    let winner = returns.win(win);
    let party = winner.party?;
    if winner.land >= returns.lands() || party >= returns.parties() {
        return None;
    }
    Some(Burden {
        land: winner.land,
        party,
        winners: winners.of(winner.land, party),
        counted: u64::from(returns.counted(winner.land, party)),
    })
}

// The list with the most winners for its counted votes, the first of equals, if there is a winner with a party.
pub fn heaviest(alloc: Global, returns: &Returns) -> Result<Option<Burden>, NoMemory> {
    let winners = winners_of_lists(alloc, returns)?;
    let mut found: Option<Burden> = None;
    for win in 0..returns.wins() {
        if let Some(burden) = burden_of(returns, &winners, win) {
            if found.is_none_or(|before: Burden| burden.is_heavier(&before)) {
                found = Some(burden);
            }
        }
    }
    Ok(found)
}
