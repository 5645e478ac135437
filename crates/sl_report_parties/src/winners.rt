//! The winners of each list, of each party and of each Land, each in one pass.

ghost use Rattle.std.specs.Prelude.{◌≡◌, ◌<◌, ◌*◌, ◌++◌, ◌∷◌, [], ℕ, All, IfOk, IfSome, OnOk, count_by, filter, length, map, slice_index_or, if◌then◌else◌};
ghost use Rattle.std.specs.List.{enumerate_from};
ghost use Rattle.sl_law_meaning.specs.returns.Election.{IsWin, lands_of, parties_of};
ghost use Rattle.sl_law_meaning.specs.returns.Facts.{by_land, is_in, is_of, parties};
ghost use Rattle.sl_report_parties.specs.Cells.{is_won};
ghost use Rattle.sl_report_parties.specs.Sums.{is_alone_in};
ghost use Rattle.sl_report_parties.specs.inner.Winners.{AreOnLists, is_at, list_place};

use sl_base_quotients::NoMemory;
use sl_stages::{Returns, Win};
use std::alloc::Global;

/// The number of a winner, and the winner.
pub(crate) type Numbered = (usize, Win);

// Where the list of a winner stands among all pairs of Land and party, if the winner has a party.
fn list_place(returns: &Returns, win: Win) -> Option<usize>
    requires { IsWin (lands_of returns.now) (parties_of returns.now) win }
    ensures place { result ≡ list_place returns.now win }
    ensures within { IfSome result (λ place. place < lands_of returns.now * parties_of returns.now) }
{
    Some(win.land * returns.parties() + win.party?)
}

// So many empty lists.
fn no_winners(alloc: Global, count: usize) -> Result<Vec<Vec<Numbered>>, NoMemory>
    ensures long { IfOk result (λ all. length all.items ≡ count) }
    ensures empty { IfOk result (λ all. All (λ own. own.items ≡ []) all.items) }
{
    let mut all: Vec<Vec<Numbered>> = Vec::new(alloc);
    for _ in 0..count {
        all.push(Vec::new(alloc))?;
    }
    Ok(all)
}

// Adds a winner to those at a place, if there is one.
fn push_at(
    all: &mut Vec<Vec<Numbered>>,
    place: Option<usize>,
    winner: Numbered,
) -> Result<(), NoMemory>
    requires { IfSome place (λ n. n < length all.old.items) }
    ensures long { OnOk result (length all.new.items ≡ length all.old.items) }
    ensures pushed { OnOk result ((n : ℕ) → slice_index_or (map (λ own. own.items) all.new.items) n [] ≡ slice_index_or (map (λ own. own.items) all.old.items) n [] ++ (if is_at n place then winner ∷ [] else [])) }
{
    if let Some(place) = place {
        all[place].push(winner)?;
    }
    Ok(())
}

/// The winners of each list, at its place.
pub(crate) fn winners_of_lists(
    alloc: Global,
    returns: &Returns,
) -> Result<Vec<Vec<Numbered>>, NoMemory>
    ensures { IfOk result (λ all. AreOnLists returns.now (map (λ own. own.items) all.items)) }
{
    let mut all = no_winners(alloc, returns.lands() * returns.parties())?;
    for number in 0..returns.wins() {
        let win = returns.win(number);
        push_at(&mut all, list_place(returns, win), (number, win))?;
    }
    Ok(all)
}

/// The winners of a list, by those of each list.
pub(crate) fn winners_on<'a>(
    returns: &Returns,
    on_lists: &'a [Vec<Numbered>],
    land: usize,
    party: usize,
) -> &'a [Numbered]
    requires party { party < parties_of returns.now }
    requires on_lists { AreOnLists returns.now (map (λ own. own.items) on_lists.now) }
    ensures { result.now ≡ filter (λ x. is_won land party x.1) (enumerate_from 0 returns.now.wins) }
{
    let first = land.saturating_mul(returns.parties());
    match on_lists.get(first.saturating_add(party)) {
        Some(own) => own.as_slice(),
        None => &[],
    }
}

/// How many winners each party has.
pub(crate) fn winners_of_parties(alloc: Global, returns: &Returns) -> Result<Vec<u64>, NoMemory>
    ensures { IfOk result (λ winners. winners.items ≡ map (λ party. count_by (is_of party) returns.now.wins) (parties returns.now)) }
{
    let mut winners = vec![in alloc; 0u64; returns.parties()]?;
    for number in 0..returns.wins() {
        if let Some(party) = returns.win(number).party {
            winners[party] += 1;
        }
    }
    Ok(winners)
}

/// How many winners each Land has.
pub(crate) fn winners_of_lands(alloc: Global, returns: &Returns) -> Result<Vec<u64>, NoMemory>
    ensures { IfOk result (λ winners. winners.items ≡ by_land returns.now (λ land. count_by (is_in land) returns.now.wins)) }
{
    let mut winners = vec![in alloc; 0u64; returns.lands()]?;
    for number in 0..returns.wins() {
        winners[returns.win(number).land] += 1;
    }
    Ok(winners)
}

/// How many winners without a party each Land has.
pub(crate) fn independents_of_lands(alloc: Global, returns: &Returns) -> Result<Vec<u64>, NoMemory>
    ensures { IfOk result (λ winners. winners.items ≡ by_land returns.now (λ land. count_by (is_alone_in land) returns.now.wins)) }
{
    let mut winners = vec![in alloc; 0u64; returns.lands()]?;
    for number in 0..returns.wins() {
        let win = returns.win(number);
        if win.party.is_none() {
            winners[win.land] += 1;
        }
    }
    Ok(winners)
}
