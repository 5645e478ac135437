//! Records that are added to returns: where memory is refused the returns are as before.

ghost use Rattle.std.specs.Prelude.{◌≡◌, ◌≤◌, ◌<◌, None, Some, false, IfOk, length};
ghost use Rattle.sl_base_quotients.specs.Names.{name_fault};
ghost use Rattle.sl_law_meaning.specs.returns.Election.{no_election, lands_of, parties_of, wins_of, with_land, with_party, with_win};

use crate::marks::{begin, end};
use sl_base_quotients::NoMemory;
use sl_stages::{MAX_LANDS, MAX_LOTS, MAX_PARTIES, MAX_VOTES, MAX_WINS, Returns};
use std::alloc::Global;

// How many there are of each kind of record.
fn numbers(returns: &Returns) -> (usize, usize, usize, usize)
    ensures lands { result.0 ≡ lands_of returns.now }
    ensures parties { result.1 ≡ parties_of returns.now }
    ensures wins { result.2 ≡ wins_of returns.now }
    ensures lots { result.3 ≡ length returns.now.lots }
{
    (
        returns.lands(),
        returns.parties(),
        returns.wins(),
        returns.lots().len(),
    )
}

// Adds a Land, which is as if it had not been tried where memory is refused. If it is not, the answer is out of memory.
fn add_land(
    alloc: Global,
    returns: &mut Returns,
    name: &[u8],
    population: u32,
) -> Result<(), NoMemory>
    requires name { name_fault (record { limit = MAX_LANDS; names = returns.old.land_names }) name.now ≡ None }
    requires population { population ≤ MAX_VOTES }
    ensures { IfOk result (λ _. returns.new ≡ with_land returns.old name.now population) }
{
    let before = numbers(returns);
    begin(alloc);
    let first = returns.add_land(name, population);
    end(alloc);
    if first.is_ok() || numbers(returns) != before || returns.find_land(name).is_some() {
        return first;
    }
    returns.add_land(name, population)
}

// The same with a party.
fn add_party(alloc: Global, returns: &mut Returns, name: &[u8]) -> Result<(), NoMemory>
    requires name { name_fault (record { limit = MAX_PARTIES; names = returns.old.party_names }) name.now ≡ None }
    ensures { IfOk result (λ _. returns.new ≡ with_party returns.old name.now false) }
{
    let before = numbers(returns);
    begin(alloc);
    let first = returns.add_party(name, false);
    end(alloc);
    if first.is_ok() || numbers(returns) != before || returns.find_party(name).is_some() {
        return first;
    }
    returns.add_party(name, false)
}

// Adds a winner of the first party in the first Land, in the same way.
fn add_win(
    alloc: Global,
    returns: &mut Returns,
    name: &[u8],
    votes: (u32, u32),
) -> Result<(), NoMemory>
    requires land { 0 < lands_of returns.old }
    requires party { 0 < parties_of returns.old }
    requires name { name_fault (record { limit = MAX_WINS; names = returns.old.win_names }) name.now ≡ None }
    requires least { 1 ≤ votes.0 }
    requires most { votes.0 ≤ votes.1 }
    requires valid { votes.1 ≤ MAX_VOTES }
    ensures { IfOk result (λ _. returns.new ≡ with_win returns.old name.now (record { land = 0; party = Some 0; first = votes.0; valid = votes.1 })) }
{
    let before = numbers(returns);
    begin(alloc);
    let first = returns.add_win(0, Some(0), name, votes.0, votes.1);
    end(alloc);
    if first.is_ok() || numbers(returns) != before || returns.find_win(name).is_some() {
        return first;
    }
    returns.add_win(0, Some(0), name, votes.0, votes.1)
}

// Adds a lot of a winner of that list to those of the clause `seats`, in the same way.
fn add_lot(alloc: Global, returns: &mut Returns, win: usize) -> Result<(), NoMemory> {
    let before = numbers(returns);
    if before.0 == 0 || before.1 == 0 || win >= before.2 || before.3 >= MAX_LOTS {
        return Err(NoMemory);
    }
    begin(alloc);
    let first = returns.add_lot(Some(0), Some(0), b"seats", Some(win));
    end(alloc);
    if first.is_ok() || numbers(returns) != before {
        return first;
    }
    returns.add_lot(Some(0), Some(0), b"seats", Some(win))
}

/// Whether these are three lists with their votes.
pub fn are_three(returns: &Returns) -> bool {
    if returns.lands() != 1 || returns.parties() != 3 {
        return false;
    }
    returns.land_name(0) == b"X".as_slice()
        && returns.population(0) == 1000
        && returns.party_name(0) == b"A".as_slice()
        && returns.party_name(1) == b"B".as_slice()
        && returns.party_name(2) == b"C".as_slice()
        && (returns.valid(0, 0), returns.counted(0, 0)) == (100, 100)
        && (returns.valid(0, 1), returns.counted(0, 1)) == (80, 80)
        && (returns.valid(0, 2), returns.counted(0, 2)) == (30, 30)
}

// Adds a list in the first Land, for which no memory is taken.
fn add_list(
    alloc: Global,
    returns: &mut Returns,
    party: usize,
    votes: u32,
) -> Result<(), NoMemory> {
    let is_there = returns.lands() > 0 && party < returns.parties() && votes <= MAX_VOTES;
    if !is_there || returns.is_list(0, party) {
        return Err(NoMemory);
    }
    begin(alloc);
    let answer = returns.add_list(0, party, votes, votes);
    end(alloc);
    answer
}

// Adds a Land and three parties.
fn add_names(alloc: Global, returns: &mut Returns) -> Result<(), NoMemory>
    requires { returns.old ≡ no_election }
{
    add_land(alloc, returns, b"X", 1000)?;
    add_party(alloc, returns, b"A")?;
    add_party(alloc, returns, b"B")?;
    add_party(alloc, returns, b"C")
}

// Adds these and their lists; whether they are read back.
fn add_three(alloc: Global, returns: &mut Returns) -> Result<bool, NoMemory>
    requires { returns.old ≡ no_election }
{
    add_names(alloc, returns)?;
    add_list(alloc, returns, 0, 100)?;
    add_list(alloc, returns, 1, 80)?;
    add_list(alloc, returns, 2, 30)?;
    Ok(are_three(returns))
}

// Whether new returns keep them.
fn keep_three(alloc: Global) -> Result<bool, NoMemory> {
    let mut returns = Returns::empty(alloc);
    add_three(alloc, &mut returns)
}

#[test]
fn three_lists(rt: HostRuntime) {
    assert!(rt; keep_three(rt.alloc()) == Ok(true));
}

// Whether these are three winners and the lots of the last two.
fn are_drawn(returns: &Returns) -> bool {
    if returns.wins() != 3 {
        return false;
    }
    let (first, last) = (returns.win(0), returns.win(2));
    match returns.lots() {
        [third, second] => {
            returns.win_name(0) == b"w1".as_slice()
                && returns.win_name(2) == b"w3".as_slice()
                && (first.first, first.valid) == (300, 500)
                && (last.first, last.valid) == (360, 900)
                && third.win == Some(2)
                && second.win == Some(1)
                && second.stage.as_bytes() == b"seats".as_slice()
        }
        _ => false,
    }
}

// Adds three winners of a party, and lots of the last two; whether they are read back.
fn add_winners(alloc: Global, returns: &mut Returns) -> Result<bool, NoMemory>
    requires { returns.old ≡ no_election }
{
    returns.add_land(b"X", 1000)?;
    returns.add_party(b"A", false)?;
    add_win(alloc, returns, b"w1", (300, 500))?;
    add_win(alloc, returns, b"w2", (400, 1000))?;
    add_win(alloc, returns, b"w3", (360, 900))?;
    add_lot(alloc, returns, 2)?;
    add_lot(alloc, returns, 1)?;
    Ok(are_drawn(returns))
}

// Whether new returns keep them.
fn keep_winners(alloc: Global) -> Result<bool, NoMemory> {
    let mut returns = Returns::empty(alloc);
    add_winners(alloc, &mut returns)
}

#[test]
fn winners_and_lots(rt: HostRuntime) {
    assert!(rt; keep_winners(rt.alloc()) == Ok(true));
}
