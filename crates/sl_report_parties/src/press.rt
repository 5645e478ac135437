//! The parties that a press report shows, by their seats, and those that it leaves out, by their votes.

ghost use Rattle.std.specs.Prelude.{◌≡◌, ◌<◌, ◌++◌, ◌∷◌, [], IfOk, OnOk, filter, map, option_map, slice_index_or};
ghost use Rattle.sl_report_parties.specs.Earlier.{seats_before};
ghost use Rattle.sl_report_parties.specs.Press.{AreLeftOut, ArePressed, is_left_out, is_pressed, pressed_of, standing_of};
ghost use Rattle.sl_law_meaning.specs.returns.Election.{parties_of};
ghost use Rattle.sl_law_meaning.specs.returns.Facts.{parties};

use crate::earlier::{EarlierParty, seats_before};
use crate::facts::Setting;
use crate::parts::PartyPart;
use crate::seats::{Seats, seats_by_party};
use sl_base_quotients::NoMemory;
use sl_stages::{Returns, Table};
use std::alloc::Global;

/// A party by its number, with its seats, its votes, the constituencies that it won, and its seats in an earlier table, where one is given.
#[derive(Clone, Copy)]
pub struct Pressed {
    pub party: usize,
    pub seats: Seats,
    pub part: PartyPart,
    pub before: Option<u64>,
}

/// A party by its number, with its votes, the constituencies that it won, and the condition that it meets.
#[derive(Clone, Copy)]
pub struct Standing {
    pub party: usize,
    pub part: PartyPart,
}

// The seats of a party in an earlier table, where one is given.
fn before_of(returns: &Returns, party: usize, earlier: Option<&[EarlierParty<'_>]>) -> Option<u64>
    requires { party < parties_of returns.now }
    ensures { result ≡ option_map (seats_before (slice_index_or returns.now.party_names party [])) (option_map (λ all. all.now) earlier.entry) }
{
    match earlier {
        Some(earlier) => Some(seats_before(returns.party_name(party), earlier)),
        None => None,
    }
}

// Adds a party that has a seat, or won a constituency, or had a seat.
fn push_pressed(found: &mut Vec<Pressed>, pressed: Pressed) -> Result<(), NoMemory>
    ensures { OnOk result (found.new.items ≡ found.old.items ++ filter is_pressed (pressed ∷ [])) }
{
    let had = pressed.before.unwrap_or(0);
    if pressed.seats.seats > 0 || pressed.part.winners > 0 || had > 0 {
        found.push(pressed)?;
    }
    Ok(())
}

// The parties with a seat or a constituency, or with a seat in an earlier table, in the order of the returns.
fn with_seats(
    alloc: Global,
    setting: &Setting<'_>,
    table: &Table,
    earlier: Option<&[EarlierParty<'_>]>,
) -> Result<Vec<Pressed>, NoMemory>
    ensures { IfOk result (λ found. found.items ≡ filter is_pressed
        (map (pressed_of setting.now.book.now.eligible.items table.now setting.now.returns.now (option_map (λ all. all.now) earlier.entry)) (parties setting.now.returns.now))) }
{
    let seats = seats_by_party(alloc, table, setting.returns)?;
    let mut found: Vec<Pressed> = Vec::new(alloc);
    for party in 0..setting.returns.parties() {
        let pressed = Pressed {
            party,
            seats: seats[party],
            part: setting.part(party),
            before: before_of(setting.returns, party, earlier),
        };
        push_pressed(&mut found, pressed)?;
    }
    Ok(found)
}

/// The parties with a seat or a constituency, or with a seat in an earlier table, those with the most seats first, and of as many seats in the order of
/// the returns.
pub fn by_seats(
    alloc: Global,
    setting: &Setting<'_>,
    table: &Table,
    earlier: Option<&[EarlierParty<'_>]>,
) -> Result<Vec<Pressed>, NoMemory>
    ensures { IfOk result (λ found. ArePressed setting.now.book.now.eligible.items table.now setting.now.returns.now (option_map (λ all. all.now) earlier.entry) found.items) }
{
    let mut found = with_seats(alloc, setting, table, earlier)?;
    found.sort_by(|first, second| second.seats.seats.cmp(&first.seats.seats))?;
    Ok(found)
}

// Adds a party that meets no condition.
fn push_left_out(found: &mut Vec<Standing>, standing: Standing) -> Result<(), NoMemory>
    ensures { OnOk result (found.new.items ≡ found.old.items ++ filter is_left_out (standing ∷ [])) }
{
    if standing.part.met.is_none() {
        found.push(standing)?;
    }
    Ok(())
}

// The parties that meet no condition, in the order of the returns.
fn without_condition(alloc: Global, setting: &Setting<'_>) -> Result<Vec<Standing>, NoMemory>
    ensures { IfOk result (λ found. found.items ≡ filter is_left_out (map (standing_of setting.now.book.now.eligible.items setting.now.returns.now) (parties setting.now.returns.now))) }
{
    let mut found: Vec<Standing> = Vec::new(alloc);
    for party in 0..setting.returns.parties() {
        let part = setting.part(party);
        push_left_out(&mut found, Standing { party, part })?;
    }
    Ok(found)
}

/// The parties that meet no condition, those with the most valid votes first, and of as many votes in the order of the returns.
pub fn left_out(alloc: Global, setting: &Setting<'_>) -> Result<Vec<Standing>, NoMemory>
    ensures { IfOk result (λ found. AreLeftOut setting.now.book.now.eligible.items setting.now.returns.now found.items) }
{
    let mut found = without_condition(alloc, setting)?;
    found.sort_by(|first, second| second.part.votes.valid.cmp(&first.part.votes.valid))?;
    Ok(found)
}
