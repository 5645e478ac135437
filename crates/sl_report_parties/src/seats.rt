//! The seats of parties, as a seat table has them.

ghost use Rattle.std.specs.List.{zip};
ghost use Rattle.std.specs.Prelude.{◌≡◌, ◌&&◌, ◌+◌, [], IfOk, count_by, is_none, map};
ghost use Rattle.sl_law_meaning.specs.returns.Facts.{parties};
ghost use Rattle.sl_report_parties.specs.Sums.{capped};
ghost use Rattle.sl_report_parties.specs.Seats.{all_seats, is_single, party_seats, seats_without_party};
ghost use Rattle.sl_report_parties.specs.inner.PartySeats.{AreSeats, IsWith, seats_placed};

use crate::votes::one_if;
use sl_base_quotients::NoMemory;
use sl_stages::{ListSeats, Placed, Returns, Table, Win};
use std::alloc::Global;

/// Seats: all of them, those of constituency winners, and the vacant ones.
#[derive(Clone, Copy)]
pub struct Seats {
    pub seats: u64,
    pub direct: u64,
    pub vacant: u64,
}

const NO_SEATS: Seats = Seats {
    seats: 0,
    direct: 0,
    vacant: 0,
};

impl Seats {
    // These seats and others.
    fn and(self, seats: u64, direct: u64, vacant: u64) -> Seats
        ensures { result ≡ record { seats = capped (self.seats + seats); direct = capped (self.direct + direct); vacant = capped (self.vacant + vacant) } }
    {
        Seats {
            seats: self.seats.saturating_add(seats),
            direct: self.direct.saturating_add(direct),
            vacant: self.vacant.saturating_add(vacant),
        }
    }
}

// The seats of a winner with that place.
fn seats_placed(place: Placed) -> Seats
    ensures { result ≡ seats_placed place }
{
    Seats {
        seats: one_if(matches!(place, Placed::Single)),
        direct: one_if(!matches!(place, Placed::Unseated)),
        vacant: 0,
    }
}

// Adds to the seats of a party, if it is one of these.
fn add_seats(all: &mut Vec<Seats>, party: Option<usize>, more: Seats)
    ensures { IsWith party more all.old.items all.new.items }
{
    if let Some(party) = party {
        if party < all.len() {
            all[party] = all[party].and(more.seats, more.direct, more.vacant);
        }
    }
}

// The seats of the lists of each party, without the winners on them.
fn list_seats(alloc: Global, table: &Table, parties: usize) -> Result<Vec<Seats>, NoMemory>
    ensures { IfOk result (λ all. AreSeats parties table.now.lists [] all.items) }
{
    let mut all = vec![in alloc; NO_SEATS; parties]?;
    for list in table.lists() {
        let more = Seats {
            seats: list.seats,
            direct: 0,
            vacant: list.vacant,
        };
        add_seats(&mut all, Some(list.party), more);
    }
    Ok(all)
}

/// The seats of each party, in one pass: those of its lists and of its singles, and its winners who are seated.
pub fn seats_by_party(
    alloc: Global,
    table: &Table,
    returns: &Returns,
) -> Result<Vec<Seats>, NoMemory>
    ensures { IfOk result (λ all. all.items ≡ map (party_seats table.now returns.now) (parties returns.now)) }
{
    let placed = table.placed();
    let mut all = list_seats(alloc, table, returns.parties())?;
    for number in 0..returns.wins().min(placed.len()) {
        let party = returns.win(number).party;
        add_seats(&mut all, party, seats_placed(placed[number]));
    }
    Ok(all)
}

/// The seats of all lists and of all singles, and the winners who are seated.
pub fn seats_in_all(table: &Table) -> Seats
    ensures { result ≡ all_seats table.now }
{
    let mut seats = NO_SEATS;
    for list in table.lists() {
        seats = seats.and(list.seats, 0, list.vacant);
    }
    for place in table.placed() {
        let more = seats_placed(*place);
        seats = seats.and(more.seats, more.direct, more.vacant);
    }
    seats
}

// Whether a winner without a party sits as a single.
fn is_alone(win: Win, place: Placed) -> bool
    ensures { result ≡ (is_none win.party && is_single place) }
{
    win.party.is_none() && matches!(place, Placed::Single)
}

/// The winners without a party who are seated.
pub fn seats_without_party(table: &Table, returns: &Returns) -> u64
    ensures { result ≡ seats_without_party table.now returns.now }
{
    let placed = table.placed();
    let mut seats = 0u64;
    for number in 0..returns.wins().min(placed.len()) {
        seats += one_if(is_alone(returns.win(number), placed[number]));
    }
    seats
}
