//! The short text of a seat table: the total, the parties, the lists, the vacant seats, and the winners who sit on no list.

ghost use Rattle.std.specs.Prelude.{◌≡◌, ◌+◌, ◌^◌, ◌<◌, ◌≤◌, ◌∷◌, [], false, flat_map, sum_by, count_by, codes, IfOk, OnOk};
ghost use Rattle.std.specs.Fmt.{decimal};
ghost use Rattle.std.specs.List.{zip};
ghost use Rattle.sl_law_meaning.specs.returns.Election.{lands_of, parties_of};
ghost use Rattle.sl_law_meaning.specs.returns.Facts.{parties};
ghost use Rattle.sl_count_texts.specs.inner.Fits.{Fits};
ghost use Rattle.sl_count_texts.specs.Lines.{line, with_lines};
ghost use Rattle.sl_count_texts.specs.Short.{is_single, total_line, party_line, list_line, vacant_line, winner_line, short_text};

use crate::line::Text;
use crate::party_counts::PartyCounts;
use sl_base_quotients::NoMemory;
use sl_stages::{ListSeats, Placed, Returns, Table};
use std::alloc::Global;

/// The short text of a seat table that fits the returns (docs/output.md, section 1).
pub fn short_text(alloc: Global, table: &Table, returns: &Returns) -> Result<Vec<u8>, NoMemory>
    requires { Fits table.now returns.now }
    ensures { IfOk result (λ text. text.items ≡ short_text table.now returns.now) }
{
    let mut text = Text::new(alloc);
    short_lines(&mut text, table, returns)?;
    Ok(text.into_bytes())
}

// The lines of the short text.
pub(crate) fn short_lines(text: &mut Text, table: &Table, returns: &Returns) -> Result<(), NoMemory>
    requires begun { text.old.begun ≡ false }
    requires fits { Fits table.now returns.now }
    ensures { OnOk result (text.new ≡ with_lines text.old (short_text table.now returns.now)) }
{
    total_line(text, table)?;
    party_lines(text, table, returns)?;
    list_lines(text, table, returns)?;
    vacant_lines(text, table, returns)?;
    winner_lines(text, table, returns)
}

// ---- numbers

// The seats of all lists. There is room for a single of each winner.
fn seats_of_lists(lists: &[ListSeats]) -> u128
    ensures value { result ≡ sum_by (λ l. l.seats) lists.now }
    ensures room { result + 2 ^ 64 ≤ 2 ^ 128 }
{
    let mut seats = 0;
    for list in lists {
        seats += u128::from(list.seats);
    }
    seats
}

// How many winners sit as singles.
fn singles(placed: &[Placed]) -> usize
    ensures { result ≡ count_by is_single placed.now }
{
    placed
        .iter()
        .filter(|place| matches!(place, Placed::Single))
        .count()
}

// ---- lines, each appended to a text whose last line is ended

fn total_line(text: &mut Text, table: &Table) -> Result<(), NoMemory>
    requires { text.old.begun ≡ false }
    ensures { OnOk result (text.new ≡ with_lines text.old (total_line table.now)) }
{
    let total = seats_of_lists(table.lists()) + singles(table.placed()) as u128;
    text.word(b"total")?;
    text.wide_number(total)?;
    text.end_line()
}

// The line of a party that has so many seats in its lists, so many winners who are seated, and so many singles.
fn party_line(
    text: &mut Text,
    name: &[u8],
    list_seats: u128,
    seated: u64,
    singles: u64,
) -> Result<(), NoMemory>
    requires begun { text.old.begun ≡ false }
    requires room { list_seats + 2 ^ 64 ≤ 2 ^ 128 }
    ensures { OnOk result (text.new ≡ with_lines text.old (line (codes "party" ∷ name.now ∷ decimal (list_seats + singles) ∷ decimal seated ∷ []))) }
{
    text.word(b"party")?;
    text.word(name)?;
    text.wide_number(list_seats + u128::from(singles))?;
    text.number(seated)?;
    text.end_line()
}

fn list_line(text: &mut Text, list: ListSeats, returns: &Returns) -> Result<(), NoMemory>
    requires begun { text.old.begun ≡ false }
    requires land { list.land < lands_of returns.now }
    requires party { list.party < parties_of returns.now }
    ensures { OnOk result (text.new ≡ with_lines text.old (list_line returns.now list)) }
{
    text.word(b"list")?;
    text.word(returns.land_name(list.land))?;
    text.word(returns.party_name(list.party))?;
    text.number(list.seats)?;
    text.number(list.direct)?;
    text.end_line()
}

fn vacant_line(text: &mut Text, list: ListSeats, returns: &Returns) -> Result<(), NoMemory>
    requires begun { text.old.begun ≡ false }
    requires land { list.land < lands_of returns.now }
    requires party { list.party < parties_of returns.now }
    ensures { OnOk result (text.new ≡ with_lines text.old (vacant_line returns.now list)) }
{
    if list.vacant == 0 {
        return Ok(());
    }
    text.word(b"vacant")?;
    text.word(returns.land_name(list.land))?;
    text.word(returns.party_name(list.party))?;
    text.number(list.vacant)?;
    text.end_line()
}

fn winner_line(text: &mut Text, name: &[u8], place: Placed) -> Result<(), NoMemory>
    requires { text.old.begun ≡ false }
    ensures { OnOk result (text.new ≡ with_lines text.old (winner_line (name.now, place))) }
{
    match place {
        Placed::OnList => return Ok(()),
        Placed::Single => text.word(b"single")?,
        Placed::Unseated => text.word(b"open")?,
    }
    text.word(name)?;
    text.end_line()
}

fn party_lines(text: &mut Text, table: &Table, returns: &Returns) -> Result<(), NoMemory>
    requires begun { text.old.begun ≡ false }
    requires fits { Fits table.now returns.now }
    ensures { OnOk result (text.new ≡ with_lines text.old (flat_map (party_line table.now returns.now) (parties returns.now))) }
{
    let counts = PartyCounts::of(text.alloc(), table, returns)?;
    for party in 0..returns.parties() {
        party_line(
            text,
            returns.party_name(party),
            counts.list_seats[party],
            counts.seated[party],
            counts.singles[party],
        )?;
    }
    Ok(())
}

fn list_lines(text: &mut Text, table: &Table, returns: &Returns) -> Result<(), NoMemory>
    requires begun { text.old.begun ≡ false }
    requires fits { Fits table.now returns.now }
    ensures { OnOk result (text.new ≡ with_lines text.old (flat_map (list_line returns.now) table.now.lists)) }
{
    for list in table.lists() {
        list_line(text, *list, returns)?;
    }
    Ok(())
}

fn vacant_lines(text: &mut Text, table: &Table, returns: &Returns) -> Result<(), NoMemory>
    requires begun { text.old.begun ≡ false }
    requires fits { Fits table.now returns.now }
    ensures { OnOk result (text.new ≡ with_lines text.old (flat_map (vacant_line returns.now) table.now.lists)) }
{
    for list in table.lists() {
        vacant_line(text, *list, returns)?;
    }
    Ok(())
}

fn winner_lines(text: &mut Text, table: &Table, returns: &Returns) -> Result<(), NoMemory>
    requires begun { text.old.begun ≡ false }
    requires fits { Fits table.now returns.now }
    ensures { OnOk result (text.new ≡ with_lines text.old (flat_map winner_line (zip returns.now.win_names table.now.placed))) }
{
    for (win, place) in table.placed().iter().enumerate() {
        winner_line(text, returns.win_name(win), *place)?;
    }
    Ok(())
}
