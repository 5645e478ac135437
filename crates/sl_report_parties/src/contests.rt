//! The winners of lists with more winners than seats, ranked by their shares of first votes.

ghost use Rattle.std.specs.Prelude.{◌≡◌, ◌+◌, IfOk, IfSome, OnOk, false, count_by, filter, is_some, map, option_map, slice_get, unwrap_or};
ghost use Rattle.std.specs.List.{enumerate_from};
ghost use Rattle.sl_report_parties.specs.Ranks.{AreByRank, AreContested, is_above, is_contested, is_on};
ghost use Rattle.sl_report_parties.specs.Seats.{is_seated};
ghost use Rattle.sl_report_parties.specs.inner.Contests.{AddsContested};
ghost use Rattle.sl_report_parties.specs.inner.Winners.{AreOnLists, ranked_by};

use crate::facts::Setting;
use crate::votes::one_if;
use crate::winners::{Numbered, winners_of_lists, winners_on};
use sl_base_quotients::NoMemory;
use sl_stages::{ListSeats, Placed, Table, Win};
use std::alloc::Global;

/// A winner on a contested list: the list, the winner's number, the first votes and the valid ones, the rank from 1, and whether the winner is
/// seated. Equal shares have one rank.
#[derive(Clone, Copy)]
pub struct Ranked {
    pub land: usize,
    pub party: usize,
    pub win: usize,
    pub first: u32,
    pub valid: u32,
    pub rank: u64,
    pub seated: bool,
}

// Whether the share of the first one is greater than that of the second.
fn is_above(first: Win, second: Win) -> bool
    ensures { result ≡ is_above second first }
{
    let across = u64::from(first.first) * u64::from(second.valid);
    let back = u64::from(second.first) * u64::from(first.valid);
    back < across
}

// The rank of a winner among those of a list: 1 more than those with a greater share.
fn rank_of(own: &[Numbered], win: Win) -> u64
    ensures { result ≡ count_by (λ other. is_above win other.1) own.now + 1 }
{
    let mut ahead = 0u64;
    for (_, other) in own {
        ahead += one_if(is_above(*other, win));
    }
    ahead.saturating_add(1)
}

// Whether a winner with that place sits in the house.
fn has_seat(place: Placed) -> bool
    ensures { result ≡ is_seated place }
{
    match place {
        Placed::OnList => true,
        Placed::Single => true,
        Placed::Unseated => false,
    }
}

// Whether the winner of that number is seated.
fn is_seated(table: &Table, win: usize) -> bool
    ensures { result ≡ unwrap_or (option_map is_seated (slice_get table.now.placed win)) false }
{
    match table.placed().get(win) {
        Some(place) => has_seat(*place),
        None => false,
    }
}

// A winner of a list, by all of its winners.
fn ranked_by(table: &Table, list: ListSeats, own: &[Numbered], number: usize, win: Win) -> Ranked
    ensures { result ≡ ranked_by table.now list own.now (number, win) }
{
    Ranked {
        land: list.land,
        party: list.party,
        win: number,
        first: win.first,
        valid: win.valid,
        rank: rank_of(own, win),
        seated: is_seated(table, number),
    }
}

// The winners of a list, in the order of their records.
fn winners_of_list(
    alloc: Global,
    table: &Table,
    list: ListSeats,
    own: &[Numbered],
) -> Result<Vec<Ranked>, NoMemory>
    ensures { IfOk result (λ winners. winners.items ≡ map (ranked_by table.now list own.now) own.now) }
{
    let mut winners: Vec<Ranked> = Vec::new(alloc);
    for (number, win) in own {
        winners.push(ranked_by(table, list, own, *number, *win))?;
    }
    Ok(winners)
}

// The winners of a list, by rank.
fn by_rank(
    alloc: Global,
    table: &Table,
    list: ListSeats,
    own: &[Numbered],
) -> Result<Vec<Ranked>, NoMemory>
    ensures { IfOk result (λ winners. AreByRank (map (ranked_by table.now list own.now) own.now) winners.items) }
{
    let mut winners = winners_of_list(alloc, table, list, own)?;
    winners.sort_by_key(
        |winner|
            ensures { result ≡ winner.now.rank }
        { winner.rank },
    )?;
    Ok(winners)
}

// The winners of a list of a party that takes part, if there are more of them than seats.
fn contested_on<'a>(
    setting: &Setting<'_>,
    on_lists: &'a [Vec<Numbered>],
    list: ListSeats,
) -> Option<&'a [Numbered]>
    requires { AreOnLists setting.now.returns.now (map (λ own. own.items) on_lists.now) }
    ensures contested { is_some result ≡ is_contested setting.now.book.now.eligible.items setting.now.returns.now list }
    ensures own { IfSome result (λ own. own.now ≡ filter (λ x. is_on list x.1) (enumerate_from 0 setting.now.returns.now.wins)) }
{
    if list.party >= setting.returns.parties() || !setting.takes_part(list.party) {
        return None;
    }
    let own = winners_on(setting.returns, on_lists, list.land, list.party);
    if list.seats < own.len() as u64 {
        Some(own)
    } else {
        None
    }
}

// Adds the winners of a list by rank, if the list is contested.
fn push_contested(
    alloc: Global,
    winners: &mut Vec<Ranked>,
    setting: &Setting<'_>,
    table: &Table,
    on_lists: &[Vec<Numbered>],
    list: ListSeats,
) -> Result<(), NoMemory>
    requires { AreOnLists setting.now.returns.now (map (λ own. own.items) on_lists.now) }
    ensures { OnOk result (AddsContested setting.now.book.now.eligible.items table.now setting.now.returns.now list winners.old.items winners.new.items) }
{
    if let Some(own) = contested_on(setting, on_lists, list) {
        let ranked = by_rank(alloc, table, list, own)?;
        winners.extend_from_slice(ranked.as_slice())?;
    }
    Ok(())
}

/// The winners of each list of a party that takes part which has more winners than seats: by list, and then by rank.
pub fn contested(
    alloc: Global,
    setting: &Setting<'_>,
    table: &Table,
) -> Result<Vec<Ranked>, NoMemory>
    ensures { IfOk result (λ found. AreContested setting.now.book.now.eligible.items table.now setting.now.returns.now found.items) }
{
    let on_lists = winners_of_lists(alloc, setting.returns)?;
    let mut winners = Vec::new(alloc);
    for list in table.lists() {
        push_contested(
            alloc,
            &mut winners,
            setting,
            table,
            on_lists.as_slice(),
            *list,
        )?;
    }
    Ok(winners)
}
