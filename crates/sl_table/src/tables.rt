//! The seat table that stands in what a run holds.

ghost use Rattle.std.specs.Prelude.{◌≡◌, ◌<◌, ◌*◌, ◌++◌, IfOk, OnOk, IfSome, map, filter};
ghost use Rattle.std.specs.Option.{ForSome};
ghost use Rattle.sl_law_meaning.specs.returns.Election.{lands_of, parties_of, has_list};
ghost use Rattle.sl_law_meaning.specs.returns.Facts.{parties, each_list, by_list};
ghost use Rattle.sl_law_meaning.specs.meaning.Seating.{placed_on};
ghost use Rattle.sl_code_semantics.specs.Tables.{held_line, held_table};
ghost use Rattle.sl_table.specs.inner.Held.{FitsHeld};
ghost use Rattle.sl_count_texts.specs.inner.Fits.{Fits};
ghost use Rattle.sl_table.specs.inner.Places.{list_place};

use sl_base_quotients::NoMemory;
use sl_code_steps::Memory;
use sl_stages::{ListSeats, Placed, Returns, Table, Win};
use std::alloc::Global;

/// The seat table of what a run holds that fits the returns (docs/machine.md, section 1).
pub fn table_of(alloc: Global, memory: &Memory, returns: &Returns) -> Result<Table, NoMemory>
    requires { FitsHeld memory.now returns.now }
    ensures table { IfOk result (λ table. table ≡ held_table returns.now memory.now) }
    ensures fits { IfOk result (λ table. Fits table returns.now) }
{
    let lists = lists(alloc, memory, returns)?;
    let placed = places(alloc, memory, returns)?;
    let steps = Vec::from_slice(alloc, memory.steps())?;
    let weights = Vec::from_slice(alloc, memory.weights())?;
    Ok(Table::new(lists, placed, steps, weights))
}

/// The same table, which takes over the records of what the run holds. They are many, and so not copied; what else is held is let go.
pub fn into_table(alloc: Global, memory: Memory, returns: &Returns) -> Result<Table, NoMemory>
    requires { FitsHeld memory returns.now }
    ensures table { IfOk result (λ table. table ≡ held_table returns.now memory) }
    ensures fits { IfOk result (λ table. Fits table returns.now) }
{
    let lists = lists(alloc, &memory, returns)?;
    let placed = places(alloc, &memory, returns)?;
    let (steps, weights) = memory.into_records();
    Ok(Table::new(lists, placed, steps, weights))
}

// The number of the pair of Land and party of a winner who is placed on a list.
fn list_place(returns: &Returns, win: Win, place: Placed) -> Option<usize>
    requires land { win.land < lands_of returns.now }
    requires party { ForSome win.party (λ party. party < parties_of returns.now) }
    ensures place { result ≡ list_place returns.now win.land win.party place }
    ensures within { IfSome result (λ place. place < lands_of returns.now * parties_of returns.now) }
{
    let parties = returns.parties();
    match (win.party, place) {
        (Some(party), Placed::OnList) => Some(win.land * parties + party),
        _ => None,
    }
}

// How many winners are placed on each list, by Land and party.
fn seated_winners(alloc: Global, memory: &Memory, returns: &Returns) -> Result<Vec<u64>, NoMemory>
    requires { FitsHeld memory.now returns.now }
    ensures { IfOk result (λ column. column.items ≡ by_list returns.now (placed_on returns.now memory.now.placed)) }
{
    let parties = returns.parties();
    let lands = returns.lands();
    let Ok(mut column) = vec![in alloc; 0u64; lands * parties] else {
        return Err(NoMemory);
    };
    for number in 0..returns.wins() {
        if let Some(place) = list_place(returns, returns.win(number), memory.placed(number)) {
            column[place] += 1;
        }
    }
    Ok(column)
}

// Adds a Land's lists, where that many winners are placed on each list.
fn push_lists(
    lists: &mut Vec<ListSeats>,
    memory: &Memory,
    returns: &Returns,
    direct: &[u64],
    land: usize,
) -> Result<(), NoMemory>
    requires fits { FitsHeld memory.now returns.now }
    requires direct { direct.now ≡ by_list returns.now (placed_on returns.now memory.now.placed) }
    requires land { land < lands_of returns.now }
    ensures { OnOk result (lists.new.items ≡ lists.old.items ++ map (held_line returns.now memory.now land) (filter (has_list returns.now land) (parties returns.now))) }
{
    let parties = returns.parties();
    for party in 0..parties {
        if returns.is_list(land, party) {
            let place = land * parties + party;
            let list = ListSeats {
                land,
                party,
                seats: memory.base()[place],
                direct: direct[place],
                vacant: memory.vacant()[place],
            };
            let Ok(()) = lists.push(list) else {
                return Err(NoMemory);
            };
        }
    }
    Ok(())
}

// The lists, in list order.
fn lists(alloc: Global, memory: &Memory, returns: &Returns) -> Result<Vec<ListSeats>, NoMemory>
    requires { FitsHeld memory.now returns.now }
    ensures { IfOk result (λ lists. lists.items ≡ each_list returns.now (held_line returns.now memory.now)) }
{
    let direct = seated_winners(alloc, memory, returns)?;
    let Ok(mut lists) = Vec::with_capacity(alloc, direct.len()) else {
        return Err(NoMemory);
    };
    for land in 0..returns.lands() {
        push_lists(&mut lists, memory, returns, &direct, land)?;
    }
    Ok(lists)
}

// Where the winners sit.
fn places(alloc: Global, memory: &Memory, returns: &Returns) -> Result<Vec<Placed>, NoMemory>
    requires { FitsHeld memory.now returns.now }
    ensures { IfOk result (λ placed. placed.items ≡ memory.now.placed) }
{
    let Ok(mut placed) = Vec::with_capacity(alloc, returns.wins()) else {
        return Err(NoMemory);
    };
    for win in 0..returns.wins() {
        let Ok(()) = placed.push(memory.placed(win)) else {
            return Err(NoMemory);
        };
    }
    Ok(placed)
}
