//! The lots of a code's stages, as numbers of entries of the priority table.

ghost use Rattle.std.specs.Prelude.{◌≡◌, ◌<◌, ◌++◌, Some, None, IfOk, OnOk, length, slice_get, option_map, if◌then◌else◌};
ghost use Rattle.std.specs.Option.{option_to_list};
ghost use Rattle.sl_law_meaning.specs.returns.Election.{IsElection, IsLot, lands_of, parties_of, wins_of};
ghost use Rattle.std.specs.Str.{bytes_eq};
ghost use Rattle.sl_law_meaning.specs.meaning.Lots.{is_winner_of};
ghost use Rattle.sl_law_meaning.specs.meaning.Scopes.{place};
ghost use Rattle.sl_code_semantics.specs.Drawn.{given_in};
ghost use Rattle.sl_code_steps.specs.inner.Lots.{lot_in, with_lot, stage_lots, lots_for};

use crate::store::append;
use sl_base_quotients::NoMemory;
use sl_code_instructions::{Code, Entries};
use sl_stages::{Lot, Returns};
use std::alloc::Global;
use std::marker::Model;

/// The lot of a stage in a table of each kind of entries.
#[derive(Drop)]
pub(crate) struct StageLot {
    party: Vec<u32>,
    land: Vec<u32>,
    list: Vec<u32>,
    win: Vec<u32>,
}

impl Model for StageLot {
    ghost use Rattle.sl_code_steps.specs.inner.Lots.{StageLots};

    ghost Value = { StageLots };

    ghost view = { λ l. record { party = l.party.items; land = l.land.items; list = l.list.items; win = l.win.items } };
}

/// The lots of the stages, and after them the lot of the last clause.
#[derive(Drop)]
pub(crate) struct Lots {
    stages: Vec<StageLot>,
}

impl Model for Lots {
    ghost use Rattle.std.specs.Prelude.{List};
    ghost use Rattle.sl_code_steps.specs.inner.Lots.{StageLots};

    ghost Value = { List StageLots };

    ghost view = { λ l. l.stages.items };
}

// The entry that a lot gives in a table of such entries, by its number.
fn given_in(returns: &Returns, entries: Entries, lot: &Lot) -> Option<u32>
    requires lot { IsLot (lands_of returns.now) (parties_of returns.now) (wins_of returns.now) lot.now }
    requires election { IsElection returns.now }
    ensures { result ≡ option_map (place returns.now) (given_in returns.now entries lot.now) }
{
    match (entries, lot.land, lot.party) {
        (Entries::Party, None, Some(party)) => Some(party as u32),
        (Entries::Land, Some(land), None) => Some(land as u32),
        (Entries::List, Some(land), Some(party)) => {
            Some((land * returns.parties() + party) as u32)
        }
        (Entries::Win, Some(land), Some(party)) => given_winner(returns, land, party, lot.win?),
        _ => None,
    }
}

// The winner, if it is of that Land and that party.
fn given_winner(returns: &Returns, land: usize, party: usize, win: usize) -> Option<u32>
    requires win { win < wins_of returns.now }
    requires election { IsElection returns.now }
    ensures { result ≡ (if is_winner_of land party (slice_get returns.now.wins win) then Some win else None) }
{
    let winner = returns.win(win);
    (winner.land == land && winner.party == Some(party)).then_some(win as u32)
}

// Adds an entry, if there is one.
fn append_some(entries: &mut Vec<u32>, entry: Option<u32>) -> Result<(), NoMemory>
    ensures { OnOk result (entries.new.items ≡ entries.old.items ++ option_to_list entry) }
{
    if let Some(entry) = entry {
        append(entries, entry)?;
    }
    Ok(())
}

impl StageLot {
    // Adds the entries that a lot gives in each kind of table.
    fn add(&mut self, returns: &Returns, lot: &Lot) -> Result<(), NoMemory>
        requires lot { IsLot (lands_of returns.now) (parties_of returns.now) (wins_of returns.now) lot.now }
        requires election { IsElection returns.now }
        ensures { OnOk result (self.new ≡ with_lot returns.now lot.now self.old) }
    {
        append_some(&mut self.party, given_in(returns, Entries::Party, lot))?;
        append_some(&mut self.land, given_in(returns, Entries::Land, lot))?;
        append_some(&mut self.list, given_in(returns, Entries::List, lot))?;
        append_some(&mut self.win, given_in(returns, Entries::Win, lot))
    }

    // Adds them if the lot has the name.
    fn add_named(&mut self, returns: &Returns, name: &[u8], lot: &Lot) -> Result<(), NoMemory>
        requires lot { IsLot (lands_of returns.now) (parties_of returns.now) (wins_of returns.now) lot.now }
        requires election { IsElection returns.now }
        ensures { OnOk result (self.new ≡ (if bytes_eq name.now lot.now.stage then with_lot returns.now lot.now self.old else self.old)) }
    {
        if name == lot.stage.as_bytes() {
            self.add(returns, lot)?;
        }
        Ok(())
    }

    // The lot of the stage of that name.
    fn named(alloc: Global, returns: &Returns, name: &[u8]) -> Result<StageLot, NoMemory>
        ensures { IfOk result (λ lot. lot ≡ stage_lots returns.now name.now) }
    {
        let mut stage = StageLot {
            party: Vec::new(alloc),
            land: Vec::new(alloc),
            list: Vec::new(alloc),
            win: Vec::new(alloc),
        };
        for lot in returns.lots() {
            stage.add_named(returns, name, lot)?;
        }
        Ok(stage)
    }
}

impl Lots {
    /// The lots of a code's stages.
    pub(crate) fn of(alloc: Global, code: &Code, returns: &Returns) -> Result<Lots, NoMemory>
        ensures { IfOk result (λ lots. lots ≡ lots_for code.now returns.now) }
    {
        let mut stages = Vec::new(alloc);
        for stage in code.stages() {
            append(
                &mut stages,
                StageLot::named(alloc, returns, stage.name.as_bytes())?,
            )?;
        }
        append(&mut stages, StageLot::named(alloc, returns, b"seats")?)?;
        Ok(Lots { stages })
    }

    /// The lot of a stage, or of the last clause after all stages, in a table of such entries.
    pub(crate) fn lot(&self, stage: usize, entries: Entries) -> &[u32]
        requires { stage < length self.now }
        ensures { option_map (lot_in entries) (slice_get self.now stage) ≡ Some result.now }
    {
        let lot = &self.stages[stage];
        match entries {
            Entries::Party => lot.party.as_slice(),
            Entries::Land => lot.land.as_slice(),
            Entries::List => lot.list.as_slice(),
            Entries::Win => lot.win.as_slice(),
        }
    }
}
