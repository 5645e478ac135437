//! The priority table, which is on or off, and the lots that draw from it.

ghost use Rattle.std.specs.Prelude.{◌≡◌, ◌<◌, All, Some, None, [], IsSome, IfOk, OnOk, length, map, drop, slice_get, option_map, if◌then◌else◌};
ghost use Rattle.std.specs.Option.{ForSome, option_and_then};
ghost use Rattle.sl_code_instructions.specs.declared.operand.Ranking.TheVariants as ranking;
ghost use Rattle.sl_base_rankings.specs.Peers.{top, peers, is_covered};
ghost use Rattle.sl_base_rankings.specs.Lot.{drawn};
ghost use Rattle.sl_code_steps.specs.inner.Lots.{lot_in};
ghost use Rattle.sl_law_meaning.specs.returns.Election.{Election};
ghost use Rattle.sl_code_semantics.specs.State.{State};
ghost use Rattle.sl_code_semantics.specs.Places.{at_entry, item_of};
ghost use Rattle.sl_code_semantics.specs.Effects.{Goes, Jumps, given, takes, mark_of, with_entry};
ghost use Rattle.sl_code_semantics.specs.Safe.{entries_in};
ghost use Rattle.sl_code_steps.specs.inner.Tables.{FitsMark};

use crate::cursors::item_of;
use crate::draws::Draws;
use crate::lots::Lots;
use crate::store::append;
use sl_base_quotients::{Entry, NoMemory, Ratio};
use sl_code_instructions::{Entries, Ranking};
use sl_prio::AwardTable;
use sl_stages::{Item, Mark, Returns};
use std::alloc::Global;
use std::marker::Model;

/// What the table's entries are, and by what they are ranked.
#[derive(Clone, Copy)]
pub(crate) struct TableKind {
    pub entries: Entries,
    pub ranking: Ranking,
}

/// An entry that was taken: its number among such entries, and its mark.
#[derive(Clone, Copy)]
pub(crate) struct Taken {
    pub entries: Entries,
    pub index: u32,
    pub mark: Mark,
}

/// The priority table: what it is while it is on, its entries, and the lots that draw from it.
#[derive(Drop)]
pub(crate) struct PriorityTable {
    kind: Option<TableKind>,
    prio: AwardTable,
    lots: Lots,
    draws: Draws,
}

impl Model for PriorityTable {
    ghost use Rattle.sl_code_steps.specs.inner.Lots.{LotTable};

    ghost Value = { LotTable };

    ghost use Rattle.std.specs.Prelude.{All};
    ghost use Rattle.sl_base_quotients.specs.Quotient.{FitsRatio};
    ghost use Rattle.sl_code_steps.specs.inner.Tables.{table_in, HasMarks, HasPassed};

    ghost view = { λ t. record { on = table_in t; lots = t.lots } };

    ghost invariant = { λ t. HasMarks t × All (λ x. FitsRatio x.ratio) t.prio × HasPassed t };
}

// The mark of an entry that is taken from a table with that ranking.
fn mark_of(ranking: Ranking, ratio: Ratio) -> Mark
    requires { FitsMark ranking ratio }
    ensures { result ≡ mark_of ranking ratio }
{
    match ranking {
        Ranking::Quotients => Mark::Quotient(ratio),
        Ranking::Remainders => mark_of_remainder(ratio),
    }
}

// The mark of a remainder, or of an entry ahead of all remainders.
fn mark_of_remainder(ratio: Ratio) -> Mark
    requires { FitsMark ranking.Remainders ratio }
    ensures { result ≡ mark_of ranking.Remainders ratio }
{
    if ratio.den() == 0 {
        Mark::Lead
    } else {
        Mark::Rest((ratio.num() - 1) as u64)
    }
}

impl TableKind {
    // An entry that is taken from such a table.
    fn taken(self, entry: Entry) -> Taken
        requires { FitsMark self.ranking entry.ratio }
        ensures { result ≡ record { entries = self.entries; index = entry.index; mark = mark_of self.ranking entry.ratio } }
    {
        Taken {
            entries: self.entries,
            index: entry.index,
            mark: mark_of(self.ranking, entry.ratio),
        }
    }
}

impl PriorityTable {
    /// A table that is off, and the lots that are to draw from it. Takes no memory.
    pub(crate) fn off(alloc: Global, lots: Lots) -> PriorityTable
        ensures { result ≡ record { on = None; lots = lots } }
    {
        PriorityTable {
            kind: None,
            prio: AwardTable::new(alloc),
            lots,
            draws: Draws::NONE,
        }
    }

    /// Puts the table on, without entries.
    pub(crate) fn open(&mut self, entries: Entries, ranking: Ranking)
        ensures on { self.new.on ≡ Some (record { entries = entries; ranking = ranking; contents = [] }) }
        ensures lots { self.new.lots ≡ self.old.lots }
    {
        self.prio.clear();
        self.draws = Draws::NONE;
        self.kind = Some(TableKind { entries, ranking });
    }

    /// What the entries are, while the table is on.
    pub(crate) fn entries(&self) -> Option<Entries>
        ensures { result ≡ option_map (λ t. t.entries) self.now.on }
    {
        match self.kind {
            Some(kind) => Some(kind.entries),
            None => None,
        }
    }

    /// Enters an entry.
    pub(crate) fn enter(&mut self, entry: Entry) -> Result<(), NoMemory>
        requires { ForSome self.old.on (λ t. FitsMark t.ranking entry.ratio) }
        ensures entered { OnOk result (self.new.on ≡ option_map (with_entry entry) self.old.on) }
        ensures lots { self.new.lots ≡ self.old.lots }
    {
        // no ratio has numerator 0, so the peers stand first in a ranking
        prove!(entry.ratio.num() > 0);
        self.draws.enter(&mut self.prio, &entry);
        self.prio.put(entry)
    }

    /// The number of peers.
    pub(crate) fn peers(&mut self) -> usize
        ensures number { ForSome self.old.on (λ t. result ≡ length (peers t.contents)) }
        ensures same { self.new ≡ self.old }
    {
        self.prio.peers()
    }

    /// Whether the lot of a stage names every peer.
    pub(crate) fn is_covered(&mut self, stage: usize) -> bool
        requires stage { stage < length self.old.lots }
        requires on { IsSome self.old.on }
        ensures covered { (s : State) → given self.old.on (λ t. given (option_map (lot_in t.entries) (slice_get self.old.lots stage)) (λ lot. if is_covered lot t.contents then Goes s else Jumps s))
            ≡ (if result then Goes s else Jumps s) }
        ensures same { self.new ≡ self.old }
    {
        let kind = self.kind.unwrap();
        let lot = self.lots.lot(stage, kind.entries);
        self.prio.covers(lot)
    }

    /// Takes the greatest entry.
    pub(crate) fn take(&mut self) -> Taken
        requires { IsSome (option_and_then (λ t. top t.contents) self.old.on) }
        ensures taken { (e : Election) (s : State) → given self.old.on (λ t. takes e t (top t.contents) s)
            ≡ Goes (at_entry e result.entries result.index (record s { table = self.new.on; mark = result.mark })) }
        ensures within { (e : Election) → ForSome self.old.on (λ t. All (λ x. x.index < entries_in e t.entries) t.contents) → result.index < entries_in e result.entries }
        ensures lots { self.new.lots ≡ self.old.lots }
    {
        let kind = self.kind.unwrap();
        self.draws = Draws::NONE;
        let entry = self.prio.take().unwrap();
        kind.taken(entry)
    }

    /// Takes the peer that the lot of a stage draws.
    pub(crate) fn take_lot(&mut self, stage: usize) -> Taken
        requires stage { stage < length self.old.lots }
        requires top { IsSome (option_and_then (λ t. top t.contents) self.old.on) }
        ensures taken { (e : Election) (s : State) → given self.old.on (λ t. given (option_map (lot_in t.entries) (slice_get self.old.lots stage)) (λ lot. takes e t (drawn lot t.contents) s))
            ≡ Goes (at_entry e result.entries result.index (record s { table = self.new.on; mark = result.mark })) }
        ensures within { (e : Election) → ForSome self.old.on (λ t. All (λ x. x.index < entries_in e t.entries) t.contents) → result.index < entries_in e result.entries }
        ensures lots { self.new.lots ≡ self.old.lots }
    {
        let kind = self.kind.unwrap();
        let lot = self.lots.lot(stage, kind.entries);
        let passed = self.draws.passed(stage);
        let drawn = self.prio.take_lot_from(lot, passed).unwrap();
        self.draws = Draws {
            stage,
            passed: drawn.passed,
        };
        kind.taken(drawn.entry)
    }

    /// Takes the peers, and answers their items, from the greatest on.
    pub(crate) fn take_peers(
        &mut self,
        alloc: Global,
        returns: &Returns,
    ) -> Result<Vec<Item>, NoMemory>
        requires table { IsSome self.old.on }
        requires range { ForSome self.old.on (λ t. All (λ x. x.index < entries_in returns.now t.entries) t.contents) }
        ensures items { IfOk result (λ items. option_map (λ t. map (λ x. item_of returns.now t.entries x.index) (peers t.contents)) self.old.on ≡ Some items.items) }
        ensures rest { OnOk result (ForSome self.old.on (λ t. self.new.on ≡ Some (record t { contents = drop (length (peers t.contents)) t.contents }))) }
        ensures lots { self.new.lots ≡ self.old.lots }
    {
        let kind = self.kind.unwrap();
        self.draws = Draws::NONE;
        let mut items = Vec::new(alloc);
        let peers = self.prio.peers();
        for _ in 0..peers {
            let peer = self.prio.take().unwrap();
            append(
                &mut items,
                item_of(returns, kind.entries, peer.index as usize),
            )?;
        }
        Ok(items)
    }
}
