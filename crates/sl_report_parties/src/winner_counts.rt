//! How many winners there are, by party and by Land.

ghost use Rattle.std.specs.Prelude.{◌≡◌, ◌<◌, IfOk, count_by, map};
ghost use Rattle.sl_law_meaning.specs.returns.Election.{lands_of, parties_of};
ghost use Rattle.sl_law_meaning.specs.returns.Facts.{by_land, by_party, is_in, is_of};
ghost use Rattle.sl_report_parties.specs.Cells.{is_won};
ghost use Rattle.sl_report_parties.specs.Sums.{is_alone_in};
ghost use Rattle.sl_report_parties.specs.inner.Winners.{AreOnLists};

use crate::winners::{
    Numbered, independents_of_lands, winners_of_lands, winners_of_lists, winners_of_parties,
    winners_on,
};
use sl_base_quotients::NoMemory;
use sl_stages::Returns;
use std::alloc::Global;

/// Returns, with how many winners there are: of each party, in each Land, of each party in each Land, and in each Land without a party.
#[derive(Drop)]
pub struct WinnerCounts<'a> {
    pub returns: &'a Returns,
    of_parties: Vec<u64>,
    in_lands: Vec<u64>,
    alone: Vec<u64>,
    on_lists: Vec<Vec<Numbered>>,
    ghost are_of_parties: { of_parties.items ≡ by_party returns.now (λ party. count_by (is_of party) returns.now.wins) },
    ghost are_in_lands: { in_lands.items ≡ by_land returns.now (λ land. count_by (is_in land) returns.now.wins) },
    ghost are_alone: { alone.items ≡ by_land returns.now (λ land. count_by (is_alone_in land) returns.now.wins) },
    ghost are_on_lists: { AreOnLists returns.now (map (λ own. own.items) on_lists.items) },
}

impl<'a> WinnerCounts<'a> {
    /// Those of returns.
    pub fn new(alloc: Global, returns: &'a Returns) -> Result<WinnerCounts<'a>, NoMemory>
        ensures { IfOk result (λ counts. counts.returns.now ≡ returns.now) }
    {
        Ok(WinnerCounts {
            returns,
            of_parties: winners_of_parties(alloc, returns)?,
            in_lands: winners_of_lands(alloc, returns)?,
            alone: independents_of_lands(alloc, returns)?,
            on_lists: winners_of_lists(alloc, returns)?,
        })
    }

    /// How many winners a party has.
    pub fn of(&self, party: usize) -> u64
        requires { party < parties_of self.now.returns.now }
        ensures { result ≡ count_by (is_of party) self.now.returns.now.wins }
    {
        self.of_parties[party]
    }

    /// How many winners there are in a Land.
    pub fn in_land(&self, land: usize) -> u64
        requires { land < lands_of self.now.returns.now }
        ensures { result ≡ count_by (is_in land) self.now.returns.now.wins }
    {
        self.in_lands[land]
    }

    /// How many winners a party has in a Land.
    pub fn at(&self, land: usize, party: usize) -> u64
        requires { party < parties_of self.now.returns.now }
        ensures { result ≡ count_by (is_won land party) self.now.returns.now.wins }
    {
        winners_on(self.returns, self.on_lists.as_slice(), land, party).len() as u64
    }

    /// How many winners without a party there are in a Land.
    pub fn independents(&self, land: usize) -> u64
        requires { land < lands_of self.now.returns.now }
        ensures { result ≡ count_by (is_alone_in land) self.now.returns.now.wins }
    {
        self.alone[land]
    }
}
