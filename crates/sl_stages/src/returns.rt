//! The returns of an election.

ghost use Rattle.std.specs.Prelude.{◌≡◌, ◌<◌, Some, IfSome, slice_get, slice_index};
ghost use Rattle.std.specs.List.{position};
ghost use Rattle.std.specs.Str.{bytes_eq};
ghost use Rattle.sl_law_meaning.specs.returns.Votes.{valid_in, counted_in, slate_in};

mod add;

use crate::cell::Cell;
use crate::find::number_among;
use sl_law_meaning::{Label, ListVotes, Lot, Win};
use std::alloc::Global;
use std::marker::Model;

/// The returns of an election, whose numbers are all in range. Länder, parties and winners have the numbers of their records, from 0.
#[derive(Drop)]
pub struct Returns {
    alloc: Global,
    house: Option<u32>,
    lands: Vec<Label>,
    populations: Vec<u32>,
    // for each Land a row with a cell for each party that there may be
    rows: Vec<Vec<Cell>>,
    parties: Vec<Label>,
    minorities: Vec<bool>,
    winners: Vec<Label>,
    wins: Vec<Win>,
    lots: Vec<Lot>,
}

impl Model for Returns {
    ghost use Rattle.sl_law_meaning.specs.returns.Election.{Election, IsElection};

    ghost Value = { Election };

    ghost use Rattle.sl_stages.specs.inner.Kept.{election_of};

    ghost view = { election_of };

    ghost invariant = { λ r. IsElection (election_of r) };
}

impl Returns {
    ghost use Rattle.sl_law_meaning.specs.returns.Election.{Election, IsElection, lands_of, parties_of, wins_of, list_at, has_list, no_election};

    /// Returns without a record. Takes no memory.
    pub fn empty(alloc: Global) -> Returns
        ensures { result ≡ no_election }
    {
        Returns {
            alloc,
            house: None,
            lands: Vec::new(alloc),
            populations: Vec::new(alloc),
            rows: Vec::new(alloc),
            parties: Vec::new(alloc),
            minorities: Vec::new(alloc),
            winners: Vec::new(alloc),
            wins: Vec::new(alloc),
            lots: Vec::new(alloc),
        }
    }

    /// The house that the returns give, in seats.
    pub fn house(&self) -> Option<u32>
        ensures house { result ≡ self.now.house }
        ensures kept { IsElection self.now }
    {
        self.house
    }

    /// The number of Länder.
    pub fn lands(&self) -> usize
        ensures number { result ≡ lands_of self.now }
        ensures kept { IsElection self.now }
    {
        self.lands.len()
    }

    /// The number of parties.
    pub fn parties(&self) -> usize
        ensures number { result ≡ parties_of self.now }
        ensures kept { IsElection self.now }
    {
        self.parties.len()
    }

    /// The number of constituency winners.
    pub fn wins(&self) -> usize
        ensures number { result ≡ wins_of self.now }
        ensures kept { IsElection self.now }
    {
        self.wins.len()
    }

    /// The list of a party in a Land, if it has one.
    pub fn list(&self, land: usize, party: usize) -> Option<ListVotes>
        requires land { land < lands_of self.now }
        requires party { party < parties_of self.now }
        ensures { result ≡ list_at self.now land party }
    {
        self.rows[land][party].votes()
    }

    /// Whether a party has a list in a Land.
    pub fn is_list(&self, land: usize, party: usize) -> bool
        requires land { land < lands_of self.now }
        requires party { party < parties_of self.now }
        ensures { result ≡ has_list self.now land party }
    {
        self.list(land, party).is_some()
    }

    /// The valid votes of a list, 0 where there is none.
    pub fn valid(&self, land: usize, party: usize) -> u32
        requires land { land < lands_of self.now }
        requires party { party < parties_of self.now }
        ensures { result ≡ valid_in (list_at self.now land party) }
    {
        self.list(land, party).map_or(0, |votes| votes.valid)
    }

    /// The counted votes of a list, 0 where there is none.
    pub fn counted(&self, land: usize, party: usize) -> u32
        requires land { land < lands_of self.now }
        requires party { party < parties_of self.now }
        ensures { result ≡ counted_in (list_at self.now land party) }
    {
        self.list(land, party).map_or(0, |votes| votes.counted)
    }

    /// The number of names left on a list, if it is given.
    pub fn slate(&self, land: usize, party: usize) -> Option<u32>
        requires land { land < lands_of self.now }
        requires party { party < parties_of self.now }
        ensures { result ≡ slate_in (list_at self.now land party) }
    {
        self.list(land, party).and_then(|votes| votes.slate)
    }

    /// The people of a Land.
    pub fn population(&self, land: usize) -> u32
        requires { land < lands_of self.now }
        ensures { result ≡ slice_index self.now.populations land }
    {
        self.populations[land]
    }

    /// Whether a party is one of a national minority.
    pub fn minority(&self, party: usize) -> bool
        requires { party < parties_of self.now }
        ensures { slice_get self.now.minorities party ≡ Some result }
    {
        self.minorities[party]
    }

    /// A constituency winner.
    pub fn win(&self, win: usize) -> Win
        requires { win < wins_of self.now }
        ensures { slice_get self.now.wins win ≡ Some result }
    {
        self.wins[win]
    }

    /// The lots, in the order of their records.
    pub fn lots(&self) -> &[Lot]
        ensures lots { result.now ≡ self.now.lots }
        ensures kept { IsElection self.now }
    {
        self.lots.as_slice()
    }

    /// The name of a Land.
    pub fn land_name(&self, land: usize) -> &[u8]
        requires { land < lands_of self.now }
        ensures { slice_get self.now.land_names land ≡ Some result.now }
    {
        self.lands[land].as_bytes()
    }

    /// The name of a party.
    pub fn party_name(&self, party: usize) -> &[u8]
        requires { party < parties_of self.now }
        ensures { slice_get self.now.party_names party ≡ Some result.now }
    {
        self.parties[party].as_bytes()
    }

    /// The constituency of a winner.
    pub fn win_name(&self, win: usize) -> &[u8]
        requires { win < wins_of self.now }
        ensures { slice_get self.now.win_names win ≡ Some result.now }
    {
        self.winners[win].as_bytes()
    }

    /// The number of the Land with that name. Looks at one name after the other, as `find_party` and `find_win` do: whoever
    /// looks for many keeps `Names` beside the returns, as the reader of returns does.
    pub fn find_land(&self, name: &[u8]) -> Option<usize>
        ensures number { result ≡ position (bytes_eq name.now) self.now.land_names }
        ensures within { IfSome result (λ land. land < lands_of self.now) }
    {
        number_among(&self.lands, name)
    }

    /// The number of the party with that name. Looks at one name after the other.
    pub fn find_party(&self, name: &[u8]) -> Option<usize>
        ensures number { result ≡ position (bytes_eq name.now) self.now.party_names }
        ensures within { IfSome result (λ party. party < parties_of self.now) }
    {
        number_among(&self.parties, name)
    }

    /// The number of the winner of that constituency. Looks at one name after the other.
    pub fn find_win(&self, name: &[u8]) -> Option<usize>
        ensures number { result ≡ position (bytes_eq name.now) self.now.win_names }
        ensures within { IfSome result (λ win. win < wins_of self.now) }
    {
        number_among(&self.winners, name)
    }
}
