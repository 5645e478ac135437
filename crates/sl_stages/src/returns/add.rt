//! Records that join the returns.

ghost use Rattle.std.specs.Prelude.{◌≡◌, ◌<◌, ◌≤◌, ◌++◌, ◌∷◌, [], true, false, None, Some, length, map, replicate, slice_index_or, slice_set, vec_len, vec_capacity, IfOk, IsOk, OnOk, OnErr};
ghost use Rattle.std.specs.Option.{ForSome};
ghost use Rattle.sl_base_quotients.specs.Names.{name_fault, spelling_fault};
ghost use Rattle.sl_base_quotients.specs.declared.limits.TheConstants.{MAX_SEATS, MAX_LANDS, MAX_PARTIES, MAX_VOTES};
ghost use Rattle.sl_law_meaning.specs.declared.limits.TheConstants.{MAX_SLATE, MAX_WINS, MAX_LOTS};
ghost use Rattle.sl_law_meaning.specs.returns.Votes.{IsListVotes};

use crate::cell::Cell;
use crate::returns::Returns;
use sl_base_quotients::NoMemory;
use sl_law_meaning::{Label, ListVotes, Lot, MAX_LANDS, MAX_PARTIES, MAX_WINS, Win};
use std::alloc::Global;

// A row without a list.
fn blank_row(alloc: Global) -> Result<Vec<Cell>, NoMemory>
    ensures { IfOk result (λ row. row.items ≡ replicate MAX_PARTIES None) }
{
    let mut row = Vec::new(alloc);
    row.resize(MAX_PARTIES, Cell::blank())?;
    Ok(row)
}

// Makes room for one more item. The first asks for as many as there may be, so that none is copied later: memory that is
// not touched costs nothing.
fn make_room<T>(items: &mut Vec<T>, most: usize) -> Result<(), NoMemory>
    ensures same { items.new.items ≡ items.old.items }
    ensures room { OnOk result (vec_len items.new < vec_capacity items.new) }
{
    let more = if items.is_empty() { most.max(1) } else { 1 };
    items.reserve(more)?;
    Ok(())
}

// Adds an item for which there is room.
fn put<T: Drop>(items: &mut Vec<T>, item: T)
    requires { vec_len items.old < vec_capacity items.old }
    ensures { items.new.items ≡ items.old.items ++ item ∷ [] }
{
    let _ = items.push(item);
}

// Writes the cell of a list, in rows by Land.
fn write_cell(rows: &mut Vec<Vec<Cell>>, land: usize, party: usize, votes: ListVotes)
    requires land { land < vec_len rows.old }
    requires party { party < length (slice_index_or (map (λ row. row.items) rows.old.items) land []) }
    requires votes { IsListVotes votes }
    ensures { let cells = map (λ row. row.items) rows.old.items in
        map (λ row. row.items) rows.new.items ≡ slice_set cells land (slice_set (slice_index_or cells land []) party (Some votes)) }
{
    let row = &mut rows[land];
    row[party] = Cell::of(votes);
}

impl Returns {
    ghost use Rattle.sl_law_meaning.specs.returns.Election.{Election, IsElection, IsWin, lands_of, parties_of, wins_of, list_at, has_list, with_house, with_land, with_party, with_list, with_win, with_slate, with_lot};

    /// Sets the house, in seats. Takes no memory.
    pub fn set_house(&mut self, seats: u32)
        requires least { 1 ≤ seats }
        requires most { seats ≤ MAX_SEATS }
        ensures { self.new ≡ with_house self.old seats }
    {
        self.house = Some(seats);
    }

    /// Adds a Land with its people.
    ///
    /// # Errors
    ///
    /// Out of memory. The returns are then unchanged.
    pub fn add_land(&mut self, name: &[u8], population: u32) -> Result<(), NoMemory>
        requires name { name_fault (record { limit = MAX_LANDS; names = self.old.land_names }) name.now ≡ None }
        requires population { population ≤ MAX_VOTES }
        ensures added { OnOk result (self.new ≡ with_land self.old name.now population) }
        ensures unchanged { OnErr result (self.new ≡ self.old) }
    {
        let row = blank_row(self.alloc)?;
        make_room(&mut self.lands, MAX_LANDS)?;
        make_room(&mut self.populations, MAX_LANDS)?;
        make_room(&mut self.rows, MAX_LANDS)?;
        put(&mut self.lands, Label::new(name));
        put(&mut self.populations, population);
        put(&mut self.rows, row);
        Ok(())
    }

    /// Adds a party, and whether it is one of a national minority.
    ///
    /// # Errors
    ///
    /// Out of memory. The returns are then unchanged.
    pub fn add_party(&mut self, name: &[u8], minority: bool) -> Result<(), NoMemory>
        requires { name_fault (record { limit = MAX_PARTIES; names = self.old.party_names }) name.now ≡ None }
        ensures added { OnOk result (self.new ≡ with_party self.old name.now minority) }
        ensures unchanged { OnErr result (self.new ≡ self.old) }
    {
        make_room(&mut self.parties, MAX_PARTIES)?;
        make_room(&mut self.minorities, MAX_PARTIES)?;
        put(&mut self.parties, Label::new(name));
        put(&mut self.minorities, minority);
        Ok(())
    }

    /// Adds the list of a party in a Land, with its valid votes and its counted ones. Takes no memory: the list's cell
    /// stands since the Land was added.
    ///
    /// # Errors
    ///
    /// None comes.
    pub fn add_list(
        &mut self,
        land: usize,
        party: usize,
        valid: u32,
        counted: u32,
    ) -> Result<(), NoMemory>
        requires land { land < lands_of self.old }
        requires party { party < parties_of self.old }
        requires new { has_list self.old land party ≡ false }
        requires counted { counted ≤ valid }
        requires valid { valid ≤ MAX_VOTES }
        ensures succeeds { IsOk result }
        ensures added { self.new ≡ with_list self.old land party (record { valid = valid; counted = counted; slate = None }) }
        ensures listed { list_at self.new land party ≡ Some (record { valid = valid; counted = counted; slate = None }) }
    {
        let votes = ListVotes {
            valid,
            counted,
            slate: None,
        };
        write_cell(&mut self.rows, land, party, votes);
        Ok(())
    }

    /// Adds the winner of a constituency: the Land, the party, if there is one, the constituency, the winner's first
    /// votes and all valid first votes.
    ///
    /// # Errors
    ///
    /// Out of memory. The returns are then unchanged.
    pub fn add_win(
        &mut self,
        land: usize,
        party: Option<usize>,
        name: &[u8],
        first: u32,
        valid: u32,
    ) -> Result<(), NoMemory>
        requires land { land < lands_of self.old }
        requires party { ForSome party (λ p. p < parties_of self.old) }
        requires name { name_fault (record { limit = MAX_WINS; names = self.old.win_names }) name.now ≡ None }
        requires least { 1 ≤ first }
        requires most { first ≤ valid }
        requires valid { valid ≤ MAX_VOTES }
        ensures added { OnOk result (self.new ≡ with_win self.old name.now (record { land = land; party = party; first = first; valid = valid })) }
        ensures unchanged { OnErr result (self.new ≡ self.old) }
    {
        make_room(&mut self.winners, MAX_WINS)?;
        make_room(&mut self.wins, MAX_WINS)?;
        put(&mut self.winners, Label::new(name));
        let win = Win {
            land,
            party,
            first,
            valid,
        };
        put(&mut self.wins, win);
        Ok(())
    }

    /// Sets the number of names left on a list. Takes no memory.
    pub fn set_slate(&mut self, land: usize, party: usize, names: u32)
        requires land { land < lands_of self.old }
        requires party { party < parties_of self.old }
        requires list { has_list self.old land party ≡ true }
        requires names { names ≤ MAX_SLATE }
        ensures { self.new ≡ with_slate self.old land party names }
    {
        let told = ListVotes {
            valid: self.valid(land, party),
            counted: self.counted(land, party),
            slate: Some(names),
        };
        write_cell(&mut self.rows, land, party, told);
    }

    /// Adds a lot: the Land and the party that it names, the stage, or `seats`, and with `seats` the winner.
    ///
    /// # Errors
    ///
    /// Out of memory. The returns are then unchanged.
    pub fn add_lot(
        &mut self,
        land: Option<usize>,
        party: Option<usize>,
        stage: &[u8],
        win: Option<usize>,
    ) -> Result<(), NoMemory>
        requires land { ForSome land (λ n. n < lands_of self.old) }
        requires party { ForSome party (λ n. n < parties_of self.old) }
        requires stage { spelling_fault stage.now ≡ None }
        requires win { ForSome win (λ n. n < wins_of self.old) }
        requires room { length self.old.lots < MAX_LOTS }
        ensures added { OnOk result (self.new ≡ with_lot self.old (record { land = land; party = party; stage = stage.now; win = win })) }
        ensures unchanged { OnErr result (self.new ≡ self.old) }
    {
        make_room(&mut self.lots, 1)?;
        let lot = Lot {
            land,
            party,
            stage: Label::new(stage),
            win,
        };
        put(&mut self.lots, lot);
        Ok(())
    }
}
