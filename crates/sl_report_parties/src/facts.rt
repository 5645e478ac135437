//! The columns that a book can name, of returns.

ghost use Rattle.std.specs.Prelude.{◌≡◌, ◌<◌, ◌∷◌, [], ◌++◌, map, IfOk, OnOk, unwrap_or, IsTrue};
ghost use Rattle.sl_law_meaning.specs.book.Books.{book_of};
ghost use Rattle.sl_law_meaning.specs.book.Typing.{fact_type, is_typed};
ghost use Rattle.sl_law_meaning.specs.returns.Election.{IsElection, IsWin, lands_of, parties_of};
ghost use Rattle.sl_law_meaning.specs.returns.Facts.{is_eligible, is_on_list, by_land, by_list, parties};
ghost use Rattle.sl_law_meaning.specs.meaning.Columns.{fact_column};
ghost use Rattle.sl_report_parties.specs.Parts.{part_of, parts_of};
ghost use Rattle.sl_report_parties.specs.Cells.{list_cell, land_cell};
ghost use Rattle.sl_report_parties.specs.inner.Winners.{AreOnLists, counts};

use crate::parts::PartyPart;
use crate::winners::{Numbered, winners_of_lists, winners_on};
use sl_base_quotients::NoMemory;
use sl_stages::{Book, Column, Fact, Returns, Win};
use std::alloc::Global;

/// A book and returns, with what each party has and meets.
#[derive(Drop)]
pub struct Setting<'a> {
    pub book: &'a Book,
    pub returns: &'a Returns,
    pub parts: Vec<PartyPart>,
    pub ghost typed: { IsTrue (is_typed (book_of book.now)) },
    pub ghost kept: { IsElection returns.now },
    pub ghost told: { parts.items ≡ parts_of book.now.eligible.items returns.now },
}

/// The seats of the house from which a book starts on returns: those that the returns give, or else its own.
pub fn house_of(book: &Book, returns: &Returns) -> u64
    ensures { result ≡ unwrap_or returns.now.house book.now.house.value }
{
    match returns.house() {
        Some(house) => u64::from(house),
        None => u64::from(book.house.value),
    }
}

impl<'a> Setting<'a> {
    /// A book and returns, with what each party has and meets.
    pub fn new(book: &'a Book, returns: &'a Returns, parts: Vec<PartyPart>) -> Setting<'a>
        requires typed { IsTrue (is_typed (book_of book.now)) }
        requires parts { parts.items ≡ parts_of book.now.eligible.items returns.now }
        ensures book { result.book.now ≡ book.now }
        ensures returns { result.returns.now ≡ returns.now }
    {
        // (for what it says of the returns)
        let _lands = returns.lands();
        Setting {
            book,
            returns,
            parts,
        }
    }

    /// What a party has, and which condition it meets.
    pub fn part(&self, party: usize) -> PartyPart
        requires { party < parties_of self.now.returns.now }
        ensures { result ≡ part_of self.now.book.now.eligible.items self.now.returns.now party }
    {
        self.parts[party]
    }

    /// Whether a party takes part.
    pub fn takes_part(&self, party: usize) -> bool
        requires { party < parties_of self.now.returns.now }
        ensures { result ≡ is_eligible self.now.book.now.eligible.items self.now.returns.now party }
    {
        self.part(party).met.is_some()
    }

    /// The seats of the house from which the book starts.
    pub fn house(&self) -> u64
        ensures { result ≡ unwrap_or self.now.returns.now.house self.now.book.now.house.value }
    {
        house_of(self.book, self.returns)
    }

    // Whether a winner is of a party that takes part and has a list in the Land.
    fn is_on_list(&self, win: Win) -> bool
        requires { IsWin (lands_of self.now.returns.now) (parties_of self.now.returns.now) win }
        ensures { result ≡ is_on_list self.now.book.now.eligible.items self.now.returns.now win }
    {
        match win.party {
            Some(party) => self.takes_part(party) && self.returns.is_list(win.land, party),
            None => false,
        }
    }

    // Whether a winner counts for a fact of the winner's Land.
    fn counts(&self, fact: Fact, win: Win) -> bool
        requires { IsWin (lands_of self.now.returns.now) (parties_of self.now.returns.now) win }
        ensures { result ≡ counts self.now.book.now.eligible.items self.now.returns.now fact win }
    {
        match fact {
            Fact::Outside => !self.is_on_list(win),
            Fact::Independents => win.party.is_none(),
            Fact::House | Fact::Counted | Fact::Winners | Fact::Population => false,
        }
    }

    // A fact's number for a list, by the winners of each list.
    fn list_cell(&self, on_lists: &[Vec<Numbered>], fact: Fact, land: usize, party: usize) -> u64
        requires on_lists { AreOnLists self.now.returns.now (map (λ own. own.items) on_lists.now) }
        requires land { land < lands_of self.now.returns.now }
        requires party { party < parties_of self.now.returns.now }
        ensures { result ≡ list_cell self.now.book.now.eligible.items self.now.returns.now fact land party }
    {
        match fact {
            Fact::Counted if self.takes_part(party) => {
                u64::from(self.returns.counted(land, party))
            }
            Fact::Winners if self.takes_part(party) && self.returns.is_list(land, party) => {
                winners_on(self.returns, on_lists, land, party).len() as u64
            }
            _ => 0,
        }
    }

    // The column of a fact of Länder.
    fn land_column(&self, alloc: Global, fact: Fact) -> Result<Vec<u64>, NoMemory>
        ensures { IfOk result (λ cells. cells.items ≡ by_land self.now.returns.now (land_cell self.now.book.now.eligible.items self.now.returns.now fact)) }
    {
        let mut cells = vec![in alloc; 0u64; self.returns.lands()]?;
        for number in 0..self.returns.wins() {
            let win = self.returns.win(number);
            if self.counts(fact, win) {
                cells[win.land] += 1;
            }
        }
        Ok(cells)
    }

    // Adds the numbers of a Land's lists, by the winners of each list.
    fn push_row(
        &self,
        cells: &mut Vec<u64>,
        on_lists: &[Vec<Numbered>],
        fact: Fact,
        land: usize,
    ) -> Result<(), NoMemory>
        requires on_lists { AreOnLists self.now.returns.now (map (λ own. own.items) on_lists.now) }
        requires land { land < lands_of self.now.returns.now }
        ensures { OnOk result (cells.new.items ≡ cells.old.items ++ map (list_cell self.now.book.now.eligible.items self.now.returns.now fact land) (parties self.now.returns.now)) }
    {
        for party in 0..self.returns.parties() {
            cells.push(self.list_cell(on_lists, fact, land, party))?;
        }
        Ok(())
    }

    // The column of a fact of lists.
    fn list_column(&self, alloc: Global, fact: Fact) -> Result<Vec<u64>, NoMemory>
        ensures { IfOk result (λ cells. cells.items ≡ by_list self.now.returns.now (list_cell self.now.book.now.eligible.items self.now.returns.now fact)) }
    {
        let on_lists = winners_of_lists(alloc, self.returns)?;
        let mut cells = Vec::new(alloc);
        for land in 0..self.returns.lands() {
            self.push_row(&mut cells, on_lists.as_slice(), fact, land)?;
        }
        Ok(cells)
    }

    // The people of each Land.
    fn people(&self, alloc: Global) -> Result<Vec<u64>, NoMemory>
        ensures { IfOk result (λ cells. cells.items ≡ self.now.returns.now.populations) }
    {
        let mut cells = Vec::new(alloc);
        for land in 0..self.returns.lands() {
            cells.push(u64::from(self.returns.population(land)))?;
        }
        Ok(cells)
    }

    // The house, as a column of one number.
    fn house_column(&self, alloc: Global) -> Result<Vec<u64>, NoMemory>
        ensures { IfOk result (λ cells. cells.items ≡ unwrap_or self.now.returns.now.house self.now.book.now.house.value ∷ []) }
    {
        let mut cells = Vec::new(alloc);
        cells.push(self.house())?;
        Ok(cells)
    }

    // The numbers of a fact.
    fn cells(&self, alloc: Global, fact: Fact) -> Result<Vec<u64>, NoMemory>
        ensures { IfOk result (λ cells. cells.items ≡ fact_column (book_of self.now.book.now) self.now.returns.now fact) }
    {
        match fact {
            Fact::House => self.house_column(alloc),
            Fact::Counted => self.list_column(alloc, Fact::Counted),
            Fact::Winners => self.list_column(alloc, Fact::Winners),
            Fact::Outside => self.land_column(alloc, Fact::Outside),
            Fact::Independents => self.land_column(alloc, Fact::Independents),
            Fact::Population => self.people(alloc),
        }
    }

    /// The column of a fact.
    pub fn fact(&self, alloc: Global, fact: Fact) -> Result<Column, NoMemory>
        ensures shape { IfOk result (λ c. c.shape ≡ (fact_type fact).shape) }
        ensures cells { IfOk result (λ c. c.cells.items ≡ fact_column (book_of self.now.book.now) self.now.returns.now fact) }
    {
        let cells = self.cells(alloc, fact)?;
        Ok(Column {
            shape: fact.column_type().shape,
            cells,
        })
    }
}
