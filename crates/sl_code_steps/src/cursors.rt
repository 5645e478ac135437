//! The cursors: what they stand at, and how they move.

ghost use Rattle.std.specs.Prelude.{◌≡◌, ◌<◌, ◌+◌, ◌*◌, Some, IsSome, if◌then◌else◌};
ghost use Rattle.sl_code_semantics.specs.declared.known.TheConstants.{REGISTERS};
ghost use Rattle.sl_code_instructions.specs.Codes.{CountingCode};
ghost use Rattle.sl_code_instructions.specs.declared.instr.Instr.TheVariants as instr;
ghost use Rattle.sl_law_meaning.specs.returns.Election.{IsElection, lands_of, parties_of, wins_of, has_list};
ghost use Rattle.sl_code_semantics.specs.Places.{both, cells_of, cell_at, index_at, scope_at, item_of, at_entry};
ghost use Rattle.sl_code_semantics.specs.Effects.{Goes, Jumps, effect, given, with_party, with_land, with_win, winner_at, first_of, next_of, to_party};
ghost use Rattle.sl_code_semantics.specs.Safe.{IsInRange, entries_in};
ghost use Rattle.sl_code_steps.specs.inner.Stores.{state_of, sizes_of, effect_of, IsTo};

use crate::step::Effect;
use crate::store::Store;
use sl_code_instructions::{Entries, ScopeKind};
use sl_stages::{Item, Returns, Scope, Shape};

/// The item that an entry of the table of that number is.
pub(crate) fn item_of(returns: &Returns, entries: Entries, index: usize) -> Item
    requires { index < entries_in returns.now entries }
    ensures { result ≡ item_of returns.now entries index }
{
    match entries {
        Entries::Party => Item::Party(index),
        Entries::Land => Item::Land(index),
        Entries::List => Item::List(index / returns.parties(), index % returns.parties()),
        Entries::Win => Item::Win(index),
    }
}

impl Store {
    // The number of the list at the cursors of the Land and the party, which are set.
    fn list_index(&self, returns: &Returns) -> usize
        requires land { IsSome (state_of self.now).land }
        requires party { IsSome (state_of self.now).party }
        requires range { IsInRange returns.now (state_of self.now) }
        ensures value { let s = state_of self.now in both s.land s.party (λ land party. land * parties_of returns.now + party) ≡ Some result }
        ensures within { result < lands_of returns.now * parties_of returns.now }
    {
        self.cursors.cells.cell(Shape::Land) * returns.parties()
            + self.cursors.cells.cell(Shape::Party)
    }

    /// The cell of a column of that shape at the cursors, of which those of its shape are set: a read of a cell tests none. Only the contract reads the returns.
    pub(crate) fn cell_index(&self, returns: &Returns, shape: Shape) -> usize
        requires set { IsSome (cell_at returns.now shape (state_of self.now)) }
        requires range { IsInRange returns.now (state_of self.now) }
        requires parties { (sizes_of self.now).parties ≡ parties_of returns.now }
        ensures value { cell_at returns.now shape (state_of self.now) ≡ Some result }
        ensures within { result < cells_of returns.now shape }
    {
        self.cursors.cells.cell(shape)
    }

    /// The number of the table's entry at the cursors, of which those of such entries are set.
    pub(crate) fn entry_index(&self, returns: &Returns, entries: Entries) -> usize
        requires set { IsSome (index_at returns.now entries (state_of self.now)) }
        requires range { IsInRange returns.now (state_of self.now) }
        ensures value { index_at returns.now entries (state_of self.now) ≡ Some result }
        ensures within { result < entries_in returns.now entries }
    {
        match entries {
            Entries::Party => self.cursors.cells.cell(Shape::Party),
            Entries::Land => self.cursors.cells.cell(Shape::Land),
            Entries::List => self.list_index(returns),
            Entries::Win => self.cursors.win.place(),
        }
    }

    /// The scope at the cursors.
    pub(crate) fn scope(&self, kind: ScopeKind) -> Option<Scope>
        ensures { result ≡ scope_at kind (state_of self.now) }
    {
        match kind {
            ScopeKind::All => Some(Scope::All),
            ScopeKind::Land => Some(Scope::Land(self.cursors.cells.land()?)),
            ScopeKind::Party => Some(Scope::Party(self.cursors.cells.party()?)),
            ScopeKind::List => Some(Scope::List(
                self.cursors.cells.land()?,
                self.cursors.cells.party()?,
            )),
        }
    }

    /// Moves the cursors to the table's entry of that number.
    pub(crate) fn move_to(&mut self, returns: &Returns, entries: Entries, index: usize)
        requires index { index < entries_in returns.now entries }
        requires parties { (sizes_of self.old).parties ≡ parties_of returns.now }
        requires election { IsElection returns.now }
        ensures state { state_of self.new ≡ at_entry returns.now entries index (state_of self.old) }
        ensures table { self.new.table ≡ self.old.table }
        ensures kept { sizes_of self.new ≡ sizes_of self.old }
    {
        match entries {
            Entries::Party => self.cursors.cells.set_party(index),
            Entries::Land => self.cursors.cells.set_land(index),
            Entries::List => self.cursors.cells.set_list(index),
            Entries::Win => self.cursors.win.set(index),
        }
    }

    /// Jumps where the Land and the party have no list.
    pub(crate) fn jump_without_list(&self, returns: &Returns, target: u32) -> Effect
        requires land { IsSome (state_of self.now).land }
        requires party { IsSome (state_of self.now).party }
        requires range { IsInRange returns.now (state_of self.now) }
        ensures follows { let s = state_of self.now in
            effect_of result s ≡ given (both s.land s.party (has_list returns.now)) (λ there. if there then Goes s else Jumps s) }
        ensures target { IsTo target result }
    {
        let land = self.cursors.cells.cell(Shape::Land);
        let party = self.cursors.cells.cell(Shape::Party);
        if returns.is_list(land, party) {
            Effect::Goes
        } else {
            Effect::Jumps(target)
        }
    }

    /// Sets a register to the house of the returns, if they give one.
    pub(crate) fn set_house(&mut self, returns: &Returns, register: u8) -> Effect
        requires { register < REGISTERS }
        ensures follows { (c : CountingCode) → effect_of result (state_of self.new) ≡ effect c returns.now (instr.House register) (state_of self.old) }
        ensures kept { sizes_of self.new ≡ sizes_of self.old }
    {
        match returns.house() {
            Some(seats) => self.set(register, u64::from(seats)),
            None => Effect::Goes,
        }
    }

    /// Moves to the winner's party.
    pub(crate) fn to_winners_party(&mut self, returns: &Returns, target: u32) -> Effect
        requires win { IsSome (state_of self.old).win }
        requires election { IsElection returns.now }
        requires range { IsInRange returns.now (state_of self.old) }
        ensures follows { let s = state_of self.old in effect_of result (state_of self.new) ≡ given (winner_at returns.now s) (λ w. to_party w.party s) }
        ensures target { IsTo target result }
        ensures kept { sizes_of self.new ≡ sizes_of self.old }
    {
        let winner = returns.win(self.cursors.win.place());
        match winner.party {
            Some(party) => {
                self.cursors.cells.set_party(party);
                Effect::Goes
            }
            None => {
                self.cursors.cells.clear_party();
                Effect::Jumps(target)
            }
        }
    }

    /// Moves to the winner's Land.
    pub(crate) fn to_winners_land(&mut self, returns: &Returns) -> Effect
        requires win { IsSome (state_of self.old).win }
        requires election { IsElection returns.now }
        requires range { IsInRange returns.now (state_of self.old) }
        ensures follows { let s = state_of self.old in effect_of result (state_of self.new) ≡ given (winner_at returns.now s) (λ w. Goes (with_land (Some w.land) s)) }
        ensures kept { sizes_of self.new ≡ sizes_of self.old }
    {
        let winner = returns.win(self.cursors.win.place());
        self.cursors.cells.set_land(winner.land);
        Effect::Goes
    }

    /// Moves to the first party.
    pub(crate) fn first_party(&mut self, returns: &Returns, target: u32) -> Effect
        ensures follows { effect_of result (state_of self.new) ≡ first_of (parties_of returns.now) with_party (state_of self.old) }
        ensures target { IsTo target result }
        ensures kept { sizes_of self.new ≡ sizes_of self.old }
    {
        if returns.parties() > 0 {
            self.cursors.cells.set_party(0);
            Effect::Goes
        } else {
            self.cursors.cells.clear_party();
            Effect::Jumps(target)
        }
    }

    /// Moves to the next party.
    pub(crate) fn next_party(&mut self, returns: &Returns, target: u32) -> Effect
        requires party { IsSome (state_of self.old).party }
        requires range { IsInRange returns.now (state_of self.old) }
        ensures follows { let s = state_of self.old in effect_of result (state_of self.new) ≡ next_of (parties_of returns.now) s.party with_party s }
        ensures target { IsTo target result }
        ensures kept { sizes_of self.new ≡ sizes_of self.old }
    {
        let count = returns.parties();
        let next = self.cursors.cells.cell(Shape::Party) + 1;
        if next < count {
            self.cursors.cells.move_party_on(next);
            Effect::Jumps(target)
        } else {
            self.cursors.cells.clear_party();
            Effect::Goes
        }
    }

    /// Moves to the first Land.
    pub(crate) fn first_land(&mut self, returns: &Returns, target: u32) -> Effect
        ensures follows { effect_of result (state_of self.new) ≡ first_of (lands_of returns.now) with_land (state_of self.old) }
        ensures target { IsTo target result }
        ensures kept { sizes_of self.new ≡ sizes_of self.old }
    {
        if returns.lands() > 0 {
            self.cursors.cells.set_land(0);
            Effect::Goes
        } else {
            self.cursors.cells.clear_land();
            Effect::Jumps(target)
        }
    }

    /// Moves to the next Land.
    pub(crate) fn next_land(&mut self, returns: &Returns, target: u32) -> Effect
        requires land { IsSome (state_of self.old).land }
        requires range { IsInRange returns.now (state_of self.old) }
        ensures follows { let s = state_of self.old in effect_of result (state_of self.new) ≡ next_of (lands_of returns.now) s.land with_land s }
        ensures target { IsTo target result }
        ensures kept { sizes_of self.new ≡ sizes_of self.old }
    {
        let count = returns.lands();
        let next = self.cursors.cells.cell(Shape::Land) + 1;
        if next < count {
            self.cursors.cells.move_land_on(next);
            Effect::Jumps(target)
        } else {
            self.cursors.cells.clear_land();
            Effect::Goes
        }
    }

    /// Moves to the first winner.
    pub(crate) fn first_win(&mut self, returns: &Returns, target: u32) -> Effect
        ensures follows { effect_of result (state_of self.new) ≡ first_of (wins_of returns.now) with_win (state_of self.old) }
        ensures target { IsTo target result }
        ensures kept { sizes_of self.new ≡ sizes_of self.old }
    {
        if returns.wins() > 0 {
            self.cursors.win.set(0);
            Effect::Goes
        } else {
            self.cursors.win.clear();
            Effect::Jumps(target)
        }
    }

    /// Moves to the next winner.
    pub(crate) fn next_win(&mut self, returns: &Returns, target: u32) -> Effect
        requires win { IsSome (state_of self.old).win }
        requires range { IsInRange returns.now (state_of self.old) }
        ensures follows { let s = state_of self.old in effect_of result (state_of self.new) ≡ next_of (wins_of returns.now) s.win with_win s }
        ensures target { IsTo target result }
        ensures kept { sizes_of self.new ≡ sizes_of self.old }
    {
        let count = returns.wins();
        let next = self.cursors.win.place() + 1;
        if next < count {
            self.cursors.win.move_on(next);
            Effect::Jumps(target)
        } else {
            self.cursors.win.clear();
            Effect::Goes
        }
    }
}
