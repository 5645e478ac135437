//! Columns: their cells at the cursors, zeros, and columns of the returns.

ghost use Rattle.std.specs.Prelude.{◌≡◌, ◌<◌, ◌≤◌, ◌+◌, ℕ, Option, Some, IsSome, IfOk, length, map, slice_get, slice_index};
ghost use Rattle.std.specs.List.{range_with_len};
ghost use Rattle.sl_code_semantics.specs.declared.known.TheConstants.{REGISTERS};
ghost use Rattle.sl_code_semantics.specs.Needs.{input_shape};
ghost use Rattle.sl_code_instructions.specs.declared.instr.Instr.TheVariants as instr;
ghost use Rattle.sl_law_meaning.specs.declared.election.ListVotes.{ListVotes};
ghost use Rattle.sl_law_meaning.specs.returns.Election.{IsElection, parties_of};
ghost use Rattle.sl_law_meaning.specs.returns.Votes.{slate_in};
ghost use Rattle.sl_code_semantics.specs.State.{with_column};
ghost use Rattle.sl_code_semantics.specs.Places.{cells_of};
ghost use Rattle.sl_code_semantics.specs.Effects.{Goes, effect, input_of, names_or_most};
ghost use Rattle.sl_code_semantics.specs.Safe.{IsInRange};
ghost use Rattle.sl_code_semantics.specs.Seen.{place_at};
ghost use Rattle.sl_code_steps.specs.inner.Columns.{IsListAt};
ghost use Rattle.sl_code_steps.specs.inner.Stores.{state_of, sizes_of, sizes_for, effect_of};

use crate::column::MOST_CELLS;
use crate::step::Effect;
use crate::store::Store;
use sl_base_quotients::NoMemory;
use sl_code_instructions::{Code, Input};
use sl_stages::Returns;

// A list, by the numbers of its Land and its party.
#[derive(Clone, Copy)]
struct ListAt {
    land: usize,
    party: usize,
}

impl ListAt {
    // The list whose cell is the one after this one's, among so many parties.
    fn next(self, parties: usize) -> ListAt
        requires land { self.land < MOST_CELLS }
        requires party { self.party < MOST_CELLS }
        ensures next { (place : ℕ) → IsListAt parties place self → IsListAt parties (place + 1) result }
        ensures land { result.land ≤ self.land + 1 }
        ensures party { result.party ≤ self.party + 1 }
    {
        let party = self.party + 1;
        if party == parties {
            ListAt {
                land: self.land + 1,
                party: 0,
            }
        } else {
            ListAt {
                land: self.land,
                party,
            }
        }
    }
}

// A cell of a column of the returns. Where it is a column of lists, the list is that of the place.
fn input_cell(returns: &Returns, input: Input, place: usize, list: ListAt) -> u64
    requires place { place < cells_of returns.now (input_shape input) }
    requires list { IsListAt (parties_of returns.now) place list }
    ensures { result ≡ input_of returns.now input place }
{
    match input {
        Input::Valid => u64::from(returns.valid(list.land, list.party)),
        Input::Counted => u64::from(returns.counted(list.land, list.party)),
        Input::Minority => u64::from(returns.minority(place)),
        Input::Population => u64::from(returns.population(place)),
        Input::Names => names_or_most(returns.slate(list.land, list.party)),
    }
}

// The number of names that are left, and the greatest number where it is not given.
fn names_or_most(names: Option<u32>) -> u64
    ensures { (votes : Option ListVotes) → names ≡ slate_in votes → result ≡ names_or_most votes }
{
    match names {
        Some(names) => u64::from(names),
        None => u64::MAX,
    }
}

// Makes cells those of a column of the returns.
pub(crate) fn read_input(column: &mut [u64], returns: &Returns, input: Input)
    requires { length column.old ≡ cells_of returns.now (input_shape input) }
    ensures { column.new ≡ map (input_of returns.now input) (range_with_len 0 (cells_of returns.now (input_shape input))) }
{
    let parties = returns.parties();
    let mut list = ListAt { land: 0, party: 0 };
    for (place, cell) in column.iter_mut().enumerate() {
        *cell = input_cell(returns, input, place, list);
        list = list.next(parties);
    }
}

impl Store {
    // The place of a slot's column at the cursors.
    fn place(&self, code: &Code, returns: &Returns, slot: u8) -> usize
        requires there { IsSome (place_at code.now returns.now slot (state_of self.now)) }
        requires range { IsInRange returns.now (state_of self.now) }
        requires parties { (sizes_of self.now).parties ≡ parties_of returns.now }
        ensures value { place_at code.now returns.now slot (state_of self.now) ≡ Some result }
        ensures slot { slot < length (sizes_for code.now returns.now).columns }
        ensures within { result < slice_index (sizes_for code.now returns.now).columns slot }
    {
        let shape = code.slots()[usize::from(slot)];
        self.cell_index(returns, shape)
    }

    // A cell of a column.
    fn cell(&self, slot: u8, place: usize) -> u64
        requires slot { slot < length (sizes_of self.now).columns }
        requires place { place < slice_index (sizes_of self.now).columns slot }
        ensures { result ≡ (state_of self.now).columns slot place }
    {
        self.columns[usize::from(slot)].number(place)
    }

    /// Sets a register to a column's cell.
    pub(crate) fn get_cell(
        &mut self,
        code: &Code,
        returns: &Returns,
        register: u8,
        slot: u8,
    ) -> Effect
        requires register { register < REGISTERS }
        requires there { IsSome (place_at code.now returns.now slot (state_of self.old)) }
        requires range { IsInRange returns.now (state_of self.old) }
        requires sizes { sizes_of self.old ≡ sizes_for code.now returns.now }
        ensures follows { effect_of result (state_of self.new) ≡ effect code.now returns.now (instr.Get register slot) (state_of self.old) }
        ensures kept { sizes_of self.new ≡ sizes_of self.old }
    {
        let place = self.place(code, returns, slot);
        self.set(register, self.cell(slot, place))
    }

    /// Sets a column's cell to a register.
    pub(crate) fn store_cell(
        &mut self,
        code: &Code,
        returns: &Returns,
        slot: u8,
        register: u8,
    ) -> Result<Effect, NoMemory>
        requires register { register < REGISTERS }
        requires there { IsSome (place_at code.now returns.now slot (state_of self.old)) }
        requires range { IsInRange returns.now (state_of self.old) }
        requires sizes { sizes_of self.old ≡ sizes_for code.now returns.now }
        ensures follows { IfOk result (λ next. effect_of next (state_of self.new) ≡ effect code.now returns.now (instr.Store slot register) (state_of self.old)) }
        ensures kept { sizes_of self.new ≡ sizes_of self.old }
    {
        let place = self.place(code, returns, slot);
        let value = self.register(register);
        let column = &mut self.columns[usize::from(slot)];
        column.put(place, value)?;
        Ok(Effect::Goes)
    }

    /// Makes a column 0.
    pub(crate) fn zero_column(&mut self, slot: u8) -> Effect
        requires { slot < length (sizes_of self.old).columns }
        ensures follows { effect_of result (state_of self.new) ≡ Goes (with_column slot (λ place. 0) (state_of self.old)) }
        ensures kept { sizes_of self.new ≡ sizes_of self.old }
    {
        let column = &mut self.columns[usize::from(slot)];
        column.clear();
        Effect::Goes
    }

    /// Makes a column one of the returns'.
    pub(crate) fn input_column(
        &mut self,
        returns: &Returns,
        slot: u8,
        input: Input,
    ) -> Result<(), NoMemory>
        requires election { IsElection returns.now }
        requires width { slice_get (sizes_of self.old).columns slot ≡ Some (cells_of returns.now (input_shape input)) }
        ensures follows { IfOk result (λ done. Goes (state_of self.new) ≡ Goes (with_column slot (input_of returns.now input) (state_of self.old))) }
        ensures kept { sizes_of self.new ≡ sizes_of self.old }
    {
        let column = &mut self.columns[usize::from(slot)];
        column.read(returns, input)?;
        Ok(())
    }
}
