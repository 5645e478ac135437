//! Instructions on the priority table: entries that go in, and those that are taken.

ghost use Rattle.std.specs.Prelude.{◌≡◌, ◌<◌, ◌+◌, min, IsTrue, IsSome, IfOk};
ghost use Rattle.std.specs.Option.{ForSome, option_and_then};
ghost use Rattle.sl_base_quotients.specs.Quotient.{quotient};
ghost use Rattle.sl_base_quotients.specs.declared.limits.TheConstants.{MAX_WEIGHT, MAX_SEATS};
ghost use Rattle.sl_code_semantics.specs.declared.known.TheConstants.{REGISTERS};
ghost use Rattle.sl_code_semantics.specs.Needs.{has_stage};
ghost use Rattle.sl_code_semantics.specs.WellKinded.{context_of};
ghost use Rattle.sl_code_instructions.specs.Codes.{CountingCode};
ghost use Rattle.sl_code_instructions.specs.declared.instr.Instr.TheVariants as instr;
ghost use Rattle.sl_code_instructions.specs.declared.operand.Ranking.TheVariants as ranking;
ghost use Rattle.sl_base_rankings.specs.Peers.{top};
ghost use Rattle.sl_law_meaning.specs.returns.Election.{Election, IsElection, parties_of};
ghost use Rattle.sl_code_semantics.specs.Places.{at_entry};
ghost use Rattle.sl_code_semantics.specs.Effects.{Goes, effect, given, winner_at};
ghost use Rattle.sl_code_semantics.specs.Safe.{IsInRange, entries_in};
ghost use Rattle.sl_code_steps.specs.inner.Lots.{lots_for};
ghost use Rattle.sl_code_semantics.specs.Seen.{entry_at, puts_in};
ghost use Rattle.sl_code_steps.specs.inner.Stores.{state_of, sizes_of, effect_of, IsTo};
ghost use Rattle.sl_code_steps.specs.inner.Tables.{FitsMark};

use crate::priority::Taken;
use crate::records::stage_number;
use crate::step::Effect;
use crate::store::Store;
use sl_base_quotients::{Divisor, Entry, MAX_SEATS, MAX_WEIGHT, NoMemory, Ratio};
use sl_code_instructions::{Code, Entries, Ranking};
use sl_stages::Returns;

impl Store {
    /// Puts the table on, without entries.
    pub(crate) fn open_table(&mut self, entries: Entries, ranking: Ranking) -> Effect
        ensures follows { (c : CountingCode) (e : Election) → effect_of result (state_of self.new) ≡ effect c e (instr.Table entries ranking) (state_of self.old) }
        ensures kept { sizes_of self.new ≡ sizes_of self.old }
    {
        self.table.open(entries, ranking);
        Effect::Goes
    }

    // Enters the cursors' entry.
    fn enter(&mut self, returns: &Returns, ratio: Ratio) -> Result<(), NoMemory>
        requires entry { IsSome (entry_at returns.now (state_of self.old)) }
        requires election { IsElection returns.now }
        requires fits { ForSome self.old.table.on (λ t. FitsMark t.ranking ratio) }
        requires range { IsInRange returns.now (state_of self.old) }
        ensures follows { IfOk result (λ done. Goes (state_of self.new) ≡ puts_in returns.now ratio (state_of self.old)) }
        ensures kept { sizes_of self.new ≡ sizes_of self.old }
    {
        let entries = self.table.entries().unwrap();
        let index = self.entry_index(returns, entries);
        self.table.enter(Entry {
            ratio,
            index: index as u32,
        })?;
        Ok(())
    }

    /// Enters the cursors' entry with the quotient of a method.
    pub(crate) fn enter_quotient(
        &mut self,
        returns: &Returns,
        method: Divisor,
        weight: u8,
        seats: u8,
    ) -> Result<(), NoMemory>
        requires weight { weight < REGISTERS }
        requires seats { seats < REGISTERS }
        requires positive { 0 < (state_of self.old).registers weight }
        requires election { IsElection returns.now }
        requires ranking { ForSome self.old.table.on (λ t. t.ranking ≡ ranking.Quotients) }
        requires entry { IsSome (entry_at returns.now (state_of self.old)) }
        requires range { IsInRange returns.now (state_of self.old) }
        ensures follows { IfOk result (λ done. let s = state_of self.old in Goes (state_of self.new)
            ≡ puts_in returns.now (quotient method (min (s.registers weight) MAX_WEIGHT) (min (s.registers seats) MAX_SEATS)) s) }
        ensures kept { sizes_of self.new ≡ sizes_of self.old }
    {
        let weight = self.register(weight).min(MAX_WEIGHT);
        let seats = self.register(seats).min(u64::from(MAX_SEATS)) as u32;
        self.enter(returns, method.ratio(weight, seats))
    }

    /// Enters the cursors' entry with a remainder.
    pub(crate) fn enter_remainder(
        &mut self,
        returns: &Returns,
        register: u8,
    ) -> Result<(), NoMemory>
        requires register { register < REGISTERS }
        requires election { IsElection returns.now }
        requires entry { IsSome (entry_at returns.now (state_of self.old)) }
        requires range { IsInRange returns.now (state_of self.old) }
        ensures follows { IfOk result (λ done. let s = state_of self.old in Goes (state_of self.new)
            ≡ puts_in returns.now (record { num = s.registers register + 1; den = 1 }) s) }
        ensures kept { sizes_of self.new ≡ sizes_of self.old }
    {
        let remainder = u128::from(self.register(register));
        self.enter(returns, Ratio::new(remainder + 1, 1))
    }

    /// Enters the cursors' entry ahead of all remainders.
    pub(crate) fn enter_lead(&mut self, returns: &Returns) -> Result<(), NoMemory>
        requires election { IsElection returns.now }
        requires entry { IsSome (entry_at returns.now (state_of self.old)) }
        requires range { IsInRange returns.now (state_of self.old) }
        ensures follows { IfOk result (λ done. Goes (state_of self.new) ≡ puts_in returns.now (record { num = 1; den = 0 }) (state_of self.old)) }
        ensures kept { sizes_of self.new ≡ sizes_of self.old }
    {
        self.enter(returns, Ratio::new(1, 0))
    }

    /// Enters the winner with the share of first votes.
    pub(crate) fn enter_share(&mut self, returns: &Returns) -> Result<(), NoMemory>
        requires win { IsSome (state_of self.old).win }
        requires election { IsElection returns.now }
        requires entry { IsSome (entry_at returns.now (state_of self.old)) }
        requires range { IsInRange returns.now (state_of self.old) }
        ensures follows { IfOk result (λ done. let s = state_of self.old in Goes (state_of self.new)
            ≡ given (winner_at returns.now s) (λ w. puts_in returns.now (record { num = w.first; den = w.valid }) s)) }
        ensures kept { sizes_of self.new ≡ sizes_of self.old }
    {
        let winner = returns.win(self.cursors.win.place());
        let share = Ratio::new(u128::from(winner.first), u128::from(winner.valid));
        self.enter(returns, share)
    }

    /// Sets a register to the number of peers, and jumps where there are none.
    pub(crate) fn count_peers(&mut self, register: u8, target: u32) -> Effect
        requires register { register < REGISTERS }
        requires table { IsSome self.old.table.on }
        ensures follows { (c : CountingCode) (e : Election) → effect_of result (state_of self.new) ≡ effect c e (instr.Peers register target) (state_of self.old) }
        ensures target { IsTo target result }
        ensures kept { sizes_of self.new ≡ sizes_of self.old }
    {
        let peers = self.table.peers();
        if peers == 0 {
            Effect::Jumps(target)
        } else {
            self.set(register, peers as u64)
        }
    }

    // Moves the cursors and the mark to an entry that was taken.
    fn move_to_taken(&mut self, returns: &Returns, taken: Taken) -> Effect
        requires taken { taken.index < entries_in returns.now taken.entries }
        requires parties { (sizes_of self.old).parties ≡ parties_of returns.now }
        requires election { IsElection returns.now }
        ensures follows { effect_of result (state_of self.new) ≡ Goes (at_entry returns.now taken.entries taken.index (record (state_of self.old) { mark = taken.mark })) }
        ensures kept { sizes_of self.new ≡ sizes_of self.old }
    {
        self.mark = taken.mark;
        self.move_to(returns, taken.entries, taken.index as usize);
        Effect::Goes
    }

    /// Takes the greatest entry.
    pub(crate) fn take_top(&mut self, returns: &Returns) -> Effect
        requires top { IsSome (option_and_then (λ t. top t.contents) self.old.table.on) }
        requires parties { (sizes_of self.old).parties ≡ parties_of returns.now }
        requires election { IsElection returns.now }
        requires range { IsInRange returns.now (state_of self.old) }
        ensures follows { (c : CountingCode) → effect_of result (state_of self.new) ≡ effect c returns.now instr.Take (state_of self.old) }
        ensures kept { sizes_of self.new ≡ sizes_of self.old }
    {
        let taken = self.table.take();
        self.move_to_taken(returns, taken)
    }

    /// Jumps unless the stage's lot names every peer.
    pub(crate) fn jump_without_lot(&mut self, code: &Code, stage: u8, target: u32) -> Effect
        requires stage { IsTrue (has_stage (context_of code.now) stage) }
        requires top { IsSome (option_and_then (λ t. top t.contents) self.old.table.on) }
        requires lots { (e : Election) × (self.old.table.lots ≡ lots_for code.now e) }
        ensures follows { (e : Election) → self.old.table.lots ≡ lots_for code.now e →
            effect_of result (state_of self.new) ≡ effect code.now e (instr.Lot stage target) (state_of self.old) }
        ensures target { IsTo target result }
        ensures kept { sizes_of self.new ≡ sizes_of self.old }
    {
        if self.table.is_covered(stage_number(code, stage)) {
            Effect::Goes
        } else {
            Effect::Jumps(target)
        }
    }

    /// Takes the peer that the stage's lot draws.
    pub(crate) fn take_drawn(&mut self, code: &Code, returns: &Returns, stage: u8) -> Effect
        requires stage { IsTrue (has_stage (context_of code.now) stage) }
        requires top { IsSome (option_and_then (λ t. top t.contents) self.old.table.on) }
        requires lots { self.old.table.lots ≡ lots_for code.now returns.now }
        requires parties { (sizes_of self.old).parties ≡ parties_of returns.now }
        requires election { IsElection returns.now }
        requires range { IsInRange returns.now (state_of self.old) }
        ensures follows { effect_of result (state_of self.new) ≡ effect code.now returns.now (instr.Takelot stage) (state_of self.old) }
        ensures kept { sizes_of self.new ≡ sizes_of self.old }
    {
        let taken = self.table.take_lot(stage_number(code, stage));
        self.move_to_taken(returns, taken)
    }
}
