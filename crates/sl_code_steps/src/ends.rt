//! Winners who are seated, and the ends of a run.

ghost use Rattle.std.specs.Prelude.{◌≡◌, ◌<◌, None, Some, IsTrue, IsSome, IfOk, length};
ghost use Rattle.std.specs.Option.{option_and_then};
ghost use Rattle.sl_code_semantics.specs.declared.known.TheConstants.{REGISTERS};
ghost use Rattle.sl_code_semantics.specs.Needs.{has_stage};
ghost use Rattle.sl_code_semantics.specs.WellKinded.{context_of};
ghost use Rattle.sl_code_instructions.specs.Codes.{CountingCode};
ghost use Rattle.sl_code_instructions.specs.declared.instr.Instr.TheVariants as instr;
ghost use Rattle.sl_base_rankings.specs.Peers.{top};
ghost use Rattle.sl_law_meaning.specs.returns.Election.{Election, IsElection, wins_of};
ghost use Rattle.sl_code_semantics.specs.State.{State, Halted, with_place};
ghost use Rattle.sl_code_semantics.specs.Places.{scope_at};
ghost use Rattle.sl_code_semantics.specs.Effects.{Goes, Ends, effect, faults, kind_of};
ghost use Rattle.sl_code_semantics.specs.Safe.{IsInRange};
ghost use Rattle.sl_code_steps.specs.inner.Stores.{state_of, sizes_of, effect_of, end_with};

use crate::records::stage_number;
use crate::step::{Effect, End};
use crate::store::Store;
use sl_base_quotients::NoMemory;
use sl_code_instructions::{Code, EndFault, ScopeKind};
use sl_stages::{FaultKind, Items, LegalFault, Placed, Returns};

/// Ends with the seats of the lists.
pub(crate) fn halt(slot: u8) -> End
    ensures { (s : State) → end_with result s ≡ Halted slot None s }
{
    End::Halted {
        base: usize::from(slot),
        vacant: None,
    }
}

/// Ends with the seats of the lists, and with the vacant ones.
pub(crate) fn halt_with_vacant(slot: u8, vacant: u8) -> End
    ensures { (s : State) → end_with result s ≡ Halted slot (Some vacant) s }
{
    End::Halted {
        base: usize::from(slot),
        vacant: Some(usize::from(vacant)),
    }
}

// The kind of a legal fault without names.
fn kind_of(fault: EndFault) -> FaultKind
    ensures { result ≡ kind_of fault }
{
    match fault {
        EndFault::Limit => FaultKind::Limit,
        EndFault::Short => FaultKind::Short,
        EndFault::NoList => FaultKind::NoList,
        EndFault::Majority => FaultKind::Majority,
        EndFault::Cap => FaultKind::Cap,
    }
}

impl Store {
    // Ends with a legal fault of that kind.
    fn fault(&self, code: &Code, stage: u8, scope: ScopeKind, kind: FaultKind) -> End
        requires stage { IsTrue (has_stage (context_of code.now) stage) }
        requires scope { IsSome (scope_at scope (state_of self.now)) }
        ensures { (e : Election) → Ends (end_with result (state_of self.now)) ≡ faults code.now e stage scope kind (state_of self.now) }
    {
        End::Faulted(LegalFault {
            stage: stage_number(code, stage),
            scope: self.scope(scope).unwrap(),
            kind,
        })
    }

    /// Ends with a legal fault without names.
    pub(crate) fn end_with_fault(
        &self,
        code: &Code,
        stage: u8,
        scope: ScopeKind,
        fault: EndFault,
    ) -> End
        requires stage { IsTrue (has_stage (context_of code.now) stage) }
        requires scope { IsSome (scope_at scope (state_of self.now)) }
        ensures { (e : Election) → Ends (end_with result (state_of self.now)) ≡ effect code.now e (instr.Fault stage scope fault) (state_of self.now) }
    {
        self.fault(code, stage, scope, kind_of(fault))
    }

    /// Ends with a tie among the peers, which are taken off the table.
    pub(crate) fn end_with_tie(
        &mut self,
        code: &Code,
        returns: &Returns,
        stage: u8,
        scope: ScopeKind,
        seats: u8,
    ) -> Result<End, NoMemory>
        requires stage { IsTrue (has_stage (context_of code.now) stage) }
        requires scope { IsSome (scope_at scope (state_of self.old)) }
        requires seats { seats < REGISTERS }
        requires top { IsSome (option_and_then (λ t. top t.contents) self.old.table.on) }
        requires range { IsInRange returns.now (state_of self.old) }
        ensures follows { IfOk result (λ end. Ends (end_with end (state_of self.new))
            ≡ effect code.now returns.now (instr.Tie stage scope seats) (state_of self.old)) }
        ensures kept { sizes_of self.new ≡ sizes_of self.old }
    {
        let names = Items::new(self.table.take_peers(self.alloc, returns)?);
        let seats = self.register(seats);
        Ok(self.fault(code, stage, scope, FaultKind::Tie { seats, names }))
    }

    // Seats the winner of that number so.
    fn put_winner(&mut self, win: usize, place: Placed)
        requires { win < length self.old.placed.items }
        ensures state { state_of self.new ≡ with_place win place (state_of self.old) }
        ensures kept { sizes_of self.new ≡ sizes_of self.old }
    {
        self.placed[win] = place;
    }

    /// Seats the winner on the list of the Land and the party, if there is one.
    pub(crate) fn seat_on_list(&mut self, returns: &Returns) -> Effect
        requires win { IsSome (state_of self.old).win }
        requires election { IsElection returns.now }
        requires range { IsInRange returns.now (state_of self.old) }
        requires sizes { (sizes_of self.old).winners ≡ wins_of returns.now }
        ensures follows { (c : CountingCode) → effect_of result (state_of self.new) ≡ effect c returns.now instr.Seat (state_of self.old) }
        ensures kept { sizes_of self.new ≡ sizes_of self.old }
    {
        let win = self.cursors.win.place();
        let winner = returns.win(win);
        if let Some(party) = winner.party
            && returns.is_list(winner.land, party)
        {
            self.put_winner(win, Placed::OnList);
        }
        Effect::Goes
    }

    /// Seats the winner as a single.
    pub(crate) fn seat_as_single(&mut self, returns: &Returns) -> Effect
        requires win { IsSome (state_of self.old).win }
        requires range { IsInRange returns.now (state_of self.old) }
        requires sizes { (sizes_of self.old).winners ≡ wins_of returns.now }
        ensures follows { (c : CountingCode) → effect_of result (state_of self.new) ≡ effect c returns.now instr.Single (state_of self.old) }
        ensures kept { sizes_of self.new ≡ sizes_of self.old }
    {
        let win = self.cursors.win.place();
        self.put_winner(win, Placed::Single);
        Effect::Goes
    }
}
