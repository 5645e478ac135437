//! One step of a run.

ghost use Rattle.std.specs.Prelude.{◌≡◌, IsTrue, IfOk, IfSome, IfNone};
ghost use Rattle.sl_code_instructions.specs.Rows.{target_of};
ghost use Rattle.sl_code_semantics.specs.Needs.{has_columns};
ghost use Rattle.sl_code_semantics.specs.WellKinded.{context_of};
ghost use Rattle.sl_code_semantics.specs.Effects.{Ends, effect};
ghost use Rattle.sl_law_meaning.specs.returns.Election.{IsElection};
ghost use Rattle.sl_code_steps.specs.inner.Recording.{state_by, left_by};
ghost use Rattle.sl_code_steps.specs.declared.step.Records.{Records};
ghost use Rattle.sl_code_semantics.specs.Safe.{MayStep};
ghost use Rattle.sl_code_steps.specs.inner.Ends.{ends_run};
ghost use Rattle.sl_code_steps.specs.inner.Stores.{state_of, sizes_of, sizes_for, effect_of, IsTo, end_with};

use crate::ends::{halt, halt_with_vacant};
use crate::store::Store;
use sl_base_quotients::NoMemory;
use sl_code_instructions::{Code, Instr};
use sl_stages::{LegalFault, Returns};

/// The end that an instruction gives a run.
#[derive(Drop)]
pub enum End {
    /// With the seats of the lists in a slot, and the vacant ones in a slot if one is named.
    Halted { base: usize, vacant: Option<usize> },
    Faulted(LegalFault),
}

/// What an instruction did: the run goes on after it, or at its target, which is given.
#[derive(Clone, Copy)]
pub enum Effect {
    Goes,
    Jumps(u32),
}

/// Whether seat steps and weights are kept.
#[derive(Clone, Copy)]
pub enum Records {
    Kept,
    Dropped,
}

/// A run that keeps its records or drops them: a type for each, so that each has a loop of its own.
pub trait Recording {
    ghost records: { Records };

    /// Which of the two it does.
    fn records() -> Records
        ensures { result ≡ records };
}

/// A run that keeps its records.
pub struct Keeps;

/// A run that drops its records.
pub struct Drops;

impl Recording for Keeps {
    ghost records = { Records.Kept };

    fn records() -> Records {
        Records::Kept
    }
}

impl Recording for Drops {
    ghost records = { Records.Dropped };

    fn records() -> Records {
        Records::Dropped
    }
}

impl Store {
    /// Makes one step, but for an instruction that ends the run: then it does nothing, and answers `None`.
    pub fn step<R: Recording>(
        &mut self,
        code: &Code,
        returns: &Returns,
        instr: &Instr,
    ) -> Result<Option<Effect>, NoMemory>
        requires step { MayStep code.now returns.now instr.now (state_of self.old) }
        requires election { IsElection returns.now }
        requires columns { IsTrue (has_columns (context_of code.now) instr.now) }
        requires sizes { sizes_of self.old ≡ sizes_for code.now returns.now }
        requires records { state_by R.records (state_of self.old) ≡ state_of self.old }
        ensures follows { IfOk result (λ next. IfSome next (λ move. effect_of move (state_of self.new)
            ≡ left_by R.records instr.now (effect code.now returns.now instr.now (state_of self.old)))) }
        ensures target { IfOk result (λ next. IfSome next (λ move. IfSome (target_of instr.now) (λ target. IsTo target move))) }
        ensures ends { IfOk result (λ next. IfNone next (IsTrue (ends_run instr.now) × (self.new ≡ self.old))) }
        ensures kept { sizes_of self.new ≡ sizes_of self.old }
    {
        let effect = match *instr {
            Instr::Set(register, value) => self.set(register, value),
            Instr::Mov(register, from) => self.copy(register, from),
            Instr::Add(register, by) => self.add(register, by),
            Instr::Sub(register, by) => self.subtract(register, by),
            Instr::Mul(register, by) => self.multiply(register, by),
            Instr::Div(register, by) => self.divide(register, by),
            Instr::Rem(register, by) => self.keep_rest(register, by),
            Instr::Max(register, by) => self.keep_greater(register, by),
            Instr::Jmp(target) => Effect::Jumps(target),
            Instr::Jz(register, target) => self.jump_if_zero(register, target),
            Instr::Jlt(left, right, target) => self.jump_if_less(left, right, target),
            Instr::Jnl(target) => self.jump_without_list(returns, target),
            Instr::Get(register, slot) => self.get_cell(code, returns, register, slot),
            Instr::Store(slot, register) => self.store_cell(code, returns, slot, register)?,
            Instr::Zero(slot) => self.zero_column(slot),
            Instr::Input(slot, input) => {
                self.input_column(returns, slot, input)?;
                Effect::Goes
            }
            Instr::House(register) => self.set_house(returns, register),
            Instr::Wparty(target) => self.to_winners_party(returns, target),
            Instr::Wland => self.to_winners_land(returns),
            Instr::Fparty(target) => self.first_party(returns, target),
            Instr::Nparty(target) => self.next_party(returns, target),
            Instr::Fland(target) => self.first_land(returns, target),
            Instr::Nland(target) => self.next_land(returns, target),
            Instr::Fwin(target) => self.first_win(returns, target),
            Instr::Nwin(target) => self.next_win(returns, target),
            Instr::Table(entries, ranking) => self.open_table(entries, ranking),
            Instr::Prio(method, weight, seats) => {
                self.enter_quotient(returns, method, weight, seats)?;
                Effect::Goes
            }
            Instr::Rest(register) => {
                self.enter_remainder(returns, register)?;
                Effect::Goes
            }
            Instr::Lead => {
                self.enter_lead(returns)?;
                Effect::Goes
            }
            Instr::Share => {
                self.enter_share(returns)?;
                Effect::Goes
            }
            Instr::Peers(register, target) => self.count_peers(register, target),
            Instr::Take => self.take_top(returns),
            Instr::Lot(stage, target) => self.jump_without_lot(code, stage, target),
            Instr::Takelot(stage) => self.take_drawn(code, returns, stage),
            Instr::Emit(stage, scope, number, step) => match R::records() {
                Records::Kept => self.emit(code, returns, stage, scope, number, step)?,
                Records::Dropped => Effect::Goes,
            },
            Instr::Given(stage, scope, number) => match R::records() {
                Records::Kept => self.emit_given(code, returns, stage, scope, number)?,
                Records::Dropped => Effect::Goes,
            },
            Instr::Fault(..) | Instr::Tie(..) | Instr::Halt(..) | Instr::Haltv(..) => return Ok(
                None,
            ),
            Instr::Seat => self.seat_on_list(returns),
            Instr::Single => self.seat_as_single(returns),
            Instr::At(..) => Effect::Goes,
            Instr::Weigh(stage, scope, rounding, weight) => match R::records() {
                Records::Kept => self.weigh(code, returns, stage, scope, rounding, weight)?,
                Records::Dropped => Effect::Goes,
            },
        };
        Ok(Some(effect))
    }

    /// The end that an instruction gives the run.
    pub fn end(&mut self, code: &Code, returns: &Returns, instr: &Instr) -> Result<End, NoMemory>
        requires step { MayStep code.now returns.now instr.now (state_of self.old) }
        requires columns { IsTrue (has_columns (context_of code.now) instr.now) }
        requires ends { IsTrue (ends_run instr.now) }
        ensures follows { IfOk result (λ end. Ends (end_with end (state_of self.new)) ≡ effect code.now returns.now instr.now (state_of self.old)) }
        ensures kept { sizes_of self.new ≡ sizes_of self.old }
    {
        match *instr {
            Instr::Fault(stage, scope, fault) => Ok(self.end_with_fault(code, stage, scope, fault)),
            Instr::Tie(stage, scope, seats) => self.end_with_tie(
                code, returns, stage, scope, seats,
            ),
            Instr::Halt(slot) => Ok(halt(slot)),
            Instr::Haltv(slot, vacant) => Ok(halt_with_vacant(slot, vacant)),
            _ => unreachable!(),
        }
    }
}
