//! Seat steps and weights that are recorded.

ghost use Rattle.std.specs.Prelude.{◌≡◌, ◌<◌, Some, IsTrue, IsSome, IfOk};
ghost use Rattle.sl_code_semantics.specs.declared.known.TheConstants.{REGISTERS};
ghost use Rattle.sl_code_semantics.specs.Needs.{has_stage};
ghost use Rattle.sl_code_semantics.specs.WellKinded.{context_of};
ghost use Rattle.sl_code_instructions.specs.declared.instr.Instr.TheVariants as instr;
ghost use Rattle.sl_code_semantics.specs.Places.{scope_at};
ghost use Rattle.sl_code_semantics.specs.Effects.{effect, stage_of};
ghost use Rattle.sl_code_semantics.specs.Safe.{IsInRange};
ghost use Rattle.sl_code_semantics.specs.Seen.{item_at};
ghost use Rattle.sl_code_steps.specs.inner.Stores.{state_of, sizes_of, effect_of};

use crate::cursors::item_of;
use crate::step::Effect;
use crate::store::{Store, append};
use sl_base_quotients::{MAX_WEIGHT, NoMemory};
use sl_code_instructions::{Code, Rounding, ScopeKind};
use sl_code_semantics::LAST_CLAUSE;
use sl_stages::{Item, Mark, Returns, SeatStep, Weight};

/// The number of the stage that an instruction names, which is the number of stages for the last clause.
pub(crate) fn stage_number(code: &Code, stage: u8) -> usize
    requires { IsTrue (has_stage (context_of code.now) stage) }
    ensures { stage_of code.now.stages stage ≡ Some result }
{
    if stage == LAST_CLAUSE {
        code.stages().len()
    } else {
        usize::from(stage)
    }
}

impl Store {
    // The item at the cursors in a table such as the machine's.
    fn item(&self, returns: &Returns) -> Item
        requires entry { IsSome (item_at returns.now (state_of self.now)) }
        requires range { IsInRange returns.now (state_of self.now) }
        ensures { item_at returns.now (state_of self.now) ≡ Some result }
    {
        let entries = self.table.entries().unwrap();
        let index = self.entry_index(returns, entries);
        item_of(returns, entries, index)
    }

    /// Records a seat, with the mark taken last.
    pub(crate) fn emit(
        &mut self,
        code: &Code,
        returns: &Returns,
        stage: u8,
        scope: ScopeKind,
        number: u8,
        step: u8,
    ) -> Result<Effect, NoMemory>
        requires stage { IsTrue (has_stage (context_of code.now) stage) }
        requires scope { IsSome (scope_at scope (state_of self.old)) }
        requires entry { IsSome (item_at returns.now (state_of self.old)) }
        requires number { number < REGISTERS }
        requires step { step < REGISTERS }
        requires range { IsInRange returns.now (state_of self.old) }
        ensures follows { IfOk result (λ next. effect_of next (state_of self.new)
            ≡ effect code.now returns.now (instr.Emit stage scope number step) (state_of self.old)) }
        ensures kept { sizes_of self.new ≡ sizes_of self.old }
    {
        let record = SeatStep {
            stage: stage_number(code, stage),
            scope: self.scope(scope).unwrap(),
            entry: self.item(returns),
            n: self.register(number),
            step: self.register(step),
            mark: self.mark,
        };
        append(&mut self.steps, record)?;
        Ok(Effect::Goes)
    }

    /// Records a seat that no quotient won.
    pub(crate) fn emit_given(
        &mut self,
        code: &Code,
        returns: &Returns,
        stage: u8,
        scope: ScopeKind,
        number: u8,
    ) -> Result<Effect, NoMemory>
        requires stage { IsTrue (has_stage (context_of code.now) stage) }
        requires scope { IsSome (scope_at scope (state_of self.old)) }
        requires entry { IsSome (item_at returns.now (state_of self.old)) }
        requires number { number < REGISTERS }
        requires range { IsInRange returns.now (state_of self.old) }
        ensures follows { IfOk result (λ next. effect_of next (state_of self.new)
            ≡ effect code.now returns.now (instr.Given stage scope number) (state_of self.old)) }
        ensures kept { sizes_of self.new ≡ sizes_of self.old }
    {
        let record = SeatStep {
            stage: stage_number(code, stage),
            scope: self.scope(scope).unwrap(),
            entry: self.item(returns),
            n: self.register(number),
            step: 0,
            mark: Mark::Given,
        };
        append(&mut self.steps, record)?;
        Ok(Effect::Goes)
    }

    /// Records a weight.
    pub(crate) fn weigh(
        &mut self,
        code: &Code,
        returns: &Returns,
        stage: u8,
        scope: ScopeKind,
        rounding: Rounding,
        weight: u8,
    ) -> Result<Effect, NoMemory>
        requires stage { IsTrue (has_stage (context_of code.now) stage) }
        requires scope { IsSome (scope_at scope (state_of self.old)) }
        requires entry { IsSome (item_at returns.now (state_of self.old)) }
        requires weight { weight < REGISTERS }
        requires positive { 0 < (state_of self.old).registers weight }
        requires range { IsInRange returns.now (state_of self.old) }
        ensures follows { IfOk result (λ next. effect_of next (state_of self.new)
            ≡ effect code.now returns.now (instr.Weigh stage scope rounding weight) (state_of self.old)) }
        ensures kept { sizes_of self.new ≡ sizes_of self.old }
    {
        let record = Weight {
            stage: stage_number(code, stage),
            scope: self.scope(scope).unwrap(),
            entry: self.item(returns),
            divisor: rounding.divisor(),
            weight: self.register(weight).min(MAX_WEIGHT),
        };
        append(&mut self.weights, record)?;
        Ok(Effect::Goes)
    }
}
