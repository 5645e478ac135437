//! Runs of a code on returns.

ghost use Rattle.std.specs.Prelude.{◌≡◌, ◌<◌, ◌≤◌, ◌⊎◌, Some, length, slice_get, IfOk, IfSome, IfNone, ◌+◌, ◌*◌};
ghost use Rattle.sl_base_quotients.specs.declared.limits.TheConstants.{MAX_SEATS as most_seats, MAX_LANDS, MAX_PARTIES};
ghost use Rattle.sl_law_meaning.specs.declared.limits.TheConstants.{MAX_WINS};
ghost use Rattle.sl_base_terms.specs.declared.limits.TheConstants.{MAX_STAGES};
ghost use Rattle.sl_code_semantics.specs.Agrees.{IsSafe};
ghost use Rattle.sl_machine.specs.Answers.{answer_of};
ghost use Rattle.sl_machine.specs.Fits.{Fits};
ghost use Rattle.sl_machine.specs.inner.Leading.{EndsAt, EndsWith, ending_with, FitsWith};
ghost use Rattle.sl_machine.specs.inner.UnderWay.{IsUnderWay, GoesOn, IsOut, EndsFirst};
ghost use Rattle.sl_code_steps.specs.inner.Recording.{state_by, ending_by};
ghost use Rattle.sl_code_semantics.specs.Runs.{run, ending, share_of, budget_of};
ghost use Rattle.sl_code_semantics.specs.Unrecorded.{without_records};
ghost use Rattle.sl_code_steps.specs.inner.Stores.{state_of, sizes_of, sizes_for};
ghost use Rattle.sl_machine.specs.inner.Ways.{IsWay};

use crate::clock::Clock;
use crate::way::{Standing, Way, behind, first_of};
use sl_base_quotients::NoMemory;
use sl_code_instructions::{Code, Instr};
use sl_code_semantics::{STEPS_EACH, Verified};
use sl_code_steps::{Drops, Effect, End, Keeps, Memory, Recording, Store};
use sl_stages::{LegalFault, MAX_SEATS, Returns};
use std::alloc::Global;

/// How a run ends.
#[derive(Drop)]
pub enum Ending {
    /// It is done.
    Done(Memory),
    /// It ends in a legal fault.
    Fault(LegalFault),
    /// It needs more steps than it was given.
    OutOfBudget,
}

// The steps that a stage may take.
fn share(returns: &Returns) -> u64
    ensures value { result ≡ share_of returns.now }
    ensures most { result ≤ STEPS_EACH * (MAX_PARTIES + 1) * (MAX_LANDS + 1) * (most_seats + MAX_WINS + 2) }
{
    let parties = returns.parties() as u64;
    let lands = returns.lands() as u64;
    let wins = returns.wins() as u64;
    STEPS_EACH * (parties + 1) * (lands + 1) * (MAX_SEATS as u64 + wins + 2)
}

/// The steps that a code of so many stages may take.
pub fn budget(stages: usize, returns: &Returns) -> u64
    requires { stages ≤ MAX_STAGES }
    ensures { result ≡ budget_of stages returns.now }
{
    (stages as u64 + 2) * share(returns)
}

// The instruction at a place.
fn instr_at(code: &Code, place: usize) -> &Instr
    requires { place < length code.now.instrs }
    ensures { slice_get code.now.instrs place ≡ Some result.now }
{
    &code.instrs()[place]
}

// Makes a step, by the first of the instructions ahead, and answers those that are ahead then; `None` where that one ends the run, or jumps when no
// step is left for it.
fn step_from<'a, R: Recording>(
    store: &mut Store,
    code: &Code,
    returns: &Returns,
    way: &'a Way,
    clock: &mut Clock,
    ahead: &'a [Standing],
) -> Result<Option<&'a [Standing]>, NoMemory>
    requires way { IsWay R.records code.now way.now }
    requires under_way { IsUnderWay R.records code.now returns.now clock.old ahead.now (state_of store.old) }
    requires sizes { sizes_of store.old ≡ sizes_for code.now returns.now }
    ensures goes { IfOk result (λ next. IfSome next (λ there. GoesOn R.records code.now returns.now clock.old ahead.now (state_of store.old) clock.new there.now (state_of store.new))) }
    ensures stops { IfOk result (λ next. IfNone next ((clock.new ≡ clock.old) × (IsOut clock.old ahead.now ⊎ (EndsFirst ahead.now × (store.new ≡ store.old))))) }
    ensures kept { sizes_of store.new ≡ sizes_of store.old }
{
    let here = first_of(ahead);
    match store.step::<R>(code, returns, &here.instr)? {
        Some(Effect::Goes) => Ok(Some(behind(ahead, 1))),
        Some(Effect::Jumps(target)) => match clock.after_jump(here.place, target as usize) {
            Some(after) => {
                *clock = after;
                Ok(Some(way.from::<R>(code, target as usize)))
            }
            None => Ok(None),
        },
        None => Ok(None),
    }
}

// The end that the instruction at a place gives the run.
fn end_at<R: Recording>(
    store: &mut Store,
    code: &Code,
    returns: &Returns,
    place: usize,
) -> Result<End, NoMemory>
    requires safe { IsSafe code.now returns.now place (state_of store.old) }
    requires records { state_by R.records (state_of store.old) ≡ state_of store.old }
    requires ends { EndsAt code.now place }
    ensures ends { IfOk result (λ end. EndsWith R.records code.now returns.now place (state_of store.old) end (state_of store.new)) }
    ensures kept { sizes_of store.new ≡ sizes_of store.old }
{
    store.end(code, returns, instr_at(code, place))
}

// Makes at most so many steps from the start, and answers how they end, if they do.
fn steps<R: Recording>(
    store: &mut Store,
    code: &Code,
    returns: &Returns,
    way: &Way,
    budget: u64,
) -> Result<Option<End>, NoMemory>
    requires way { IsWay R.records code.now way.now }
    requires safe { IsSafe code.now returns.now 0 (state_of store.old) }
    requires sizes { sizes_of store.old ≡ sizes_for code.now returns.now }
    requires records { state_by R.records (state_of store.old) ≡ state_of store.old }
    ensures end { IfOk result (λ end. ending_by R.records (run code.now returns.now budget 0 (state_of store.old)) ≡ ending_with end (state_of store.new)) }
    ensures fits { IfOk result (λ end. FitsWith code.now returns.now end (state_of store.new)) }
    ensures kept { IfOk result (λ end. sizes_of store.new ≡ sizes_for code.now returns.now) }
{
    let mut clock = Clock {
        left: budget,
        since: 0,
    };
    let mut ahead = way.from::<R>(code, 0);
    loop {
        match step_from::<R>(store, code, returns, way, &mut clock, ahead)? {
            Some(next) => ahead = next,
            None => {
                let place = first_of(ahead).place;
                if clock.is_out(place) {
                    return Ok(None);
                }
                return Ok(Some(end_at::<R>(store, code, returns, place)?));
            }
        }
    }
}

// Runs accepted code on returns, and keeps what it records or drops it.
fn run_with<R: Recording>(
    alloc: Global,
    code: &Verified,
    returns: &Returns,
    budget: u64,
) -> Result<Ending, NoMemory>
    ensures ending { IfOk result (λ answer. answer_of code.now returns.now (ending_by R.records (ending code.now returns.now budget)) ≡ Some answer) }
    ensures fits { IfOk result (Fits code.now returns.now) }
{
    let code = code.code();
    let way = Way::of::<R>(alloc, code)?;
    let mut store = Store::start(alloc, code, returns)?;
    let end = steps::<R>(&mut store, code, returns, &way, budget)?;
    drop(way);
    match end {
        Some(End::Halted { base, vacant }) => Ok(Ending::Done(Memory::new(store, base, vacant))),
        Some(End::Faulted(fault)) => {
            drop(store);
            Ok(Ending::Fault(fault))
        }
        None => {
            drop(store);
            Ok(Ending::OutOfBudget)
        }
    }
}

/// Runs accepted code on returns, for at most so many steps (docs/machine.md, section 4).
pub fn run(
    alloc: Global,
    code: &Verified,
    returns: &Returns,
    budget: u64,
) -> Result<Ending, NoMemory>
    ensures ending { IfOk result (λ answer. answer_of code.now returns.now (ending code.now returns.now budget) ≡ Some answer) }
    ensures fits { IfOk result (Fits code.now returns.now) }
{
    run_with::<Keeps>(alloc, code, returns, budget)
}

/// Runs accepted code on returns as `run` does, but keeps no seat steps and no weights.
pub fn run_unrecorded(
    alloc: Global,
    code: &Verified,
    returns: &Returns,
    budget: u64,
) -> Result<Ending, NoMemory>
    ensures ending { IfOk result (λ answer. answer_of code.now returns.now (without_records (ending code.now returns.now budget)) ≡ Some answer) }
    ensures fits { IfOk result (Fits code.now returns.now) }
{
    run_with::<Drops>(alloc, code, returns, budget)
}
