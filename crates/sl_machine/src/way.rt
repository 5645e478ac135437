//! The way of runs through a code: the instructions that do something, each with its place.

ghost use Rattle.std.specs.Prelude.{◌≡◌, ◌<◌, ◌≤◌, ◌++◌, ◌∷◌, [], drop, length, IfOk, OnOk};
ghost use Rattle.sl_machine.specs.inner.Ways.{is_idle, standing_from, IsWay};

use sl_base_quotients::NoMemory;
use sl_code_instructions::{Code, Instr};
use sl_code_steps::{Recording, Records};
use std::alloc::Global;

/// An instruction, and the place of the code at which it stands.
#[derive(Clone, Copy)]
pub(crate) struct Standing {
    pub instr: Instr,
    pub place: usize,
}

/// The instructions of a code that do something in a run, in their order. A step goes on from one to the next, and passes over those
/// that do nothing, which still count as steps: two places tell how many there are between.
#[derive(Drop)]
pub(crate) struct Way {
    standing: Vec<Standing>,
    // for each place of the code, how many of them stand before it
    before: Vec<usize>,
}

// Whether an instruction does nothing: it declares, or it records what is dropped.
fn is_idle<R: Recording>(instr: &Instr) -> bool
    ensures { result ≡ is_idle R.records instr.now }
{
    match *instr {
        Instr::At(..) => true,
        Instr::Emit(..) | Instr::Given(..) | Instr::Weigh(..) => match R::records() {
            Records::Kept => false,
            Records::Dropped => true,
        },
        _ => false,
    }
}

// Adds an instruction that stands at a place, if it does something.
fn add<R: Recording>(
    standing: &mut Vec<Standing>,
    instr: Instr,
    place: usize,
) -> Result<(), NoMemory>
    ensures { OnOk result (standing.new.items ≡ standing.old.items ++ standing_from R.records place (instr ∷ [])) }
{
    if !is_idle::<R>(&instr) {
        standing.push(Standing { instr, place })?;
    }
    Ok(())
}

/// Those after so many.
pub(crate) fn behind(standing: &[Standing], count: usize) -> &[Standing]
    requires { count ≤ length standing.now }
    ensures { result.now ≡ drop count standing.now }
{
    &standing[count..]
}

/// The first of those ahead.
pub(crate) fn first_of(ahead: &[Standing]) -> &Standing
    requires { 0 < length ahead.now }
    ensures { ahead.now ≡ result.now ∷ drop 1 ahead.now }
{
    &ahead[0]
}

impl Way {
    /// The way of a run through a code.
    pub(crate) fn of<R: Recording>(alloc: Global, code: &Code) -> Result<Way, NoMemory>
        ensures { IfOk result (IsWay R.records code.now) }
    {
        let instrs = code.instrs();
        let mut standing = Vec::with_capacity(alloc, instrs.len())?;
        let mut before = Vec::with_capacity(alloc, instrs.len())?;
        for (place, instr) in instrs.iter().enumerate() {
            before.push(standing.len())?;
            add::<R>(&mut standing, *instr, place)?;
        }
        Ok(Way { standing, before })
    }

    /// Those from a place of the code on.
    pub(crate) fn from<R: Recording>(&self, code: &Code, place: usize) -> &[Standing]
        requires way { IsWay R.records code.now self.now }
        requires place { place < length code.now.instrs }
        ensures { result.now ≡ standing_from R.records place (drop place code.now.instrs) }
    {
        behind(self.standing.as_slice(), self.before[place])
    }
}
