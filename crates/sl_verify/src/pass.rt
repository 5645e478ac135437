//! One pass over the instructions of a code, in order.

ghost use Rattle.std.specs.Prelude.{◌≡◌, [], ◌∷◌, Some, IsTrue, OnOk};
ghost use Rattle.sl_code_semantics.specs.Kinds.{start_kinds};
ghost use Rattle.sl_code_semantics.specs.Needs.{has_registers};
ghost use Rattle.sl_code_semantics.specs.Pieces.{kinds_here, comes_next, comes_after};
ghost use Rattle.sl_code_semantics.specs.WellKinded.{declared_by, declared_at, has_stage_slots};
ghost use Rattle.sl_base_terms.specs.Tests.{test, Judges};
ghost use Rattle.sl_code_semantics.specs.Faults.{coming_tests, need_tests, landing_tests, jump_tests, own_tests, instr_tests, end_tests, pass_tests, verify_tests};

use crate::known::{START, implies};
use crate::leaves::{behind, carried};
use crate::needs::{has_columns, has_kinds, has_registers, has_slot, has_table};
use sl_code_instructions::{Code, Instr, Kinds};
use sl_code_semantics::VerifyFault;

/// Refuses with a fault what fails a test.
fn test(holds: bool, otherwise: VerifyFault) -> Result<(), VerifyFault>
    ensures { Judges result (test holds otherwise ∷ []) tt }
{
    if holds { Ok(()) } else { Err(otherwise) }
}

/// The kinds that an `at` declares.
fn declared_by(instr: Instr) -> Option<Kinds>
    ensures { result ≡ declared_by instr }
{
    match instr {
        Instr::At(kinds) => Some(kinds),
        _ => None,
    }
}

/// The kinds that the `at` at a place declares.
fn declared_at(code: &Code, place: u32) -> Option<Kinds>
    ensures { result ≡ declared_at code.now place }
{
    match code.instrs().get(place as usize) {
        None => None,
        Some(instr) => declared_by(*instr),
    }
}

/// The kinds at a place to which these come, and where those are declared.
fn check_coming(
    place: usize,
    comes: Option<Kinds>,
    declared: Option<Kinds>,
) -> Result<Kinds, VerifyFault>
    ensures { Judges result (coming_tests place comes declared) (kinds_here comes declared) }
{
    match (comes, declared) {
        (None, None) => Err(VerifyFault::Meet(place)),
        (None, Some(declared)) => Ok(declared),
        (Some(comes), None) => Ok(comes),
        (Some(comes), Some(declared)) => {
            let before = place.saturating_sub(1);
            test(implies(comes, declared), VerifyFault::Meet(before))?;
            Ok(declared)
        }
    }
}

/// Refuses an instruction that lacks what it needs.
fn check_needs(code: &Code, place: usize, kinds: Kinds, instr: Instr) -> Result<(), VerifyFault>
    ensures tests { Judges result (need_tests code.now place kinds instr) tt }
    ensures registers { OnOk result (IsTrue (has_registers instr)) }
{
    let operands = instr.operands();
    if !has_registers(&operands) {
        return Err(VerifyFault::Register(place));
    }
    if !has_columns(code, instr, &operands) {
        return Err(VerifyFault::Slot(place));
    }
    if !has_kinds(code, kinds, instr) {
        return Err(VerifyFault::Kind(place));
    }
    test(has_table(kinds, instr), VerifyFault::TableKind(place))
}

/// Refuses a jump to what is not declared, or not implied.
fn check_landing(place: usize, kinds: Kinds, declared: Option<Kinds>) -> Result<(), VerifyFault>
    ensures { Judges result (landing_tests place kinds declared) tt }
{
    match declared {
        None => Err(VerifyFault::Jump(place)),
        Some(declared) => test(implies(kinds, declared), VerifyFault::Meet(place)),
    }
}

fn check_jump(
    code: &Code,
    place: usize,
    kinds: Kinds,
    target: Option<u32>,
) -> Result<(), VerifyFault>
    ensures { Judges result (jump_tests code.now place kinds target) tt }
{
    match target {
        None => Ok(()),
        Some(target) => check_landing(place, kinds, declared_at(code, target)),
    }
}

/// Refuses an instruction that cannot stand at a place with these kinds.
fn check_own(code: &Code, place: usize, kinds: Kinds, instr: Instr) -> Result<(), VerifyFault>
    ensures tests { Judges result (own_tests code.now place kinds instr) tt }
    ensures registers { OnOk result (IsTrue (has_registers instr)) }
{
    check_needs(code, place, kinds, instr)?;
    check_jump(code, place, carried(kinds, instr), instr.target())
}

/// The kinds after an instruction, where these reach it.
#[tactic(auto, using(sl_base_terms::proofs::Tests::fails_in_row))]
fn check_instr(
    code: &Code,
    place: usize,
    comes: Option<Kinds>,
    instr: Instr,
) -> Result<Option<Kinds>, VerifyFault>
    ensures { Judges result (instr_tests code.now place comes instr) (comes_next comes instr) }
{
    let kinds = check_coming(place, comes, declared_by(instr))?;
    check_own(code, place, kinds, instr)?;
    Ok(behind(kinds, instr))
}

/// What comes to the place after the last instruction, where each of them passes.
fn check_instrs(code: &Code) -> Result<Option<Kinds>, VerifyFault>
    ensures { Judges result (pass_tests code.now 0 (Some start_kinds) code.now.instrs) (comes_after (Some start_kinds) code.now.instrs) }
{
    let instrs = code.instrs();
    let mut comes = Some(START);
    for (place, instr) in instrs.iter().enumerate() {
        comes = check_instr(code, place, comes, *instr)?;
    }
    Ok(comes)
}

/// Refuses a code whose last instruction goes on.
fn check_end(place: usize, comes: Option<Kinds>) -> Result<(), VerifyFault>
    ensures { Judges result (end_tests place comes) tt }
{
    match comes {
        None => Ok(()),
        Some(_) => Err(VerifyFault::RunsOff(place.saturating_sub(1))),
    }
}

/// Whether each stage's column is in a slot that is there.
fn has_stage_slots(code: &Code) -> bool
    ensures { result ≡ has_stage_slots code.now }
{
    code.stages().iter().all(|stage| has_slot(code, stage.slot))
}

/// The tests of a whole code.
#[tactic(auto, using(sl_base_terms::proofs::Tests::fails_in_row))]
pub fn check_code(code: &Code) -> Result<(), VerifyFault>
    ensures { Judges result (verify_tests code.now) tt }
{
    test(has_stage_slots(code), VerifyFault::Slot(0))?;
    let comes = check_instrs(code)?;
    check_end(code.instrs().len(), comes)
}
