//! From plans to instructions.

ghost use Rattle.std.specs.Prelude.{◌≡◌, ◌+◌, ◌<◌, ◌≤◌, List, [], ◌∷◌, ◌++◌, map, length, IfOk, OnErr, vec_len, vec_capacity};
ghost use Rattle.sl_compile_plans.specs.Laid.{laid};
ghost use Rattle.sl_compile_layout.specs.inner.Layout.{filled, tree_of};
ghost use Rattle.sl_code_instructions.specs.declared.instr.Instr.{Instr as Instruction};
ghost use Rattle.sl_compile_plans.specs.Trees.{is_nothing, size_of, flat, jump_of, to_first, to_next, known_after_all, kinds_after};

use crate::known::{at_join, known_after, known_in_arm, with_cursor_known};
use crate::plan::{Part, Plan};
use sl_base_quotients::NoMemory;
use sl_code_instructions::{Cursors, Instr, Kinds, MAX_INSTRS, Registers};
use sl_compile_plans::{Cursor, ONES, Test};

/// Appends a plan's instructions, with what is known where it begins, and says what is known after it. The parts of the plan that are
/// numbers stand for the instructions given.
///
/// It asks for memory once, before the first instruction. The registers that are known to be positive where the plan begins are
/// declared to be so all along it: give none.
///
/// # Errors
/// Without memory, the code is as it was.
pub fn emit(
    code: &mut Vec<Instr>,
    plan: &Plan<'_>,
    given: &[Instr],
    known: Kinds,
) -> Result<Kinds, NoMemory>
    requires { vec_len code.old + size_of (tree_of given.now plan.now) ≤ MAX_INSTRS }
    ensures ok { IfOk result (λ after. (after ≡ kinds_after known (tree_of given.now plan.now)) × (code.new.items ≡ code.old.items ++ flat known (vec_len code.old) (tree_of given.now plan.now))) }
    ensures err { OnErr result (code.new.items ≡ code.old.items) }
{
    code.reserve(size(plan, given) as usize)?;
    Ok(put(code, plan, given, known))
}

/// Nothing is known.
const START: Kinds = Kinds {
    positive: Registers { mask: 0 },
    cursors: Cursors {
        party: false,
        land: false,
        win: false,
    },
    table: None,
};

/// Appends a declaration that nothing is known, and after it a plan's instructions (docs/plans.md, section 10). The parts of the plan
/// that are numbers stand for the instructions given.
///
/// It asks for memory once, before the first instruction.
///
/// # Errors
/// Without memory, the code is as it was.
pub fn lay(code: &mut Vec<Instr>, plan: &Plan<'_>, given: &[Instr]) -> Result<(), NoMemory>
    requires { vec_len code.old + size_of (tree_of given.now plan.now) < MAX_INSTRS }
    ensures ok { IfOk result (λ _. code.new.items ≡ code.old.items ++ laid (vec_len code.old) (tree_of given.now plan.now)) }
    ensures err { OnErr result (code.new.items ≡ code.old.items) }
{
    code.reserve(size(plan, given) as usize + 1)?;
    push(code, Instr::At(START));
    put(code, plan, given, START);
    Ok(())
}

/// Whether a plan is a line without parts.
fn is_nothing(plan: &Plan<'_>) -> bool
    ensures { (given : List Instruction) → result ≡ is_nothing (tree_of given plan.now) }
{
    match plan {
        Plan::Line(parts) => parts.is_empty(),
        _ => false,
    }
}

/// How many instructions a plan is.
pub fn size(plan: &Plan<'_>, given: &[Instr]) -> u32
    requires { size_of (tree_of given.now plan.now) ≤ MAX_INSTRS }
    ensures { result ≡ size_of (tree_of given.now plan.now) }
{
    match plan {
        Plan::Line(parts) => parts.len() as u32,
        Plan::Stop(_) => 2,
        Plan::Then(first, second) => size(first, given) + size(second, given),
        Plan::If(_, arm, other) => {
            let other = size(other, given);
            if is_nothing(arm) {
                other + 2
            } else {
                size(arm, given) + other + 4
            }
        }
        Plan::Each(_, body) => size(body, given) + 4,
        Plan::Times(_, _, body) => size(body, given) + 6,
    }
}

/// Appends a plan's instructions where there is room, with what is known where it begins, and says what is known after it.
pub fn put(code: &mut Vec<Instr>, plan: &Plan<'_>, given: &[Instr], known: Kinds) -> Kinds
    requires room { vec_len code.old + size_of (tree_of given.now plan.now) ≤ vec_capacity code.old }
    requires fits { vec_len code.old + size_of (tree_of given.now plan.now) ≤ MAX_INSTRS }
    ensures after { result ≡ kinds_after known (tree_of given.now plan.now) }
    ensures items { code.new.items ≡ code.old.items ++ flat known (vec_len code.old) (tree_of given.now plan.now) }
    ensures len { vec_len code.new ≡ vec_len code.old + size_of (tree_of given.now plan.now) }
    ensures capacity { vec_capacity code.old ≤ vec_capacity code.new }
{
    let at = code.len() as u32;
    let joined = at_join(known);
    match plan {
        Plan::Line(parts) => put_line(code, parts, given, known),
        Plan::Stop(part) => {
            push(code, fill(*part, given));
            push(code, Instr::At(joined));
            joined
        }
        Plan::Then(first, second) => {
            let known = put(code, first, given, known);
            put(code, second, given, known)
        }
        Plan::If(test, arm, other) => {
            let leave = at + size(other, given) + 1;
            if is_nothing(arm) {
                let jump = jump(*test, leave);
                push(code, jump);
                put(code, other, given, known_after(known, jump));
                push(code, Instr::At(joined));
                joined
            } else {
                let end = leave + size(arm, given) + 2;
                let jump = jump(*test, leave + 1);
                push(code, jump);
                put(code, other, given, known_after(known, jump));
                push(code, Instr::Jmp(end));
                let known = known_in_arm(known, *test);
                push(code, Instr::At(known));
                put(code, arm, given, known);
                push(code, Instr::At(joined));
                joined
            }
        }
        Plan::Each(over, body) => {
            let known = with_cursor_known(*over, true, joined);
            let joined = with_cursor_known(*over, false, joined);
            push(code, to_first(*over, at + size(body, given) + 3));
            push(code, Instr::At(known));
            put(code, body, given, known);
            push(code, to_next(*over, at + 1));
            push(code, Instr::At(joined));
            joined
        }
        Plan::Times(register, _, body) => {
            push(code, Instr::At(joined));
            push(code, Instr::Jz(*register, at + size(body, given) + 5));
            push(code, Instr::Set(ONES, 1));
            push(code, Instr::Sub(*register, ONES));
            put(code, body, given, joined);
            push(code, Instr::Jmp(at));
            push(code, Instr::At(joined));
            joined
        }
    }
}

/// Appends a line where there is room, and says what is known after it.
fn put_line(code: &mut Vec<Instr>, parts: &[Part], given: &[Instr], known: Kinds) -> Kinds
    requires { vec_len code.old + length parts.now ≤ vec_capacity code.old }
    ensures after { result ≡ known_after_all known (map (filled given.now) parts.now) }
    ensures items { code.new.items ≡ code.old.items ++ map (filled given.now) parts.now }
    ensures len { vec_len code.new ≡ vec_len code.old + length parts.now }
    ensures capacity { vec_capacity code.old ≤ vec_capacity code.new }
{
    let mut known = known;
    for part in parts {
        let instr = fill(*part, given);
        push(code, instr);
        known = known_after(known, instr);
    }
    known
}

/// The instruction of a part.
fn fill(part: Part, given: &[Instr]) -> Instr
    ensures { result ≡ filled given.now part }
{
    match part {
        Part::Fixed(instr) => instr,
        Part::Given(number) => match given.get(number as usize) {
            Some(instr) => *instr,
            None => Instr::Set(ONES, 1),
        },
    }
}

/// The jump that asks this.
fn jump(test: Test, to: u32) -> Instr
    ensures { result ≡ jump_of test to }
{
    match test {
        Test::Zero(register) => Instr::Jz(register, to),
        Test::Less(register, than) => Instr::Jlt(register, than, to),
        Test::NoList => Instr::Jnl(to),
        Test::NoParty => Instr::Wparty(to),
        Test::Empty(register) => Instr::Peers(register, to),
        Test::NotCovered(stage) => Instr::Lot(stage, to),
    }
}

/// The instruction that sets the cursor to the first one, or jumps.
fn to_first(over: Cursor, to: u32) -> Instr
    ensures { result ≡ to_first over to }
{
    match over {
        Cursor::Party => Instr::Fparty(to),
        Cursor::Land => Instr::Fland(to),
        Cursor::Win => Instr::Fwin(to),
    }
}

/// The instruction that sets the cursor to the next one, and jumps.
fn to_next(over: Cursor, to: u32) -> Instr
    ensures { result ≡ to_next over to }
{
    match over {
        Cursor::Party => Instr::Nparty(to),
        Cursor::Land => Instr::Nland(to),
        Cursor::Win => Instr::Nwin(to),
    }
}

/// One more instruction where there is room.
fn push(code: &mut Vec<Instr>, instr: Instr)
    requires { vec_len code.old < vec_capacity code.old }
    ensures items { code.new.items ≡ code.old.items ++ instr ∷ [] }
    ensures len { vec_len code.new ≡ vec_len code.old + 1 }
    ensures capacity { vec_capacity code.old ≤ vec_capacity code.new }
{
    code.push(instr).unwrap()
}
