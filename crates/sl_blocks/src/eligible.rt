//! The block of the eligible parties (docs/compiler.md, section 2).

ghost use Rattle.std.specs.Prelude.{◌≡◌, [], ◌∷◌, Bool, List, IfOk, OnErr, cond};
ghost use Rattle.sl_code_instructions.specs.declared.instr.Instr.{Instr as SpecInstr};
ghost use Rattle.sl_compile_layout.specs.inner.Layout.{tree_of};
ghost use Rattle.sl_compile_plans.specs.Trees.{Then};
ghost use Rattle.sl_compile_pieces.specs.facts.Trees.{eligible_tree};
ghost use Rattle.sl_compile_pieces.specs.exprs.Slots.{fact_slots};
ghost use Rattle.sl_blocks.specs.Facts.{HasFirstSlots};
ghost use Rattle.sl_blocks.specs.PlanBlocks.{AreBlocks, HasRoom};
ghost use Rattle.sl_blocks.specs.inner.Few.{AreSmall, few_of, given_of};

use crate::easiest::Easiest;
use crate::entries::NOTHING;
use sl_base_quotients::NoMemory;
use sl_code_instructions::{Input, Instr};
use sl_compile_layout::Part::{Fixed, Given};
use sl_compile_layout::{Cursor, ONES, Plan, Test, lay};
use sl_compile_pieces::registers::{CELL, OTHER, OWN, TOTAL};
use sl_compile_pieces::slots::{ELIGIBLE, NUMBERS, VOTES};

/// One more in the column's cell at the cursors.
macro_rules! count_one {
    ($slot:expr) => {
        &Plan::Line(&[
            Fixed(Instr::Get(CELL, $slot)),
            Fixed(Instr::Set(ONES, 1)),
            Fixed(Instr::Add(CELL, ONES)),
            Fixed(Instr::Store($slot, CELL)),
        ])
    };
}

pub(crate) use count_one;

const NOBODY: &Plan<'static> = &Plan::Line(&[Fixed(Instr::Zero(ELIGIBLE))]);

/// The party is eligible.
const LET_IN: &Plan<'static> = &Plan::Line(&[
    Fixed(Instr::Set(CELL, 1)),
    Fixed(Instr::Store(ELIGIBLE, CELL)),
]);

const ALL_VALID: &Plan<'static> = &Plan::Each(
    Cursor::Land,
    &Plan::Each(
        Cursor::Party,
        &Plan::Line(&[
            Fixed(Instr::Get(CELL, VOTES)),
            Fixed(Instr::Add(TOTAL, CELL)),
        ]),
    ),
);

/// The votes of the party, as often as the share is parted.
const OWN_VALID: &Plan<'static> = &Plan::Then(
    &Plan::Each(
        Cursor::Land,
        &Plan::Line(&[Fixed(Instr::Get(CELL, VOTES)), Fixed(Instr::Add(OWN, CELL))]),
    ),
    &Plan::Then(
        &Plan::Line(&[Given(1), Fixed(Instr::Mul(OWN, OTHER))]),
        &Plan::If(Test::Less(OWN, TOTAL), NOTHING, LET_IN),
    ),
);

/// Those with the share of all valid votes.
const VALID: &Plan<'static> = &Plan::Then(
    &Plan::Line(&[
        Fixed(Instr::Input(VOTES, Input::Valid)),
        Fixed(Instr::Set(TOTAL, 0)),
    ]),
    &Plan::Then(
        ALL_VALID,
        &Plan::Then(
            &Plan::Line(&[Given(0), Fixed(Instr::Mul(TOTAL, OTHER))]),
            &Plan::Each(
                Cursor::Party,
                &Plan::Then(&Plan::Line(&[Fixed(Instr::Set(OWN, 0))]), OWN_VALID),
            ),
        ),
    ),
);

/// Those with enough winners.
const ENOUGH: &Plan<'static> = &Plan::Then(
    &Plan::Line(&[Fixed(Instr::Zero(NUMBERS))]),
    &Plan::Then(
        &Plan::Each(
            Cursor::Win,
            &Plan::If(Test::NoParty, NOTHING, count_one!(NUMBERS)),
        ),
        &Plan::Then(
            &Plan::Line(&[Given(2)]),
            &Plan::Each(
                Cursor::Party,
                &Plan::Then(
                    &Plan::Line(&[Fixed(Instr::Get(CELL, NUMBERS))]),
                    &Plan::If(Test::Less(CELL, OTHER), NOTHING, LET_IN),
                ),
            ),
        ),
    ),
);

/// Those of national minorities.
const MINORITIES: &Plan<'static> = &Plan::Then(
    &Plan::Line(&[Fixed(Instr::Input(NUMBERS, Input::Minority))]),
    &Plan::Each(
        Cursor::Party,
        &Plan::Then(
            &Plan::Line(&[Fixed(Instr::Get(CELL, NUMBERS))]),
            &Plan::If(Test::Zero(CELL), NOTHING, LET_IN),
        ),
    ),
);

const EVERYONE: &Plan<'static> = &Plan::Each(Cursor::Party, LET_IN);

/// The plan, and after it the rest; or the rest alone.
fn before<'a>(is_there: bool, plan: &'a Plan<'a>, rest: &'a Plan<'a>) -> Plan<'a>
    ensures { (given : List SpecInstr) → tree_of given result ≡ cond is_there (Then (tree_of given plan.now) (tree_of given rest.now)) (tree_of given rest.now) }
{
    if is_there {
        Plan::Then(plan, rest)
    } else {
        *rest
    }
}

/// The instructions of the blanks: the share of the votes, what it is separated by, and the winners. Those of conditions that are not there
/// are not laid out.
fn given_of(few: &Easiest) -> [Instr; 3]
    ensures { result ≡ given_of few.now }
{
    let (share, per) = match few.valid {
        Some(valid) => (valid.share.value, valid.per),
        None => (0, 0),
    };
    let least = few.winners.unwrap_or(0);
    [
        Instr::Set(OTHER, u64::from(share)),
        Instr::Set(OTHER, u64::from(per)),
        Instr::Set(OTHER, u64::from(least)),
    ]
}

/// Appends the block of the eligible parties.
///
/// # Errors
/// Without memory, the code is as it was.
pub fn eligible_block(code: &mut Vec<Instr>, few: &Easiest) -> Result<(), NoMemory>
    requires room { HasRoom (eligible_tree fact_slots (few_of few.now) ∷ []) code.old.items }
    requires small { AreSmall (few_of few.now) }
    ensures ok { IfOk result (λ _. AreBlocks HasFirstSlots (eligible_tree fact_slots (few_of few.now) ∷ []) code.old.items code.new.items) }
    ensures err { OnErr result (code.new.items ≡ code.old.items) }
{
    let all = before(few.all, EVERYONE, NOTHING);
    let minorities = before(few.minority, MINORITIES, &all);
    let winners = before(few.winners.is_some(), ENOUGH, &minorities);
    let valid = before(few.valid.is_some(), VALID, &winners);
    let plan = Plan::Then(NOBODY, &valid);
    lay(code, &plan, &given_of(few))
}
