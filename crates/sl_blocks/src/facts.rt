//! The blocks of the columns that a rulebook can name (docs/compiler.md, section 2).

ghost use Rattle.std.specs.Prelude.{◌≡◌, ℕ, [], ◌∷◌, IfOk, OnErr};
ghost use Rattle.sl_code_instructions.specs.declared.instr.Instr.TheVariants.{Set};
ghost use Rattle.sl_compile_layout.specs.inner.Layout.{tree_of};
ghost use Rattle.sl_compile_pieces.specs.facts.Trees.{fact_tree};
ghost use Rattle.sl_compile_pieces.specs.exprs.Slots.{fact_slots};
ghost use Rattle.sl_blocks.specs.Facts.{HasFirstSlots};
ghost use Rattle.sl_blocks.specs.PlanBlocks.{AreBlocks, HasRoom};

use crate::eligible::count_one;
use crate::entries::NOTHING;
use sl_base_quotients::NoMemory;
use sl_code_instructions::{Input, Instr};
use sl_compile_layout::Part::{Fixed, Given};
use sl_compile_layout::{Cursor, ONES, Plan, Test, lay};
use sl_compile_pieces::registers::{CELL, OTHER};
use sl_compile_pieces::slots::{ELIGIBLE, FIRST_FACT};
use sl_law_meaning::Fact;

const HOUSE: u8 = FIRST_FACT + Fact::House as u8;

const WINNERS: u8 = FIRST_FACT + Fact::Winners as u8;

const COUNTED: u8 = FIRST_FACT + Fact::Counted as u8;

const OUTSIDE: u8 = FIRST_FACT + Fact::Outside as u8;

const INDEPENDENTS: u8 = FIRST_FACT + Fact::Independents as u8;

const POPULATION: u8 = FIRST_FACT + Fact::Population as u8;

/// A party that is not eligible has no votes in any Land.
const DROP_VOTES: &Plan<'static> = &Plan::Then(
    &Plan::Line(&[Fixed(Instr::Get(OTHER, ELIGIBLE))]),
    &Plan::If(
        Test::Zero(OTHER),
        &Plan::Then(
            &Plan::Line(&[Fixed(Instr::Set(CELL, 0))]),
            &Plan::Each(
                Cursor::Land,
                &Plan::Line(&[Fixed(Instr::Store(COUNTED, CELL))]),
            ),
        ),
        NOTHING,
    ),
);

/// For the winner at the cursor: one plan where the party is eligible and has a list in the Land, and else the other.
macro_rules! by_winner {
    ($on_list:expr, $outside:expr) => {
        &Plan::Then(
            &Plan::Line(&[Fixed(Instr::Wland)]),
            &Plan::If(
                Test::NoParty,
                $outside,
                &Plan::If(
                    Test::NoList,
                    $outside,
                    &Plan::Then(
                        &Plan::Line(&[Fixed(Instr::Get(OTHER, ELIGIBLE))]),
                        &Plan::If(Test::Zero(OTHER), $outside, $on_list),
                    ),
                ),
            ),
        )
    };
}

pub(crate) use by_winner;

/// The column from 0 on, one more for some winners.
macro_rules! winners_of {
    ($slot:expr, $each:expr) => {
        &Plan::Then(
            &Plan::Line(&[Fixed(Instr::Zero($slot))]),
            &Plan::Each(Cursor::Win, $each),
        )
    };
}

const WITHOUT_PARTY: &Plan<'static> = &Plan::Then(
    &Plan::Line(&[Fixed(Instr::Wland)]),
    &Plan::If(Test::NoParty, count_one!(INDEPENDENTS), NOTHING),
);

/// The number of seats of the house, which is given.
const PLACE_HOUSE: &Plan<'static> = &Plan::Line(&[
    Given(0),
    Fixed(Instr::House(CELL)),
    Fixed(Instr::Store(HOUSE, CELL)),
]);

const COUNT_VOTES: &Plan<'static> = &Plan::Then(
    &Plan::Line(&[Fixed(Instr::Input(COUNTED, Input::Counted))]),
    &Plan::Each(Cursor::Party, DROP_VOTES),
);

const COUNT_WINNERS: &Plan<'static> = winners_of!(
    WINNERS,
    by_winner!(count_one!(WINNERS), NOTHING)
);

const COUNT_OUTSIDE: &Plan<'static> = winners_of!(
    OUTSIDE,
    by_winner!(NOTHING, count_one!(OUTSIDE))
);

const COUNT_INDEPENDENTS: &Plan<'static> = winners_of!(INDEPENDENTS, WITHOUT_PARTY);

const READ_POPULATION: &Plan<'static> = &Plan::Line(&[Fixed(Instr::Input(
    POPULATION,
    Input::Population,
))]);

/// The plan of a fact.
fn fact_plan(fact: Fact) -> &'static Plan<'static>
    ensures { (house : ℕ) → tree_of (Set CELL house ∷ []) result.now ≡ fact_tree fact_slots house fact }
{
    match fact {
        Fact::House => PLACE_HOUSE,
        Fact::Counted => COUNT_VOTES,
        Fact::Winners => COUNT_WINNERS,
        Fact::Outside => COUNT_OUTSIDE,
        Fact::Independents => COUNT_INDEPENDENTS,
        Fact::Population => READ_POPULATION,
    }
}

/// Appends the block of a fact (docs/compiler.md, section 2), where this is the house of the book.
///
/// # Errors
/// Without memory, the code is as it was.
pub fn fact_block(code: &mut Vec<Instr>, fact: Fact, house: u32) -> Result<(), NoMemory>
    requires { HasRoom (fact_tree fact_slots house fact ∷ []) code.old.items }
    ensures ok { IfOk result (λ _. AreBlocks HasFirstSlots (fact_tree fact_slots house fact ∷ []) code.old.items code.new.items) }
    ensures err { OnErr result (code.new.items ≡ code.old.items) }
{
    lay(code, fact_plan(fact), &[Instr::Set(CELL, house as u64)])
}
