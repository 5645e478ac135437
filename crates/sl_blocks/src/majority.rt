//! The majority clause.

ghost use Rattle.std.specs.Prelude.{◌≡◌};
ghost use Rattle.sl_compile_layout.specs.inner.Layout.{tree_of};
ghost use Rattle.sl_blocks.specs.inner.Given.{given_of};
ghost use Rattle.sl_blocks.specs.inner.LayoutParts.{refuse_in};

use crate::blanks::{Block, GET_HELD, GET_WEIGHT, NO_MAJORITY};
use crate::entries::NOTHING;
use sl_code_instructions::Instr;
use sl_compile_layout::Part::Fixed;
use sl_compile_layout::{Cursor, Plan, Test};
use sl_compile_pieces::Form;
use sl_compile_pieces::registers::{AMOUNT, HELD, TOTAL, WEIGHT};
use sl_law_meaning::Majority;

/// Ends where the entry has more than half of the votes and no more than half of the seats.
const REFUSE_ENTRY: &Plan<'static> = &Plan::Then(
    &Plan::Line(&[GET_WEIGHT, Fixed(Instr::Add(WEIGHT, WEIGHT))]),
    &Plan::If(
        Test::Less(TOTAL, WEIGHT),
        &Plan::Then(
            &Plan::Line(&[GET_HELD, Fixed(Instr::Add(HELD, HELD))]),
            &Plan::If(Test::Less(AMOUNT, HELD), NOTHING, &Plan::Stop(NO_MAJORITY)),
        ),
        NOTHING,
    ),
);

const REFUSE_ON_LIST: &Plan<'static> = &Plan::If(Test::NoList, NOTHING, REFUSE_ENTRY);

const REFUSE_PARTIES: &Plan<'static> = &Plan::If(
    Test::Zero(AMOUNT),
    NOTHING,
    &Plan::Each(Cursor::Party, REFUSE_ENTRY),
);

const REFUSE_LANDS: &Plan<'static> = &Plan::If(
    Test::Zero(AMOUNT),
    NOTHING,
    &Plan::Each(Cursor::Land, REFUSE_ENTRY),
);

const REFUSE_LISTS: &Plan<'static> = &Plan::If(
    Test::Zero(AMOUNT),
    NOTHING,
    &Plan::Each(Cursor::Land, &Plan::Each(Cursor::Party, REFUSE_ON_LIST)),
);

const REFUSE_LISTS_OF_PARTY: &Plan<'static> = &Plan::If(
    Test::Zero(AMOUNT),
    NOTHING,
    &Plan::Each(Cursor::Land, REFUSE_ON_LIST),
);

const REFUSE_LISTS_IN_LAND: &Plan<'static> = &Plan::If(
    Test::Zero(AMOUNT),
    NOTHING,
    &Plan::Each(Cursor::Party, REFUSE_ON_LIST),
);

/// The majority clause, where it refuses seats.
pub fn refuse(block: &Block) -> &'static Plan<'static>
    ensures { tree_of (given_of block.now) result.now ≡ refuse_in block.now }
{
    match (block.job.majority, block.form) {
        (Majority::Refuse, Form::AllParties) => REFUSE_PARTIES,
        (Majority::Refuse, Form::AllLands) => REFUSE_LANDS,
        (Majority::Refuse, Form::AllLists) => REFUSE_LISTS,
        (Majority::Refuse, Form::ListsOfParty) => REFUSE_LISTS_OF_PARTY,
        (Majority::Refuse, Form::ListsInLand) => REFUSE_LISTS_IN_LAND,
        _ => NOTHING,
    }
}
