//! The house of a growth: the search for it, and the amount that grows to it.

ghost use Rattle.std.specs.Prelude.{◌≡◌, unwrap_or};
ghost use Rattle.sl_compile_layout.specs.inner.Layout.{tree_of};
ghost use Rattle.sl_blocks.specs.declared.blanks.Block.{Block as SpecBlock};
ghost use Rattle.sl_blocks.specs.inner.Given.{given_of};
ghost use Rattle.sl_blocks.specs.inner.LayoutParts.{search_entries, search_batches};

use crate::awards::ENTER_AGAIN;
use crate::batches::batches;
use crate::blanks::{
    Block, CAP_IN_PASSING, CAP_LEFT, ENTER_HELD, GET_HELD, GET_MINIMUM, GET_WEIGHT, OVER_CAP,
    SEARCH_TABLE, STORE_HELD,
};
use crate::entries::{NOTHING, by_party, each_entry};
use sl_base_quotients::MAX_SEATS;
use sl_code_instructions::Instr;
use sl_compile_layout::Part::Fixed;
use sl_compile_layout::{Bound, Cursor, ONES, Plan, Test};
use sl_compile_pieces::registers::{
    ALL_LEFT, AMOUNT, BASE, FIRST_PASSING, HELD, IN_BATCH, LEFT, NEEDED, NUMBER, PEERS, TURNS,
    WEIGHT,
};

/// Ends where the minima need more seats than the cap.
pub const WITHIN_CAP: &Plan<'static> = &Plan::Then(
    &Plan::Line(&[CAP_IN_PASSING]),
    &Plan::If(
        Test::Less(FIRST_PASSING, NEEDED),
        &Plan::Stop(OVER_CAP),
        NOTHING,
    ),
);

pub const CLEAR_SEARCH: &Plan<'static> = &Plan::Line(&[
    Fixed(Instr::Set(NUMBER, 0)),
    Fixed(Instr::Set(TURNS, 0)),
    SEARCH_TABLE,
]);

/// In the search the register of numbers holds the minima of entries without weight, and that of turns what the seats that the other
/// entries hold lack of their minima.
const SEARCH_ENTRY: &Plan<'static> = by_party!(&Plan::Then(
    &Plan::Line(&[GET_WEIGHT]),
    &Plan::Then(
        &Plan::Line(&[GET_MINIMUM]),
        &Plan::Then(
            &Plan::If(
                Test::Zero(WEIGHT),
                &Plan::Line(&[Fixed(Instr::Add(NUMBER, BASE))]),
                &Plan::Line(&[Fixed(Instr::Add(TURNS, BASE))]),
            ),
            &Plan::Then(
                &Plan::Line(&[Fixed(Instr::Set(HELD, 0)), STORE_HELD]),
                &Plan::If(Test::Zero(WEIGHT), NOTHING, &Plan::Line(&[ENTER_HELD])),
            ),
        ),
    ),
));

/// Each entry begins without seats.
pub fn search_entries(block: &Block) -> Plan<'static>
    ensures { tree_of (given_of block.now) result ≡ search_entries block.now }
{
    each_entry(block.form, SEARCH_ENTRY)
}

/// A batch begins as long as a minimum is not met; else no turns are left.
const SEARCH_BATCH: &Plan<'static> = &Plan::If(
    Test::Zero(TURNS),
    &Plan::Line(&[Fixed(Instr::Set(LEFT, 0))]),
    &Plan::If(
        Test::Empty(PEERS),
        NOTHING,
        &Plan::Line(&[Fixed(Instr::Mov(IN_BATCH, PEERS))]),
    ),
);

/// A seat of the search.
const SEARCH_SEAT: &Plan<'static> = &Plan::Then(
    &Plan::Line(&[GET_HELD]),
    &Plan::Then(
        &Plan::Line(&[GET_MINIMUM]),
        &Plan::Then(
            &Plan::If(
                Test::Less(HELD, BASE),
                &Plan::Line(&[Fixed(Instr::Sub(TURNS, ONES))]),
                NOTHING,
            ),
            &Plan::Then(
                &Plan::Line(&[
                    Fixed(Instr::Add(HELD, ONES)),
                    STORE_HELD,
                    Fixed(Instr::Add(ALL_LEFT, ONES)),
                ]),
                ENTER_AGAIN,
            ),
        ),
    ),
);

const SEARCH_BATCHES: &Plan<'static> = &Plan::Then(
    &Plan::Line(&[Fixed(Instr::Set(ALL_LEFT, 0)), CAP_LEFT]),
    batches!(LEFT, Bound::AtMost(MAX_SEATS), SEARCH_BATCH, SEARCH_SEAT),
);

/// The entries get seats until each minimum is met.
pub fn search_batches() -> &'static Plan<'static>
    ensures { (b : SpecBlock) → tree_of (given_of b) result.now ≡ search_batches b (unwrap_or b.cap 0) }
{
    SEARCH_BATCHES
}

/// The amount grows to the house that the search found.
pub const TAKE_HOUSE: &Plan<'static> = &Plan::Then(
    &Plan::Line(&[
        Fixed(Instr::Mov(FIRST_PASSING, IN_BATCH)),
        Fixed(Instr::Add(FIRST_PASSING, TURNS)),
    ]),
    &Plan::Then(
        &Plan::If(Test::Zero(FIRST_PASSING), NOTHING, &Plan::Stop(OVER_CAP)),
        &Plan::Then(
            &Plan::Line(&[
                Fixed(Instr::Add(ALL_LEFT, NUMBER)),
                Fixed(Instr::Max(AMOUNT, ALL_LEFT)),
            ]),
            &Plan::Then(
                &Plan::Line(&[CAP_IN_PASSING]),
                &Plan::If(
                    Test::Less(FIRST_PASSING, AMOUNT),
                    &Plan::Stop(OVER_CAP),
                    NOTHING,
                ),
            ),
        ),
    ),
);
