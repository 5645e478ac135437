//! The seats that are awarded.

ghost use Rattle.std.specs.Prelude.{◌≡◌, List};
ghost use Rattle.sl_code_instructions.specs.declared.instr.Instr.{Instr};
ghost use Rattle.sl_compile_layout.specs.inner.Layout.{tree_of};
ghost use Rattle.sl_blocks.specs.inner.Given.{given_of};
ghost use Rattle.sl_blocks.specs.inner.LayoutParts.{count_left, whole_batches, drawn_batch};

use crate::batches::batches;
use crate::blanks::{Block, DRAW, EMIT, ENTER_HELD, GET_HELD, GET_WEIGHT, STORE_HELD, TIE};
use crate::entries::NOTHING;
use sl_base_quotients::{MAX_SEATS, Method};
use sl_code_instructions::Instr;
use sl_compile_layout::Part::Fixed;
use sl_compile_layout::{Bound, ONES, Plan, Test};
use sl_compile_pieces::registers::{ALL_LEFT, HELD, IN_BATCH, LEFT, PEERS, STEP, TURNS, WEIGHT};

pub const COUNT_LEFT: &Plan<'static> = &Plan::Line(&[
    Fixed(Instr::Mov(ALL_LEFT, LEFT)),
    Fixed(Instr::Mov(TURNS, LEFT)),
]);

/// Counts the seats to award, and as many turns.
pub fn count_left() -> &'static Plan<'static>
    ensures { (given : List Instr) → tree_of given result.now ≡ count_left }
{
    COUNT_LEFT
}

pub const ENDS_BY_TIE: &Plan<'static> = &Plan::Stop(TIE);

/// One seat more for the entry at the cursors, in a turn.
const ONE_MORE: &Plan<'static> = &Plan::Line(&[
    GET_HELD,
    Fixed(Instr::Add(HELD, ONES)),
    STORE_HELD,
    EMIT,
]);

pub const ENTER_AGAIN: &Plan<'static> = &Plan::Then(
    &Plan::Line(&[GET_WEIGHT]),
    &Plan::If(Test::Zero(WEIGHT), NOTHING, &Plan::Line(&[ENTER_HELD])),
);

const SEAT_BY_QUOTIENTS: &Plan<'static> = &Plan::Then(ONE_MORE, ENTER_AGAIN);

const SEAT_BY_REMAINDERS: &Plan<'static> = &Plan::Then(ONE_MORE, NOTHING);

pub const COUNT_STEP: &Plan<'static> = &Plan::Line(&[
    Fixed(Instr::Mov(STEP, ALL_LEFT)),
    Fixed(Instr::Sub(STEP, LEFT)),
    Fixed(Instr::Set(ONES, 1)),
    Fixed(Instr::Add(STEP, ONES)),
]);

/// A batch begins if there are seats for all peers. The turns that come after this one are one fewer than the seats that are left, so they
/// tell its step.
pub const WHOLE_BATCH: &Plan<'static> = &Plan::If(
    Test::Empty(PEERS),
    NOTHING,
    &Plan::If(
        Test::Less(LEFT, PEERS),
        NOTHING,
        &Plan::Line(&[
            Fixed(Instr::Mov(IN_BATCH, PEERS)),
            Fixed(Instr::Mov(STEP, ALL_LEFT)),
            Fixed(Instr::Sub(STEP, TURNS)),
        ]),
    ),
);

pub const LESS_LEFT: &Plan<'static> = &Plan::Line(&[Fixed(Instr::Sub(LEFT, ONES))]);

const BATCHES_BY_QUOTIENTS: &Plan<'static> = batches!(
    TURNS,
    Bound::AtMost(MAX_SEATS),
    WHOLE_BATCH,
    &Plan::Then(LESS_LEFT, SEAT_BY_QUOTIENTS)
);

const BATCHES_BY_REMAINDERS: &Plan<'static> = batches!(
    TURNS,
    Bound::AtMost(MAX_SEATS),
    WHOLE_BATCH,
    &Plan::Then(LESS_LEFT, SEAT_BY_REMAINDERS)
);

/// Awards whole batches of seats.
pub fn whole_batches(block: &Block) -> &'static Plan<'static>
    ensures { tree_of (given_of block.now) result.now ≡ whole_batches block.now }
{
    match block.method {
        Method::Divisor(_) => BATCHES_BY_QUOTIENTS,
        Method::Hamilton => BATCHES_BY_REMAINDERS,
    }
}

/// Awards the seats that are left, at most the bound, by lot.
macro_rules! draw_seats {
    ($bound:expr, $draw:expr, $seat:expr) => {
        &Plan::Then(
            COUNT_STEP,
            &Plan::Times(
                LEFT,
                $bound,
                &Plan::If(Test::Empty(PEERS), NOTHING, &Plan::Then(&Plan::Line(&[$draw]), $seat)),
            ),
        )
    };
}

pub(crate) use draw_seats;

const DRAWN_BY_QUOTIENTS: &Plan<'static> = draw_seats!(
    Bound::AtMost(MAX_SEATS),
    DRAW,
    SEAT_BY_QUOTIENTS
);

const DRAWN_BY_REMAINDERS: &Plan<'static> = draw_seats!(
    Bound::AtMost(MAX_SEATS),
    DRAW,
    SEAT_BY_REMAINDERS
);

/// Awards the seats that are left as the lot draws them.
pub fn drawn_batch(block: &Block) -> &'static Plan<'static>
    ensures { tree_of (given_of block.now) result.now ≡ drawn_batch block.now }
{
    match block.method {
        Method::Divisor(_) => DRAWN_BY_QUOTIENTS,
        Method::Hamilton => DRAWN_BY_REMAINDERS,
    }
}
