//! The first seats of each entry, and how it enters the table.

ghost use Rattle.std.specs.Prelude.{◌≡◌, IsSome};
ghost use Rattle.sl_compile_layout.specs.inner.Layout.{tree_of};
ghost use Rattle.sl_blocks.specs.inner.Given.{given_of};
ghost use Rattle.sl_blocks.specs.inner.LayoutParts.{fill_entries, fill_outside};

use crate::blanks::{Block, ENTER_BASE, GET_MINIMUM, GET_WEIGHT, GIVE, STORE_BASE, TABLE, WEIGH};
use crate::entries::{NOTHING, by_party, each_entry};
use sl_base_quotients::{MAX_SEATS, Method};
use sl_code_instructions::Instr;
use sl_compile_layout::Part::Fixed;
use sl_compile_layout::{Bound, Cursor, ONES, Plan, Test};
use sl_compile_pieces::registers::{
    AMOUNT, BASE, FIRST_PASSING, LEFT, NUMBER, SECOND_PASSING, STEP, TOTAL, TURNS, WEIGHT,
};
use sl_law_meaning::Majority;

pub const CLEAR_TABLE: &Plan<'static> = &Plan::Line(&[TABLE, Fixed(Instr::Mov(LEFT, AMOUNT))]);

const TAKE_MINIMUM: &Plan<'static> = &Plan::Line(&[GET_MINIMUM]);

/// The whole part of the share, and what remains of it.
const TAKE_WHOLE: &Plan<'static> = &Plan::Then(
    &Plan::Line(&[
        Fixed(Instr::Mov(BASE, AMOUNT)),
        Fixed(Instr::Mul(BASE, WEIGHT)),
        Fixed(Instr::Mov(STEP, BASE)),
    ]),
    &Plan::If(
        Test::Zero(TOTAL),
        NOTHING,
        &Plan::Line(&[
            Fixed(Instr::Div(BASE, TOTAL)),
            Fixed(Instr::Rem(STEP, TOTAL)),
        ]),
    ),
);

/// A minimum where there is no weight.
const TAKE_OUTSIDE: &Plan<'static> = &Plan::If(
    Test::Zero(WEIGHT),
    TAKE_MINIMUM,
    &Plan::Line(&[Fixed(Instr::Set(BASE, 0))]),
);

const ENTER_QUOTIENT: &Plan<'static> = &Plan::Line(&[ENTER_BASE]);

const WEIGH_AND_ENTER: &Plan<'static> = &Plan::Line(&[WEIGH, ENTER_BASE]);

const ENTER_REMAINDER: &Plan<'static> = &Plan::Line(&[Fixed(Instr::Rest(STEP))]);

/// Ahead of all, where the entry has more than half of the votes and its whole part is no more than half of the seats.
const ENTER_PREFERRED: &Plan<'static> = &Plan::Then(
    &Plan::Line(&[
        Fixed(Instr::Mov(FIRST_PASSING, WEIGHT)),
        Fixed(Instr::Add(FIRST_PASSING, WEIGHT)),
        Fixed(Instr::Mov(SECOND_PASSING, BASE)),
        Fixed(Instr::Add(SECOND_PASSING, BASE)),
    ]),
    &Plan::If(
        Test::Less(TOTAL, FIRST_PASSING),
        &Plan::If(
            Test::Less(AMOUNT, SECOND_PASSING),
            ENTER_REMAINDER,
            &Plan::Line(&[Fixed(Instr::Lead)]),
        ),
        ENTER_REMAINDER,
    ),
);

/// The first seats of an entry, one after the other, where it has any.
const GIVE_BASE: &Plan<'static> = &Plan::If(
    Test::Zero(BASE),
    NOTHING,
    &Plan::Then(
        &Plan::Line(&[
            Fixed(Instr::Sub(LEFT, BASE)),
            Fixed(Instr::Set(NUMBER, 0)),
            Fixed(Instr::Mov(TURNS, BASE)),
        ]),
        &Plan::Times(
            TURNS,
            Bound::AtMost(MAX_SEATS),
            &Plan::Line(&[
                Fixed(Instr::Set(ONES, 1)),
                Fixed(Instr::Add(NUMBER, ONES)),
                GIVE,
            ]),
        ),
    ),
);

/// An entry gets its first seats, and the table its next one.
macro_rules! fill_entry {
    ($take:expr, $enter:expr) => {
        &Plan::Then(
            &Plan::Line(&[GET_WEIGHT]),
            &Plan::Then(
                $take,
                &Plan::Then(
                    &Plan::Line(&[STORE_BASE]),
                    &Plan::Then(GIVE_BASE, &Plan::If(Test::Zero(WEIGHT), NOTHING, $enter)),
                ),
            ),
        )
    };
}

const FILL_QUOTIENT: &Plan<'static> = by_party!(fill_entry!(TAKE_MINIMUM, ENTER_QUOTIENT));

const FILL_AND_WEIGH: &Plan<'static> = by_party!(fill_entry!(TAKE_MINIMUM, WEIGH_AND_ENTER));

const FILL_REMAINDER: &Plan<'static> = by_party!(fill_entry!(TAKE_WHOLE, ENTER_REMAINDER));

const FILL_PREFERRED: &Plan<'static> = by_party!(fill_entry!(TAKE_WHOLE, ENTER_PREFERRED));

const FILL_OUTSIDE: &Plan<'static> = by_party!(fill_entry!(TAKE_OUTSIDE, ENTER_QUOTIENT));

/// Gives each entry its first seats, and enters its next one.
pub fn fill_entries(block: &Block) -> Plan<'static>
    ensures { tree_of (given_of block.now) result ≡ fill_entries block.now }
{
    match (block.method, block.job.minima, block.job.majority) {
        (Method::Hamilton, _, Majority::Prefer) => each_entry(block.form, FILL_PREFERRED),
        (Method::Hamilton, _, _) => each_entry(block.form, FILL_REMAINDER),
        (Method::Divisor(divisor), None, _) if divisor.is_rounding() => each_entry(
            block.form,
            FILL_AND_WEIGH,
        ),
        _ => each_entry(block.form, FILL_QUOTIENT),
    }
}

/// The same in a growth, where only entries without weight have seats before any is awarded.
pub fn fill_outside(block: &Block) -> Plan<'static>
    requires { IsSome block.now.job.minima }
    ensures { tree_of (given_of block.now) result ≡ fill_outside block.now }
{
    each_entry(block.form, FILL_OUTSIDE)
}
