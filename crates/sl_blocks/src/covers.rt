//! The block of a covering.

ghost use Rattle.std.specs.Prelude.{◌≡◌, ◌+◌, ◌≤◌, [], ◌∷◌, IfOk, OnErr, vec_len};
ghost use Rattle.sl_compile_layout.specs.inner.Layout.{tree_of};
ghost use Rattle.sl_compile_pieces.specs.covers.Trees.{CoverSlots, cover_contested, cover_tree};
ghost use Rattle.sl_blocks.specs.Blocks.{HasSlotsOf};
ghost use Rattle.sl_blocks.specs.inner.Covers.{cover_given, cover_slots, IsCoverBlock, IsCoverJob};
ghost use Rattle.sl_blocks.specs.PlanBlocks.{AreBlocks};

use crate::awards::{COUNT_LEFT, COUNT_STEP, LESS_LEFT, WHOLE_BATCH, draw_seats};
use crate::batches::batches;
use crate::blocks::MAX_BLOCK_INSTRS;
use crate::entries::NOTHING;
use sl_base_quotients::NoMemory;
use sl_code_instructions::{Entries, Instr, MAX_INSTRS, Ranking, ScopeKind};
use sl_code_semantics::LAST_CLAUSE;
use sl_compile_layout::Part::Fixed;
use sl_compile_layout::{Bound, Cursor, ONES, Part, Plan, Test, lay};
use sl_compile_pieces::registers::{
    AMOUNT, BASE, FIRST_PASSING, IN_BATCH, LEFT, NEEDED, PEERS, SECOND_PASSING, TOTAL, TURNS,
    WEIGHT,
};
use sl_law_meaning::Shape;

/// How many winners the list at the cursors has; later, its number.
const GET_NUMBER: Part = Part::Given(0);

/// 1 where the party at the cursors is eligible.
const GET_ELIGIBLE: Part = Part::Given(1);

/// The seats of the list at the cursors.
const GET_SEATS: Part = Part::Given(2);

const ZERO_NUMBERS: Part = Part::Given(3);

const STORE_COUNT: Part = Part::Given(4);

const STORE_NUMBER: Part = Part::Given(5);

/// A winner waits by the share of first votes.
const ENTER_BY_SHARE: Part = Fixed(Instr::Share);

/// Every winner without a party is a single.
const PLACE_SINGLES: &Plan<'static> = &Plan::Each(
    Cursor::Win,
    &Plan::If(Test::NoParty, &Plan::Line(&[Fixed(Instr::Single)]), NOTHING),
);

/// The plan for a winner whose party is eligible and has a list in the winner's Land, with the cursors at that list.
macro_rules! if_seatable {
    ($plan:expr) => {
        &Plan::Then(
            &Plan::Line(&[Fixed(Instr::Wland)]),
            &Plan::If(
                Test::NoParty,
                NOTHING,
                &Plan::If(
                    Test::NoList,
                    NOTHING,
                    &Plan::Then(
                        &Plan::Line(&[GET_ELIGIBLE]),
                        &Plan::If(Test::Zero(BASE), NOTHING, $plan),
                    ),
                ),
            ),
        )
    };
}

/// Counts the winner on the list.
const COUNT_WINNER: &Plan<'static> = &Plan::Line(&[
    GET_NUMBER,
    Fixed(Instr::Set(ONES, 1)),
    Fixed(Instr::Add(WEIGHT, ONES)),
    STORE_COUNT,
]);

const COUNT_WINNERS: &Plan<'static> = &Plan::Then(
    &Plan::Line(&[ZERO_NUMBERS]),
    &Plan::Each(Cursor::Win, if_seatable!(COUNT_WINNER)),
);

/// The seats of the list, the winners for whom it has none, and the number 0.
const WINNERS_LEFT: &Plan<'static> = &Plan::Line(&[
    GET_SEATS,
    Fixed(Instr::Sub(WEIGHT, LEFT)),
    Fixed(Instr::Set(SECOND_PASSING, 0)),
]);

/// A list is contested if it has seats, but fewer than winners. It is counted, and that is its number.
const COUNT_CONTESTED: &Plan<'static> = &Plan::If(
    Test::Zero(WEIGHT),
    NOTHING,
    &Plan::If(
        Test::Zero(LEFT),
        NOTHING,
        &Plan::Line(&[
            Fixed(Instr::Set(ONES, 1)),
            Fixed(Instr::Add(NEEDED, ONES)),
            Fixed(Instr::Mov(SECOND_PASSING, NEEDED)),
        ]),
    ),
);

const TAKE_NUMBER: &Plan<'static> = &Plan::Then(
    WINNERS_LEFT,
    &Plan::Then(COUNT_CONTESTED, &Plan::Line(&[STORE_NUMBER])),
);

/// A list without winners has the number 0 already.
const NUMBER_LIST: &Plan<'static> = &Plan::Then(
    &Plan::Line(&[GET_NUMBER]),
    &Plan::If(Test::Zero(WEIGHT), NOTHING, TAKE_NUMBER),
);

/// Numbers the contested lists from 1 on, in list order, and counts them. All other lists have the number 0.
const NUMBER_CONTESTED: &Plan<'static> = &Plan::Then(
    &Plan::Line(&[Fixed(Instr::Set(NEEDED, 0))]),
    &Plan::Each(Cursor::Land, &Plan::Each(Cursor::Party, NUMBER_LIST)),
);

const SEAT_WINNER: &Plan<'static> = &Plan::Line(&[Fixed(Instr::Seat)]);

/// On a list with seats that is not contested, there is one for each winner.
const SEAT_FITTING: &Plan<'static> = &Plan::Then(
    &Plan::Line(&[GET_NUMBER, GET_SEATS]),
    &Plan::If(
        Test::Zero(WEIGHT),
        &Plan::If(Test::Zero(LEFT), NOTHING, SEAT_WINNER),
        NOTHING,
    ),
);

const SEAT_UNCONTESTED: &Plan<'static> = &Plan::Each(Cursor::Win, if_seatable!(SEAT_FITTING));

/// A winner of the list is entered and counted, and brings its seats.
const ENTER_WINNER: &Plan<'static> = &Plan::Line(&[
    ENTER_BY_SHARE,
    Fixed(Instr::Set(ONES, 1)),
    Fixed(Instr::Add(TOTAL, ONES)),
    GET_SEATS,
]);

/// Is the winner one of the list whose turn it is, by the number of the winner's list? Only a list of an eligible party is contested, so
/// that is not asked again.
const OF_PAIR: &Plan<'static> = &Plan::Then(
    &Plan::Line(&[GET_NUMBER]),
    &Plan::If(
        Test::Less(WEIGHT, AMOUNT),
        NOTHING,
        &Plan::If(Test::Less(AMOUNT, WEIGHT), NOTHING, ENTER_WINNER),
    ),
);

const SEE_WINNER: &Plan<'static> = &Plan::Then(
    &Plan::Line(&[Fixed(Instr::Wland)]),
    &Plan::If(Test::NoParty, NOTHING, OF_PAIR),
);

/// The smaller one of the list's seats and its winners.
const SEATS_TO_GIVE: &Plan<'static> = &Plan::Line(&[
    Fixed(Instr::Mov(FIRST_PASSING, TOTAL)),
    Fixed(Instr::Sub(FIRST_PASSING, LEFT)),
    Fixed(Instr::Mov(LEFT, TOTAL)),
    Fixed(Instr::Sub(LEFT, FIRST_PASSING)),
]);

/// Ends with a tie whose scope is the list: the cursors are set to it by a winner, who is taken and enters again.
const TIED_WINNERS: &Plan<'static> = &Plan::Then(
    &Plan::Line(&[Fixed(Instr::Take), ENTER_BY_SHARE, Fixed(Instr::Wland)]),
    &Plan::If(
        Test::NoParty,
        NOTHING,
        &Plan::If(
            Test::Empty(PEERS),
            NOTHING,
            &Plan::Stop(Fixed(Instr::Tie(LAST_CLAUSE, ScopeKind::List, LEFT))),
        ),
    ),
);

const WHOLE_BATCHES: &Plan<'static> = batches!(
    TURNS,
    Bound::Wins,
    WHOLE_BATCH,
    &Plan::Then(LESS_LEFT, SEAT_WINNER)
);

const LAST_BATCH: &Plan<'static> = &Plan::If(
    Test::Zero(LEFT),
    NOTHING,
    &Plan::Then(
        &Plan::If(
            Test::Empty(PEERS),
            NOTHING,
            &Plan::If(Test::NotCovered(LAST_CLAUSE), TIED_WINNERS, NOTHING),
        ),
        draw_seats!(Bound::Wins, Fixed(Instr::Takelot(LAST_CLAUSE)), SEAT_WINNER),
    ),
);

/// Seats winners of the next contested list.
const COVER_PAIR: &Plan<'static> = &Plan::Then(
    &Plan::Line(&[
        Fixed(Instr::Set(ONES, 1)),
        Fixed(Instr::Add(AMOUNT, ONES)),
        Fixed(Instr::Set(TOTAL, 0)),
        Fixed(Instr::Set(LEFT, 0)),
        Fixed(Instr::Table(Entries::Win, Ranking::Quotients)),
    ]),
    &Plan::Then(
        &Plan::Each(Cursor::Win, SEE_WINNER),
        &Plan::Then(
            SEATS_TO_GIVE,
            &Plan::Then(COUNT_LEFT, &Plan::Then(WHOLE_BATCHES, LAST_BATCH)),
        ),
    ),
);

const COVER_CONTESTED: &Plan<'static> = &Plan::Then(
    &Plan::Line(&[Fixed(Instr::Set(AMOUNT, 0))]),
    &Plan::Times(NEEDED, Bound::Lists, COVER_PAIR),
);

/// The plan for the contested lists, whatever slots it is given.
fn cover_contested() -> &'static Plan<'static>
    ensures { (x : CoverSlots) → tree_of (cover_given x) result.now ≡ cover_contested x }
{
    COVER_CONTESTED
}

/// Appends the block of a covering (docs/blocks.md, section 6), which places each winner, or ends the run with the first
/// tie. It is the plan of `sl_compile_pieces` after a declaration. The numbers of the lists stand in the first scratch slot by list.
///
/// `base` is the slot of the seats of the lists, `eligible` that of the eligible parties, 1 for such a party and 0 for others. They and the
/// scratch slot are among the slots given and have their shapes; the code has room for a block.
///
/// # Errors
/// Without memory, the code is as it was.
pub fn cover_block(
    code: &mut Vec<Instr>,
    slots: &[Shape],
    base: u8,
    eligible: u8,
    scratch: [[u8; 8]; 4],
) -> Result<(), NoMemory>
    requires job { IsCoverJob slots.now (cover_slots base eligible scratch) }
    requires room { vec_len code.old + MAX_BLOCK_INSTRS ≤ MAX_INSTRS }
    ensures ok { IfOk result (λ _. IsCoverBlock slots.now (cover_slots base eligible scratch) code.old.items code.new.items) }
    ensures plan { IfOk result (λ _. AreBlocks (HasSlotsOf slots.now) (cover_tree (cover_slots base eligible scratch) ∷ []) code.old.items code.new.items) }
    ensures err { OnErr result (code.new.items ≡ code.old.items) }
{
    let numbers = scratch[3][0];
    let given = [
        Instr::Get(WEIGHT, numbers),
        Instr::Get(BASE, eligible),
        Instr::Get(LEFT, base),
        Instr::Zero(numbers),
        Instr::Store(numbers, WEIGHT),
        Instr::Store(numbers, SECOND_PASSING),
    ];
    let lists = Plan::Then(SEAT_UNCONTESTED, cover_contested());
    let numbered = Plan::Then(NUMBER_CONTESTED, &lists);
    let counted = Plan::Then(COUNT_WINNERS, &numbered);
    let plan = Plan::Then(PLACE_SINGLES, &counted);
    lay(code, &plan, &given)
}
