//! The instructions that are given to the plans of a block: those that name its slots, its stage, its form or its method.

ghost use Rattle.std.specs.Prelude.{◌≡◌};
ghost use Rattle.sl_compile_pieces.specs.scopes.Forms.{table_of, kind_of};
ghost use Rattle.sl_blocks.specs.inner.Given.{minimum_of, divisor_of, given_of};
ghost use Rattle.sl_compile_pieces.specs.seats.Trees.{ranking_of};

use crate::form::{kind_of, table_of};
use crate::job::Job;
use sl_base_quotients::{Divisor, Method};
use sl_code_instructions::{EndFault, Instr, Ranking, Rounding};
use sl_compile_layout::Part;
use sl_compile_pieces::Form;
use sl_compile_pieces::registers::{AMOUNT, BASE, FIRST_PASSING, HELD, LEFT, NUMBER, STEP, WEIGHT};

/// A split or a growth as it is laid out.
#[derive(Clone, Copy)]
pub struct Block {
    pub form: Form,
    pub job: Job,
    pub method: Method,
    /// The most seats of a growth; a split has none.
    pub cap: Option<u32>,
}

pub const GET_AMOUNT: Part = Part::Given(0);

pub const GET_WEIGHT: Part = Part::Given(1);

/// The minimum of an entry, or 0.
pub const GET_MINIMUM: Part = Part::Given(2);

pub const GET_HELD: Part = Part::Given(3);

pub const STORE_BASE: Part = Part::Given(4);

pub const STORE_HELD: Part = Part::Given(5);

pub const ZERO_RESULT: Part = Part::Given(6);

pub const GIVE: Part = Part::Given(7);

pub const EMIT: Part = Part::Given(8);

pub const OVER_LIMIT: Part = Part::Given(9);

pub const SHORT: Part = Part::Given(10);

pub const NO_LIST: Part = Part::Given(11);

pub const NO_MAJORITY: Part = Part::Given(12);

pub const OVER_CAP: Part = Part::Given(13);

pub const TIE: Part = Part::Given(14);

pub const DRAW: Part = Part::Given(15);

pub const WEIGH: Part = Part::Given(16);

/// The quotient for the seats that an entry has before any is awarded.
pub const ENTER_BASE: Part = Part::Given(17);

/// The quotient for the seats that it holds.
pub const ENTER_HELD: Part = Part::Given(18);

pub const TABLE: Part = Part::Given(19);

pub const CAP_IN_PASSING: Part = Part::Given(20);

pub const CAP_LEFT: Part = Part::Given(21);

/// The table by quotients, whatever the method is.
pub const SEARCH_TABLE: Part = Part::Given(22);

/// The instructions of the blanks, in order.
pub fn given_of(block: &Block) -> [Instr; 23]
    ensures { result ≡ given_of block.now }
{
    let Job {
        stage,
        amount,
        weights,
        minima,
        result: seats,
        ..
    } = block.job;
    let kind = kind_of(block.form);
    let divisor = divisor_of(block.method);
    // the weights of a method that does not round are not recorded
    let rounding = Rounding::of(divisor).unwrap_or(Rounding::Webster);
    let cap = block.cap.unwrap_or(0) as u64;
    [
        Instr::Get(AMOUNT, amount),
        Instr::Get(WEIGHT, weights),
        minimum_of(minima),
        Instr::Get(HELD, seats),
        Instr::Store(seats, BASE),
        Instr::Store(seats, HELD),
        Instr::Zero(seats),
        Instr::Given(stage, kind, NUMBER),
        Instr::Emit(stage, kind, HELD, STEP),
        Instr::Fault(stage, kind, EndFault::Limit),
        Instr::Fault(stage, kind, EndFault::Short),
        Instr::Fault(stage, kind, EndFault::NoList),
        Instr::Fault(stage, kind, EndFault::Majority),
        Instr::Fault(stage, kind, EndFault::Cap),
        Instr::Tie(stage, kind, LEFT),
        Instr::Takelot(stage),
        Instr::Weigh(stage, kind, rounding, WEIGHT),
        Instr::Prio(divisor, WEIGHT, BASE),
        Instr::Prio(divisor, WEIGHT, HELD),
        Instr::Table(table_of(block.form), ranking_of(block.method)),
        Instr::Set(FIRST_PASSING, cap),
        Instr::Set(LEFT, cap),
        Instr::Table(table_of(block.form), Ranking::Quotients),
    ]
}

fn minimum_of(minima: Option<u8>) -> Instr
    ensures { result ≡ minimum_of minima }
{
    match minima {
        Some(slot) => Instr::Get(BASE, slot),
        None => Instr::Set(BASE, 0),
    }
}

/// The divisor method. Hamilton's has none, and its plans no instruction that names one.
fn divisor_of(method: Method) -> Divisor
    ensures { result ≡ divisor_of method }
{
    match method {
        Method::Divisor(divisor) => divisor,
        Method::Hamilton => Divisor::Webster,
    }
}

fn ranking_of(method: Method) -> Ranking
    ensures { result ≡ ranking_of method }
{
    match method {
        Method::Divisor(_) => Ranking::Quotients,
        Method::Hamilton => Ranking::Remainders,
    }
}
