//! Blocks: the code before them is as it was, and they are laid out when they are asked for again.

ghost use Rattle.std.specs.Prelude.{◌≡◌, ◌≤◌, IfOk, OnErr, vec_len};

use crate::marks::{begin, end};
use sl_base_quotients::{Divisor, Method, NoMemory};
use sl_blocks::{Job, cover_block, grow_block, split_block};
use sl_code::Instr;
use sl_stages::{Majority, Shape};
use std::alloc::{AllocError, Global};

// The slots of the seats, the votes, the result and the minima, and of the parties whose winners a covering seats.
const AMOUNT: u8 = 0;

const VOTES: u8 = 1;

const RESULT: u8 = 2;

const MINIMA: u8 = 3;

const ELIGIBLE: u8 = 4;

// Their shapes.
const SLOTS: [Shape; 5] = [
    Shape::One,
    Shape::List,
    Shape::List,
    Shape::List,
    Shape::Party,
];

// A covering works in the slot of the votes.
const SCRATCH: [[u8; 8]; 4] = [[0; 8], [0; 8], [0; 8], [VOTES; 8]];

// All lists in one scope, without minima.
const PLAIN: Job = Job {
    stage: 0,
    amount: AMOUNT,
    weights: VOTES,
    minima: None,
    result: RESULT,
    majority: Majority::Free,
    scratch: [[0; 8]; 4],
};

// The same with minima.
const AT_LEAST: Job = Job {
    minima: Some(MINIMA),
    ..PLAIN
};

// A block: a split, a growth by Webster's method, or a covering.
#[derive(Clone, Copy)]
enum Block {
    Split(Method),
    Growth,
    Covering,
}

fn lay_split(code: &mut Vec<Instr>, method: Method) -> Result<(), NoMemory>
    requires { vec_len code.old ≤ 199000 }
    ensures { OnErr result (code.new.items ≡ code.old.items) }
{
    split_block(code, &SLOTS, &PLAIN, method)
}

fn lay_growth(code: &mut Vec<Instr>, cap: u32) -> Result<(), NoMemory>
    requires cap { cap ≤ 4000 }
    requires room { vec_len code.old ≤ 199000 }
    ensures { OnErr result (code.new.items ≡ code.old.items) }
{
    grow_block(code, &SLOTS, &AT_LEAST, Divisor::Webster, cap)
}

fn lay_covering(code: &mut Vec<Instr>) -> Result<(), NoMemory>
    requires { vec_len code.old ≤ 199000 }
    ensures { OnErr result (code.new.items ≡ code.old.items) }
{
    cover_block(code, &SLOTS, RESULT, ELIGIBLE, SCRATCH)
}

// Lays out a block. Without memory, the code is as it was.
fn lay(code: &mut Vec<Instr>, block: Block) -> Result<(), NoMemory>
    requires { vec_len code.old ≤ 199000 }
    ensures { OnErr result (code.new.items ≡ code.old.items) }
{
    match block {
        Block::Split(method) => lay_split(code, method),
        Block::Growth => lay_growth(code, 4000),
        Block::Covering => lay_covering(code),
    }
}

// What stands before a block.
fn before(alloc: Global) -> Result<Vec<Instr>, AllocError>
    ensures { IfOk result (λ code. vec_len code ≤ 199000) }
{
    Vec::from_slice(alloc, &[Instr::Set(0, 8), Instr::Store(AMOUNT, 0)])
}

// Whether two instructions have the same operation and the same operands.
fn is_same(left: Instr, right: Instr) -> bool {
    let (ours, theirs) = (left.operands(), right.operands());
    let mut pairs = ours.as_slice().iter().zip(theirs.as_slice());
    left.opcode() == right.opcode() && pairs.all(|(one, other)| one.value() == other.value())
}

// Whether two codes have the same instructions.
fn are_same(left: &[Instr], right: &[Instr]) -> bool {
    let mut pairs = left.iter().zip(right);
    left.len() == right.len() && pairs.all(|(one, other)| is_same(*one, *other))
}

// Lays out a block where memory may be refused. Where it is, the code is as it was, and the block is laid out then.
fn lay_again(alloc: Global, code: &mut Vec<Instr>, block: Block) -> Result<bool, NoMemory>
    requires { vec_len code.old ≤ 199000 }
{
    begin(alloc);
    let first = lay(code, block);
    end(alloc);
    if first.is_ok() {
        return Ok(true);
    }
    let was = before(alloc)?;
    let is_as_it_was = are_same(code.as_slice(), was.as_slice());
    lay(code, block)?;
    Ok(is_as_it_was)
}

// Whether a block is the same, laid out so, as with memory.
fn is_laid(alloc: Global, block: Block) -> Result<bool, NoMemory> {
    let mut code = before(alloc)?;
    let mut whole = before(alloc)?;
    lay(&mut whole, block)?;
    let is_as_it_was = lay_again(alloc, &mut code, block)?;
    let is_whole = are_same(code.as_slice(), whole.as_slice());
    Ok(is_as_it_was && is_whole && code.len() > 2)
}

const BLOCKS: [Block; 5] = [
    Block::Split(Method::Divisor(Divisor::Jefferson)),
    Block::Split(Method::Divisor(Divisor::Webster)),
    Block::Split(Method::Hamilton),
    Block::Growth,
    Block::Covering,
];

#[test]
fn blocks(rt: HostRuntime) {
    for block in &BLOCKS {
        assert!(rt; is_laid(rt.alloc(), *block) == Ok(true));
    }
}
