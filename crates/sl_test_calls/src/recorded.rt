//! Code files that were written by hand, whose runs record seats by remainders and by quotients, and weights, which no command shows; and how many steps
//! a run may have.

use crate::assertions::assert_none;
use crate::refused::texts::{Asked, runs_on};
use crate::rows::{HALT, ONE_LIST};
use sl_base_quotients::Divisor;
use sl_code::from_bytes;
use sl_code_semantics::Verified;
use sl_machine::{Ending, Memory, budget, run};
use sl_returns::read_returns;
use sl_stages::{Item, Scope, Shape, Weight};
use sl_verify::verify;
use std::alloc::Global;

// The stage `up`, and two List slots. Each list's votes are its remainder, and a list without votes leads. Each gets a seat, in this order.
// 0 input 1 0; 1 set 1 1; 2 table 2 1; 3 fland 17; 4 at 2 2 7; 5 fparty 15; 6 at 2 3 7; 7 get 2 1; 8 jz 2 11; 9 rest 2; 10 jmp 13
// 11 at 2 3 7; 12 lead; 13 at 2 3 7; 14 nparty 6; 15 at 2 2 7; 16 nland 4; 17 at 2 0 7; 18 peers 4 26; 19 take; 20 get 5 0
// 21 add 5 1; 22 store 0 5; 23 add 6 1; 24 emit 0 3 5 6; 25 jmp 17; 26 at 2 0 0; 27 halt 0
const REMAINDERS: &[u8] =
    b"SLC\x01\x01\x02up\x00\x02\x03\x03\x1c\x00\x00\x00\x10\x01\x00\x01\x01\x01\x00\x00\x00\x00\x00\x00\x00\x1a\x02\x01\x16\x11\x00\x00\x00*\x02\x00\x02\x07\x14\x0f\x00\x00\x00*\x02\x00\x03\x07\x0d\x02\x01\x0a\x02\x0b\x00\x00\x00\x1c\x02\x09\x0d\x00\x00\x00*\x02\x00\x03\x07\x1d*\x02\x00\x03\x07\x15\x06\x00\x00\x00*\x02\x00\x02\x07\x17\x04\x00\x00\x00*\x02\x00\x00\x07\x1f\x04\x1a\x00\x00\x00 \x0d\x05\x00\x03\x05\x01\x0e\x00\x05\x03\x06\x01#\x00\x03\x05\x06\x09\x11\x00\x00\x00*\x02\x00\x00\x00)\x00";

// A List slot. The first party has 30 votes and two seats, and wins a seat by each method; then it has more votes and seats than are used.
// 0 set 0 30; 1 set 1 2; 2 table 0 0; 3 fparty 30; 4 prio 0 0 1; 5 peers 4 30; 6 take; 7 emit 255 2 1 1; 8 prio 1 0 1; 9 peers 4 30
// 10 take; 11 emit 255 2 1 1; 12 prio 2 0 1; 13 peers 4 30; 14 take; 15 emit 255 2 1 1; 16 prio 3 0 1; 17 peers 4 30; 18 take
// 19 emit 255 2 1 1; 20 prio 4 0 1; 21 peers 4 30; 22 take; 23 emit 255 2 1 1; 24 set 0 1638400000001; 25 set 1 4001; 26 prio 4 0 1
// 27 peers 4 30; 28 take; 29 emit 255 2 1 1; 30 at 0 0 0; 31 halt 0
const QUOTIENTS: &[u8] =
    b"SLC\x01\x00\x01\x03 \x00\x00\x00\x01\x00\x1e\x00\x00\x00\x00\x00\x00\x00\x01\x01\x02\x00\x00\x00\x00\x00\x00\x00\x1a\x00\x00\x14\x1e\x00\x00\x00\x1b\x00\x00\x01\x1f\x04\x1e\x00\x00\x00 #\xff\x02\x01\x01\x1b\x01\x00\x01\x1f\x04\x1e\x00\x00\x00 #\xff\x02\x01\x01\x1b\x02\x00\x01\x1f\x04\x1e\x00\x00\x00 #\xff\x02\x01\x01\x1b\x03\x00\x01\x1f\x04\x1e\x00\x00\x00 #\xff\x02\x01\x01\x1b\x04\x00\x01\x1f\x04\x1e\x00\x00\x00 #\xff\x02\x01\x01\x01\x00\x01\x00@x}\x01\x00\x00\x01\x01\xa1\x0f\x00\x00\x00\x00\x00\x00\x1b\x04\x00\x01\x1f\x04\x1e\x00\x00\x00 #\xff\x02\x01\x01*\x00\x00\x00\x00)\x00";

// A List slot. Weights of a Land and of a list are recorded, the last one greater than is used.
// 0 set 0 30; 1 set 1 1638400000001; 2 fland 9; 3 table 1 0; 4 weigh 255 0 0 0; 5 weigh 255 1 3 0; 6 fparty 9; 7 table 2 0
// 8 weigh 255 3 4 1; 9 at 0 0 0; 10 halt 0
const WEIGHTS: &[u8] =
    b"SLC\x01\x00\x01\x03\x0b\x00\x00\x00\x01\x00\x1e\x00\x00\x00\x00\x00\x00\x00\x01\x01\x01\x00@x}\x01\x00\x00\x16\x09\x00\x00\x00\x1a\x01\x00,\xff\x00\x00\x00,\xff\x01\x03\x00\x14\x09\x00\x00\x00\x1a\x02\x00,\xff\x03\x04\x01*\x00\x00\x00\x00)\x00";

// The stage `up` with slot 0, two List slots. Each seat of the house goes to the greatest entry; where there are more peers than seats, the lot decides.
// 0 input 1 0; 1 house 0; 2 set 1 1; 3 table 2 0; 4 fland 16; 5 at 2 2 3; 6 fparty 14; 7 at 2 3 3; 8 jnl 12; 9 get 2 1; 10 jz 2 12
// 11 prio 4 2 3; 12 at 2 3 3; 13 nparty 7; 14 at 2 2 3; 15 nland 5; 16 at 2 0 3; 17 jz 0 38; 18 peers 4 38; 19 jlt 0 4 22; 20 take
// 21 jmp 25; 22 at 2 0 11; 23 lot 0 36; 24 takelot 0; 25 at 2 3 3; 26 get 5 0; 27 add 5 1; 28 store 0 5; 29 add 6 1; 30 emit 0 0 5 6
// 31 get 2 1; 32 jz 2 16; 33 prio 4 2 5; 34 sub 0 1; 35 jmp 16; 36 at 2 0 11; 37 tie 0 0 0; 38 at 0 0 0; 39 halt 0
const AWARDS: &[u8] =
    b"SLC\x01\x01\x02up\x00\x02\x03\x03(\x00\x00\x00\x10\x01\x00\x11\x00\x01\x01\x01\x00\x00\x00\x00\x00\x00\x00\x1a\x02\x00\x16\x10\x00\x00\x00*\x02\x00\x02\x03\x14\x0e\x00\x00\x00*\x02\x00\x03\x03\x0c\x0c\x00\x00\x00\x0d\x02\x01\x0a\x02\x0c\x00\x00\x00\x1b\x04\x02\x03*\x02\x00\x03\x03\x15\x07\x00\x00\x00*\x02\x00\x02\x03\x17\x05\x00\x00\x00*\x02\x00\x00\x03\x0a\x00&\x00\x00\x00\x1f\x04&\x00\x00\x00\x0b\x00\x04\x16\x00\x00\x00 \x09\x19\x00\x00\x00*\x02\x00\x00\x0b!\x00$\x00\x00\x00\"\x00*\x02\x00\x03\x03\x0d\x05\x00\x03\x05\x01\x0e\x00\x05\x03\x06\x01#\x00\x00\x05\x06\x0d\x02\x01\x0a\x02\x10\x00\x00\x00\x1b\x04\x02\x05\x04\x00\x01\x09\x10\x00\x00\x00*\x02\x00\x00\x0b&\x00\x00\x00*\x00\x00\x00\x00)\x00";

// `at 0 0 0`, `jmp 0`.
const ENDLESS: &str = "SLC\x01\x00\x00\x02\x00\x00\x00\x2a\x00\x00\x00\x00\x09\x00\x00\x00\x00";

// Three lists, the last one without votes.
const THREE_LISTS: &str =
    "kind,land,party,a,b,c\nland,X,,1,,\nparty,,A,0,,\nparty,,B,0,,\nparty,,C,0,,\nlist,X,A,20,20,\nlist,X,B,170,170,\nlist,X,C,0,0,\n";

// Lists of 60 and of 30 votes, for three seats.
const THREE_SEATS: &str =
    "kind,land,party,a,b,c\nhouse,,,3,,\nland,X,,100,,\nparty,,A,0,,\nparty,,B,0,,\nlist,X,A,60,60,\nlist,X,B,30,30,\n";

/// The code of a file that the verifier accepts.
pub fn accepted(alloc: Global, file: &[u8]) -> Option<Verified> {
    match from_bytes(alloc, file) {
        Ok(code) => verify(code).ok(),
        Err(_) => None,
    }
}

// Code files, returns, and the steps.
static RECORDED: [(&[u8], &str, &str); 3] = [
    (
        REMAINDERS,
        THREE_LISTS,
        "seat up list X A X/A 1 3 rest 20\nseat up list X B X/B 1 2 rest 170\nseat up list X C X/C 1 1 lead\ntotal 3\nparty A 1 0\nparty B 1 0\nparty C 1 0\nlist X A 1 0\nlist X B 1 0\nlist X C 1 0\n",
    ),
    (
        QUOTIENTS,
        ONE_LIST,
        "seat seats party A A 2 2 30/2\nseat seats party A A 2 2 150/12\nseat seats party A A 2 2 900/6\nseat seats party A A 2 2 60/5\nseat seats party A A 2 2 30/3\nseat seats party A A 4001 4001 1638400000000/4001\ntotal 0\nparty A 0 0\nlist X A 0 0\n",
    ),
    (
        AWARDS,
        THREE_SEATS,
        "seat up all X/A 1 1 60/1\nseat up all X/A 2 2 60/2\nseat up all X/B 1 3 30/1\ntotal 3\nparty A 2 0\nparty B 1 0\nlist X A 2 0\nlist X B 1 0\n",
    ),
];

// Whether the run of a code file records these steps.
fn records(alloc: Global, file: &[u8], returns: &str, text: &str) -> bool {
    match accepted(alloc, file) {
        Some(code) => runs_on(alloc, &code, returns, Asked::Steps, text.as_bytes()),
        None => false,
    }
}

// The first code file whose run records others.
fn first_steps_wrong(alloc: Global) -> Option<usize> {
    for (number, (file, returns, text)) in RECORDED.iter().enumerate() {
        if !records(alloc, file, returns, text) {
            return Some(number);
        }
    }
    None
}

#[test]
fn seats(rt: HostRuntime) {
    assert_none(&rt, first_steps_wrong(rt.alloc()));
}

// How the run of a code ends on the returns of one list, that has so many steps at most.
fn ending(alloc: Global, code: &Verified, steps: u64) -> Option<Ending> {
    match read_returns(alloc, ONE_LIST.as_bytes()) {
        Ok(returns) => run(alloc, code, &returns, steps).ok(),
        Err(_) => None,
    }
}

// How that of a code file ends.
fn file_ending(alloc: Global, file: &[u8], steps: u64) -> Option<Ending> {
    match accepted(alloc, file) {
        Some(code) => ending(alloc, &code, steps),
        None => None,
    }
}

// Whether a weight is that of an entry in a scope, for this divisor.
fn weighs(found: &Weight, scope: Scope, entry: Item, divisor: Divisor, weight: u64) -> bool {
    (found.scope, found.entry) == (scope, entry)
        && (found.divisor, found.weight) == (divisor, weight)
}

// Whether these are the weights of the Land, once in the whole and once in its own scope, and of the list.
fn are_weights(memory: &Memory) -> bool {
    let (land, list) = (Item::Land(0), Item::List(0, 0));
    let most = 1_638_400_000_000;
    match memory.weights() {
        [whole, own, last] => {
            weighs(whole, Scope::All, land, Divisor::Adams, 30)
                && weighs(own, Scope::Land(0), land, Divisor::Webster, 30)
                && weighs(last, Scope::List(0, 0), list, Divisor::Jefferson, most)
        }
        _ => false,
    }
}

// Whether a run of the code of weights records them.
fn records_weights(alloc: Global) -> bool {
    match file_ending(alloc, WEIGHTS, 1_000) {
        Some(Ending::Done(memory)) => are_weights(&memory),
        _ => false,
    }
}

#[test]
fn weights(rt: HostRuntime) {
    assert!(rt; records_weights(rt.alloc()));
}

// Whether what a run holds has no seat, no vacant seat and no weight.
fn is_nothing(memory: &Memory) -> bool {
    memory.base() == [0].as_slice()
        && memory.vacant() == [0].as_slice()
        && memory.steps().is_empty()
        && memory.weights().is_empty()
}

// Whether the run of the code that halts at once records nothing.
fn records_nothing(alloc: Global) -> bool {
    match file_ending(alloc, HALT.as_bytes(), 1) {
        Some(Ending::Done(memory)) => is_nothing(&memory),
        _ => false,
    }
}

#[test]
fn a_code_that_halts_at_once(rt: HostRuntime) {
    assert!(rt; records_nothing(rt.alloc()));
}

// Whether a code of one slot and one instruction is given back as it was accepted.
fn is_given_back(verified: Verified) -> bool {
    verified.code().instrs().len() == 1 && verified.into_code().slots() == [Shape::List].as_slice()
}

#[test]
fn an_accepted_code(rt: HostRuntime) {
    assert!(rt; accepted(rt.alloc(), HALT.as_bytes()).is_some_and(is_given_back));
}

// Code files, steps, and whether runs of so many steps end.
static ENDS: [(&str, u64, bool); 3] = [
    (HALT, 0, false),
    (HALT, 1, true),
    (ENDLESS, 100_000, false),
];

// Whether a run of a code file ends within its steps, or runs out of them.
fn ends_as_wanted(alloc: Global, file: &[u8], steps: u64, ends: bool) -> bool {
    match file_ending(alloc, file, steps) {
        Some(Ending::OutOfBudget) => !ends,
        Some(_) => ends,
        None => false,
    }
}

// The first run of which that is not so.
fn first_end_wrong(alloc: Global) -> Option<usize> {
    for (number, (file, steps, ends)) in ENDS.iter().enumerate() {
        if !ends_as_wanted(alloc, file.as_bytes(), *steps, *ends) {
            return Some(number);
        }
    }
    None
}

#[test]
fn codes_that_run_out_of_steps(rt: HostRuntime) {
    assert_none(&rt, first_end_wrong(rt.alloc()));
}

// Whether this is the budget of a code without stages on one list.
fn is_budget(alloc: Global, steps: u64) -> bool {
    match read_returns(alloc, ONE_LIST.as_bytes()) {
        Ok(returns) => budget(0, &returns) == steps,
        Err(_) => false,
    }
}

#[test]
fn budget_of_one_list(rt: HostRuntime) {
    assert!(rt; is_budget(rt.alloc(), 12_806_400));
}
