//! Seats in the order in which a run records them, which no command shows: `steps` has them by their scopes and steps. And entries that are equal.

use crate::assertions::assert_none;
use crate::codes::{compiled, ending};
use crate::recorded::accepted;
use crate::rows::{THREE_LISTS, TIED_RETURNS};
use sl_base_quotients::{Entry, NoMemory, Ratio};
use sl_code_semantics::Verified;
use sl_machine::Ending;
use sl_returns::read_returns;
use sl_stages::{Item, Mark, SeatStep};
use std::alloc::{AllocError, Global};
use std::fmt::Write;

// A has more than half of the votes; its share of five seats has the whole part 2.
const MORE_THAN_HALF: &str =
    "kind,land,party,a,b,c\nland,X,,1000,,\nparty,,A,0,,\nparty,,B,0,,\nparty,,C,0,,\nparty,,D,0,,\nlist,X,A,51,51,\nlist,X,B,18,18,\nlist,X,C,16,16,\nlist,X,D,15,15,\n";

// Minima of 0 and 2 seats.
const MINIMUM: &str =
    "kind,land,party,a,b,c\nland,X,,1000,,\nparty,,A,0,,\nparty,,B,0,,\nlist,X,A,100,100,\nlist,X,B,10,10,\nwin,X,B,w1,1,2\nwin,X,B,w2,1,2\n";

// Lists of 30 and of 10 votes, and a lot that names both.
const DRAWN: &str =
    "kind,land,party,a,b,c\nland,X,,1000,,\nparty,,A,0,,\nparty,,B,0,,\nlist,X,A,30,30,\nlist,X,B,10,10,\nlot,X,B,s,,\nlot,X,A,s,,\n";

// Three lists of 10 votes, of which the lot names C's first and A's last.
const EQUALS: &str =
    "kind,land,party,a,b,c\nland,X,,1000,,\nparty,,A,0,,\nparty,,B,0,,\nparty,,C,0,,\nlist,X,A,10,10,\nlist,X,B,10,10,\nlist,X,C,10,10,\nlot,X,C,s,,\nlot,X,B,s,,\nlot,X,A,s,,\n";

// Lists of 3 and of 2 votes.
const THREE_TO_TWO: &str =
    "kind,land,party,a,b,c\nland,X,,1000,,\nparty,,A,0,,\nparty,,B,0,,\nlist,X,A,3,3,\nlist,X,B,2,2,\n";

// Splits of so many seats by a method, returns, and the seats.
static AWARDED: [(u32, &str, &str, &str); 12] = [
    (
        8,
        "jefferson",
        THREE_LISTS,
        "A 1 1 100/1\nB 1 2 80/1\nA 2 3 100/2\nB 2 4 80/2\nA 3 5 100/3\nC 1 6 30/1\nB 3 7 80/3\nA 4 8 100/4\n",
    ),
    (
        10,
        "jefferson",
        THREE_LISTS,
        "A 1 1 100/1\nB 1 2 80/1\nA 2 3 100/2\nB 2 4 80/2\nA 3 5 100/3\nC 1 6 30/1\nB 3 7 80/3\nA 4 8 100/4\nA 5 9 100/5\nB 4 9 80/4\n",
    ),
    (
        8,
        "webster",
        THREE_LISTS,
        "A 1 1 200/1\nB 1 2 160/1\nA 2 3 200/3\nC 1 4 60/1\nB 2 5 160/3\nA 3 6 200/5\nB 3 7 160/5\nA 4 8 200/7\n",
    ),
    (
        10,
        "webster",
        THREE_LISTS,
        "A 1 1 200/1\nB 1 2 160/1\nA 2 3 200/3\nC 1 4 60/1\nB 2 5 160/3\nA 3 6 200/5\nB 3 7 160/5\nA 4 8 200/7\nB 4 9 160/7\nA 5 10 200/9\n",
    ),
    (
        8,
        "hamilton",
        THREE_LISTS,
        "A 1 0 -\nA 2 0 -\nA 3 0 -\nB 1 0 -\nB 2 0 -\nB 3 0 -\nC 1 0 -\nA 4 1 rest 170\n",
    ),
    (
        10,
        "hamilton",
        THREE_LISTS,
        "A 1 0 -\nA 2 0 -\nA 3 0 -\nA 4 0 -\nB 1 0 -\nB 2 0 -\nB 3 0 -\nC 1 0 -\nB 4 1 rest 170\nA 5 2 rest 160\n",
    ),
    (
        5,
        "hamilton, majority prefer",
        MORE_THAN_HALF,
        "A 1 0 -\nA 2 0 -\nA 3 1 lead\nB 1 2 rest 90\nC 1 3 rest 80\n",
    ),
    (
        3,
        "jefferson, atleast winners",
        MINIMUM,
        "B 1 0 -\nB 2 0 -\nA 1 1 100/1\n",
    ),
    (2, "webster", DRAWN, "A 1 1 60/1\nB 1 2 20/1\n"),
    (
        3,
        "webster",
        TIED_RETURNS,
        "A 1 1 60/1\nA 2 2 60/3\nB 1 2 20/1\n",
    ),
    (2, "webster", EQUALS, "C 1 1 20/1\nB 1 1 20/1\n"),
    (2, "adams", THREE_TO_TWO, "A 1 1 inf\nB 1 1 inf\n"),
];

// The first party, or that of a list of the first Land.
fn letter(item: Item) -> &'static str {
    match item {
        Item::Party(0) | Item::List(0, 0) => "A",
        Item::List(0, 1) => "B",
        Item::List(0, 2) => "C",
        Item::List(0, 3) => "D",
        _ => "?",
    }
}

// Appends how a seat was won.
fn tell_mark(told: &mut String, step: &SeatStep) -> Result<(), AllocError> {
    match step.mark {
        Mark::Given => told.push_str("-\n"),
        Mark::Quotient(ratio) if ratio.is_infinite() => told.push_str("inf\n"),
        Mark::Quotient(ratio) => write!(told, "{}/{}\n", ratio.num(), ratio.den()),
        Mark::Rest(remainder) => write!(told, "rest {remainder}\n"),
        Mark::Lead => told.push_str("lead\n"),
    }
}

// Appends the line of a seat: the list, the number of the seat, the step, and how it was won.
fn tell_step(told: &mut String, step: &SeatStep) -> Result<(), AllocError> {
    write!(told, "{} {} {} ", letter(step.entry), step.n, step.step)?;
    tell_mark(told, step)
}

// A line for each seat.
fn steps_text(alloc: Global, steps: &[SeatStep]) -> Result<String, AllocError> {
    let mut told = String::new(alloc);
    for step in steps {
        tell_step(&mut told, step)?;
    }
    Ok(told)
}

// Whether seats have these lines.
fn are_told(alloc: Global, steps: &[SeatStep], told: &str) -> bool {
    match steps_text(alloc, steps) {
        Ok(text) => text.as_str() == told,
        Err(_) => false,
    }
}

// Whether a run is done, and its seats have these lines.
fn is_told(alloc: Global, ending: Result<Ending, NoMemory>, told: &str) -> bool {
    match ending {
        Ok(Ending::Done(memory)) => are_told(alloc, memory.steps(), told),
        _ => false,
    }
}

// Whether those of the run of a code do.
fn records(alloc: Global, code: &Verified, returns: &str, told: &str) -> bool {
    match read_returns(alloc, returns.as_bytes()) {
        Ok(returns) => is_told(alloc, ending(alloc, code, &returns), told),
        Err(_) => false,
    }
}

// Whether those of a book do.
fn book_records(alloc: Global, book: &[u8], returns: &str, told: &str) -> bool {
    match compiled(alloc, book) {
        Ok(code) => records(alloc, &code, returns, told),
        Err(_) => false,
    }
}

// The book of a split of so many seats by a method.
fn split(alloc: Global, seats: u32, method: &str) -> Result<String, AllocError> {
    format!(in alloc;
        "rulebook 1; law \"t\"; house {seats}; eligible all; stage s = split(house, counted, {method}); seats s keep;"
    )
}

// Whether its seats have these lines.
fn split_records(alloc: Global, seats: u32, method: &str, returns: &str, told: &str) -> bool {
    match split(alloc, seats, method) {
        Ok(book) => book_records(alloc, book.as_bytes(), returns, told),
        Err(_) => false,
    }
}

// The first split whose seats have other lines.
fn first_split_wrong(alloc: Global) -> Option<usize> {
    for (number, (seats, method, returns, told)) in AWARDED.iter().enumerate() {
        if !split_records(alloc, *seats, method, returns, told) {
            return Some(number);
        }
    }
    None
}

#[test]
fn seats_in_their_order(rt: HostRuntime) {
    assert_none(&rt, first_split_wrong(rt.alloc()));
}

// A List slot. Registers 0 and 1 are 7 and 3, and each number that is worked out is recorded as that of a given seat of the first party.
// 0 table 0 0; 1 fparty 46; 2 set 0 7; 3 set 1 3; 4 set 3 18446744073709551615; 5 mov 2 0; 6 add 2 1; 7 given 255 0 2; 8 mov 2 3; 9 add 2 1
// 10 given 255 0 2; 11 mov 2 0; 12 sub 2 1; 13 given 255 0 2; 14 mov 2 1; 15 sub 2 0; 16 given 255 0 2; 17 mov 2 0; 18 mul 2 1
// 19 given 255 0 2; 20 mov 2 3; 21 mul 2 1; 22 given 255 0 2; 23 mov 2 0; 24 div 2 1; 25 given 255 0 2; 26 mov 2 0; 27 rem 2 1
// 28 given 255 0 2; 29 mov 2 0; 30 max 2 1; 31 given 255 0 2; 32 mov 2 1; 33 max 2 0; 34 given 255 0 2; 35 set 4 5; 36 house 4
// 37 given 255 0 4; 38 set 5 1; 39 jlt 0 1 42; 40 jlt 0 0 42; 41 jlt 1 0 44; 42 at 0 1 1; 43 set 5 0; 44 at 0 1 1; 45 given 255 0 5
// 46 at 0 0 0; 47 halt 0
const ARITHMETIC: &[u8] =
    b"SLC\x01\x00\x01\x030\x00\x00\x00\x1a\x00\x00\x14.\x00\x00\x00\x01\x00\x07\x00\x00\x00\x00\x00\x00\x00\x01\x01\x03\x00\x00\x00\x00\x00\x00\x00\x01\x03\xff\xff\xff\xff\xff\xff\xff\xff\x02\x02\x00\x03\x02\x01$\xff\x00\x02\x02\x02\x03\x03\x02\x01$\xff\x00\x02\x02\x02\x00\x04\x02\x01$\xff\x00\x02\x02\x02\x01\x04\x02\x00$\xff\x00\x02\x02\x02\x00\x05\x02\x01$\xff\x00\x02\x02\x02\x03\x05\x02\x01$\xff\x00\x02\x02\x02\x00\x06\x02\x01$\xff\x00\x02\x02\x02\x00\x07\x02\x01$\xff\x00\x02\x02\x02\x00\x08\x02\x01$\xff\x00\x02\x02\x02\x01\x08\x02\x00$\xff\x00\x02\x01\x04\x05\x00\x00\x00\x00\x00\x00\x00\x11\x04$\xff\x00\x04\x01\x05\x01\x00\x00\x00\x00\x00\x00\x00\x0b\x00\x01*\x00\x00\x00\x0b\x00\x00*\x00\x00\x00\x0b\x01\x00,\x00\x00\x00*\x00\x00\x01\x01\x01\x05\x00\x00\x00\x00\x00\x00\x00\x00*\x00\x00\x01\x01$\xff\x00\x05*\x00\x00\x00\x00)\x00";

const HOUSE: &str = "kind,land,party,a,b,c\nhouse,,,598,,\nland,X,,1,,\nparty,,A,0,,\n";

const NO_HOUSE: &str = "kind,land,party,a,b,c\nland,X,,1,,\nparty,,A,0,,\n";

// The numbers with a house and without one: a sum, one that is too great, a difference, one that is 0, a product, one that is too great, a quotient, a
// rest, twice the larger number, the house, and whether three comparisons are right.
static NUMBERS: [(&str, &str); 2] = [
    (
        HOUSE,
        "A 10 0 -\nA 18446744073709551615 0 -\nA 4 0 -\nA 0 0 -\nA 21 0 -\nA 18446744073709551615 0 -\nA 2 0 -\nA 1 0 -\nA 7 0 -\nA 7 0 -\nA 598 0 -\nA 1 0 -\n",
    ),
    (
        NO_HOUSE,
        "A 10 0 -\nA 18446744073709551615 0 -\nA 4 0 -\nA 0 0 -\nA 21 0 -\nA 18446744073709551615 0 -\nA 2 0 -\nA 1 0 -\nA 7 0 -\nA 7 0 -\nA 5 0 -\nA 1 0 -\n",
    ),
];

// The first returns on which the run of the code records other numbers.
fn first_number_wrong(alloc: Global, code: &Verified) -> Option<usize> {
    for (number, (returns, numbers)) in NUMBERS.iter().enumerate() {
        if !records(alloc, code, returns, numbers) {
            return Some(number);
        }
    }
    None
}

// The same of the code file, or the number after them if it is not accepted.
fn first_number_wrong_of_file(alloc: Global) -> Option<usize> {
    match accepted(alloc, ARITHMETIC) {
        Some(code) => first_number_wrong(alloc, &code),
        None => Some(NUMBERS.len()),
    }
}

#[test]
fn numbers_in_their_order(rt: HostRuntime) {
    assert_none(&rt, first_number_wrong_of_file(rt.alloc()));
}

// Whether entries are equal that have the same numbers, and others are not, not even one with the same quotient.
fn are_equal_as_written() -> bool {
    let (ratio, again, reduced) = (Ratio::new(60, 3), Ratio::new(60, 3), Ratio::new(20, 1));
    let first = Entry { ratio, index: 0 };
    let same = Entry {
        ratio: again,
        index: 0,
    };
    let other = Entry { ratio, index: 1 };
    let other_ratio = Entry {
        ratio: reduced,
        index: 0,
    };
    first == same && first != other_ratio && first != other
}

#[test]
fn equal_entries(rt: HostRuntime) {
    assert!(rt; are_equal_as_written());
}
