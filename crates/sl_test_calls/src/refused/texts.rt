//! Seat tables of what runs hold, and their texts.

ghost use Rattle.std.specs.Prelude.{length};
ghost use Rattle.sl_code_semantics.specs.Fits.{FitsFault, FitsMemory, FitsRecords};
ghost use Rattle.sl_table.specs.inner.Held.{FitsHeld};
ghost use Rattle.sl_count_texts.specs.inner.Fits.{Fits};

use crate::calls::{Pace, told};
use crate::codes::{compiled, ending};
use crate::marks::{begin, end};
use crate::rows::{
    FIRST_BOOK, FIRST_RETURNS, FIVE_LAWS, THREE_LISTS, THREE_LISTS_TABLE, THREE_METHODS, TIED_BOOK,
    TIED_RETURNS,
};
use sl_base_quotients::NoMemory;
use sl_code::Code;
use sl_code_semantics::Verified;
use sl_machine::{Ending, Memory};
use sl_returns::read_returns;
use sl_stages::{LegalFault, ListSeats, Returns, Table};
use sl_table::{fault_text, into_table, short_text, stage_text, steps_text, table_of};
use std::alloc::Global;

type Text = Result<Vec<u8>, NoMemory>;

// The table of what a run holds.
fn table(alloc: Global, memory: &Memory, returns: &Returns) -> Result<Table, NoMemory>
    requires { FitsHeld memory.now returns.now }
{
    begin(alloc);
    let first = table_of(alloc, memory, returns);
    end(alloc);
    match first {
        Ok(table) => Ok(table),
        Err(_) => table_of(alloc, memory, returns),
    }
}

fn short(alloc: Global, table: &Table, returns: &Returns) -> Text
    requires { Fits table.now returns.now }
{
    begin(alloc);
    let first = short_text(alloc, table, returns);
    end(alloc);
    match first {
        Ok(text) => Ok(text),
        Err(_) => short_text(alloc, table, returns),
    }
}

fn steps(alloc: Global, table: &Table, returns: &Returns, code: &Code) -> Text
    requires fits { Fits table.now returns.now }
    requires records { FitsRecords (length code.now.stages) returns.now table.now.steps table.now.weights }
{
    begin(alloc);
    let first = steps_text(alloc, table, returns, code);
    end(alloc);
    match first {
        Ok(text) => Ok(text),
        Err(_) => steps_text(alloc, table, returns, code),
    }
}

fn fault(alloc: Global, fault: &LegalFault, returns: &Returns, code: &Code) -> Text
    requires { FitsFault (length code.now.stages) returns.now fault.now }
{
    begin(alloc);
    let first = fault_text(alloc, fault, returns, code);
    end(alloc);
    match first {
        Ok(text) => Ok(text),
        Err(_) => fault_text(alloc, fault, returns, code),
    }
}

// The text of a stage; that of one that the code does not have is empty.
fn stage(alloc: Global, memory: &Memory, returns: &Returns, code: &Code, stage: usize) -> Text
    requires { FitsMemory code.now returns.now memory.now }
{
    if stage >= code.stages().len()
        || usize::from(code.stages()[stage].slot) >= code.slots().len()
    {
        return Ok(Vec::new(alloc));
    }
    begin(alloc);
    let first = stage_text(alloc, memory, returns, code, stage);
    end(alloc);
    match first {
        Ok(text) => Ok(text),
        Err(_) => stage_text(alloc, memory, returns, code, stage),
    }
}

// The seats of lists, a byte for each list.
fn seats_of(alloc: Global, lists: &[ListSeats]) -> Text {
    let mut seats = Vec::new(alloc);
    for list in lists {
        seats.push(u8::try_from(list.seats).unwrap_or(u8::MAX))?;
    }
    Ok(seats)
}

// Those of the table of what a run holds.
fn seats(alloc: Global, memory: &Memory, returns: &Returns) -> Text
    requires { FitsHeld memory.now returns.now }
{
    match table(alloc, memory, returns) {
        Ok(table) => seats_of(alloc, table.lists()),
        Err(fault) => Err(fault),
    }
}

/// What is asked of a run.
#[derive(Clone, Copy)]
pub enum Asked {
    Seats,
    Short,
    Steps,
    /// The steps of the table that takes over what the run holds.
    Taken,
    Stage(usize),
}

// The short text of what a run holds, or that of its steps.
fn table_text(
    alloc: Global,
    memory: &Memory,
    returns: &Returns,
    code: &Code,
    has_steps: bool,
) -> Text
    requires { FitsMemory code.now returns.now memory.now }
{
    let table = table_of(alloc, memory, returns)?;
    if has_steps {
        steps(alloc, &table, returns, code)
    } else {
        short(alloc, &table, returns)
    }
}

// The text of the steps of the table that takes over what a run holds.
fn taken_text(alloc: Global, memory: Memory, returns: &Returns, code: &Code) -> Text
    requires { FitsMemory code.now returns.now memory }
{
    begin(alloc);
    let first = into_table(alloc, memory, returns);
    end(alloc);
    let table = first?;
    steps(alloc, &table, returns, code)
}

// The text of what a run holds.
fn text_of(alloc: Global, memory: Memory, returns: &Returns, code: &Code, asked: Asked) -> Text
    requires { FitsMemory code.now returns.now memory }
{
    match asked {
        Asked::Seats => seats(alloc, &memory, returns),
        Asked::Short => table_text(alloc, &memory, returns, code, false),
        Asked::Steps => table_text(alloc, &memory, returns, code, true),
        Asked::Taken => taken_text(alloc, memory, returns, code),
        Asked::Stage(number) => stage(alloc, &memory, returns, code, number),
    }
}

// The text of a run of a code: what is asked of it, or its legal fault. It is empty if the steps run out.
fn run_text(alloc: Global, code: &Verified, returns: &Returns, asked: Asked) -> Text {
    match ending(alloc, code, returns)? {
        Ending::Done(memory) => text_of(alloc, memory, returns, code.code(), asked),
        Ending::Fault(found) => fault(alloc, &found, returns, code.code()),
        Ending::OutOfBudget => Ok(Vec::new(alloc)),
    }
}

// The same. What a run holds is gone where its table was to take it over, and so the code runs again then.
fn answer(alloc: Global, code: &Verified, returns: &Returns, asked: Asked) -> Text {
    match run_text(alloc, code, returns, asked) {
        Err(_) if matches!(asked, Asked::Taken) => run_text(alloc, code, returns, asked),
        first => first,
    }
}

// Whether the run of a code yields a text.
fn runs_to(alloc: Global, code: &Verified, returns: &Returns, asked: Asked, text: &[u8]) -> bool {
    match answer(alloc, code, returns, asked) {
        Ok(found) => found.as_slice() == text,
        Err(_) => false,
    }
}

/// Whether it does on the returns of a text.
pub fn runs_on(alloc: Global, code: &Verified, returns: &str, asked: Asked, text: &[u8]) -> bool {
    match read_returns(alloc, returns.as_bytes()) {
        Ok(returns) => runs_to(alloc, code, &returns, asked, text),
        Err(_) => false,
    }
}

// Whether that of a book's code does.
fn comes_to(alloc: Global, book: &[u8], returns: &str, asked: Asked, text: &[u8]) -> bool {
    match compiled(alloc, book) {
        Ok(code) => runs_on(alloc, &code, returns, asked, text),
        Err(_) => false,
    }
}

// Whether that of the book of a method does on three lists.
fn splits_to(alloc: Global, book: &str, asked: Asked, text: &[u8]) -> bool {
    comes_to(alloc, book.as_bytes(), THREE_LISTS, asked, text)
}

#[test]
fn tables(rt: HostRuntime) {
    for (book, _) in &THREE_METHODS {
        assert!(rt; splits_to(rt.alloc(), book, Asked::Seats, &[4, 3, 1]));
    }
}

#[test]
fn short_texts(rt: HostRuntime) {
    for (book, _) in &THREE_METHODS {
        let text = THREE_LISTS_TABLE.as_bytes();
        assert!(rt; splits_to(rt.alloc(), book, Asked::Short, text));
    }
}

#[test]
fn steps_texts(rt: HostRuntime) {
    for (book, steps) in &THREE_METHODS {
        assert!(rt; splits_to(rt.alloc(), book, Asked::Steps, steps.as_bytes()));
    }
}

#[test]
fn taken_tables(rt: HostRuntime) {
    for (book, steps) in &THREE_METHODS {
        assert!(rt; splits_to(rt.alloc(), book, Asked::Taken, steps.as_bytes()));
    }
}

#[test]
fn fault_texts(rt: HostRuntime) {
    let (book, text) = (TIED_BOOK.as_bytes(), b"fault s all tie 1 X/A X/B\n");
    assert!(rt; comes_to(rt.alloc(), book, TIED_RETURNS, Asked::Short, text));
}

// Whether the run of a book of the library does.
fn law_comes_to(alloc: Global, law: &str, returns: &str, asked: Asked, text: &[u8]) -> bool {
    let book = told(alloc, law, Pace::of(4096)).written;
    comes_to(alloc, book.as_slice(), returns, asked, text)
}

#[test]
fn stage_texts(rt: HostRuntime) {
    let book = FIRST_BOOK.as_bytes();
    assert!(rt; comes_to(rt.alloc(), book, FIRST_RETURNS, Asked::Stage(0), b"all 7\n"));
    let floor = Asked::Stage(3);
    assert!(rt; law_comes_to(rt.alloc(), "2013", FIVE_LAWS, floor, b"A 9\nB 3\n"));
}
