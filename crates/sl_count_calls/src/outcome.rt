//! What a rulebook comes to on returns: its code is run with its budget.

ghost use Rattle.std.specs.Prelude.{◌≡◌, ◌≢◌, IfOk, Some, length};
ghost use Rattle.sl_law_meaning.specs.meaning.Counts.{IsMeantEnd};
ghost use Rattle.sl_machine.specs.Answers.{answer_of};
ghost use Rattle.sl_machine.specs.Fits.{Fits};
ghost use Rattle.sl_machine.specs.declared.machine.Ending.TheVariants as answer;
ghost use Rattle.sl_code_semantics.specs.Fits.{FitsMemory};
ghost use Rattle.sl_code_semantics.specs.Runs.{budget_of, ending};
ghost use Rattle.sl_law_meaning.specs.book.Books.{book_of};
ghost use Rattle.sl_law_meaning.specs.returns.Election.{IsElection};
ghost use Rattle.sl_count_calls.specs.Outcomes.{FitsOutcome};
ghost use Rattle.sl_count_calls.specs.inner.Held.{EndsAs, HasSlots, Holds, recorded};

use crate::columns::columns_of;
use sl_base_quotients::NoMemory;
use sl_check::CheckedBook;
use sl_code_instructions::Code;
use sl_code_semantics::Verified;
use sl_compile::compile;
use sl_machine::{Ending, Memory, budget, run, run_unrecorded};
use sl_stages::{Book, Counted, End, Records, Returns};
use sl_table::into_table;
use std::alloc::Global;

/// What a rulebook comes to on returns, and the code that was run, which has the names of the stages.
#[derive(Drop)]
pub struct Outcome {
    pub code: Verified,
    pub end: End,
}

// The steps that the run of a book's code may take on returns.
fn steps_of(book: &Book, returns: &Returns) -> u64
    ensures steps { result ≡ budget_of (length (book_of book.now).stages) returns.now }
    ensures kept { IsElection returns.now }
{
    // (for what it says of the returns)
    let _lands = returns.lands();
    budget(book.stages.len(), returns)
}

// Runs the code of a book on returns, for at most so many steps.
fn run_of(
    records: Records,
    alloc: Global,
    code: &Verified,
    returns: &Returns,
    budget: u64,
) -> Result<Ending, NoMemory>
    ensures ending { IfOk result (λ answer. answer_of code.now returns.now (recorded records (ending code.now returns.now budget)) ≡ Some answer) }
    ensures fits { IfOk result (Fits code.now returns.now) }
{
    match records {
        Records::Kept => run(alloc, code, returns, budget),
        Records::Dropped => run_unrecorded(alloc, code, returns, budget),
    }
}

// The table and the columns of what a run holds.
fn counted_of(
    alloc: Global,
    code: &Code,
    memory: Memory,
    returns: &Returns,
) -> Result<Counted, NoMemory>
    requires fits { FitsMemory code.now returns.now memory }
    requires slots { HasSlots code.now }
    ensures { IfOk result (Holds code.now returns.now memory) }
{
    let columns = columns_of(alloc, code, &memory, returns)?;
    let table = into_table(alloc, memory, returns)?;
    Ok(Counted { table, columns })
}

// How a count ends whose run ends so.
fn end_of(alloc: Global, code: &Code, returns: &Returns, ending: Ending) -> Result<End, NoMemory>
    requires within { ending ≢ answer.OutOfBudget }
    requires fits { Fits code.now returns.now ending }
    requires slots { HasSlots code.now }
    ensures { IfOk result (EndsAs code.now returns.now ending) }
{
    match ending {
        Ending::Done(memory) => Ok(End::Counted(counted_of(alloc, code, memory, returns)?)),
        Ending::Fault(fault) => Ok(End::Fault(fault)),
        Ending::OutOfBudget => unreachable!(),
    }
}

/// What a rulebook comes to on returns: the table and the columns that it means, or the legal fault that it means.
pub fn outcome_of(
    records: Records,
    alloc: Global,
    book: &CheckedBook,
    returns: &Returns,
) -> Result<Outcome, NoMemory>
    ensures meant { IfOk result (λ o. IsMeantEnd records (book_of book.now.book) returns.now o.end) }
    ensures fits { IfOk result (FitsOutcome (book_of book.now.book) returns.now) }
{
    let code = compile(alloc, book)?;
    let steps = steps_of(&book.book, returns);
    let ending = run_of(records, alloc, &code, returns, steps)?;
    let end = end_of(alloc, code.code(), returns, ending)?;
    Ok(Outcome { code, end })
}
