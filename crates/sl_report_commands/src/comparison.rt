//! The command that shows several rulebooks side by side: `compare`.

ghost use Rattle.std.specs.Prelude.{◌≡◌, IfOk};
ghost use Rattle.sl_report_commands.specs.Compared.{IsComparedTo, ShowsCompared, counted_of, fault_of};
ghost use Rattle.sl_report_tables.specs.Answers.{HasTables};

use sl_base_quotients::NoMemory;
use sl_count_calls::{End, Records, outcome_of};
use sl_report_tables::{Answer, FullNames, Judged, comparison_answer};
use sl_stages::{CheckedBook, Counted, LegalFault, Returns};
use std::alloc::Global;

/// A good rulebook, and the word of its column.
#[derive(Drop)]
pub struct Compared {
    pub word: String,
    pub book: CheckedBook,
}

// What was counted, or the legal fault.
fn parts_of(end: End) -> (Option<Counted>, Option<LegalFault>)
    ensures counted { result.0 ≡ counted_of end }
    ensures fault { result.1 ≡ fault_of end }
{
    match end {
        End::Counted(counted) => (Some(counted), None),
        End::Fault(fault) => (None, Some(fault)),
    }
}

// A book with what it comes to.
fn judged(alloc: Global, compared: Compared, returns: &Returns) -> Result<Judged, NoMemory>
    ensures { IfOk result (IsComparedTo returns.now compared) }
{
    let outcome = outcome_of(Records::Dropped, alloc, &compared.book, returns)?;
    let (counted, fault) = parts_of(outcome.end);
    let Compared { word, book } = compared;
    Ok(Judged {
        word,
        book,
        counted,
        fault,
    })
}

/// Several good books on good returns, side by side, with the full names of a text. A legal fault stands in its column. Without a book the table has no
/// column.
pub fn compare_judged(
    alloc: Global,
    books: Vec<Compared>,
    returns: &Returns,
    full: &FullNames,
) -> Result<Answer, NoMemory>
    ensures { IfOk result (HasTables returns.now (ShowsCompared returns.now books.items)) }
{
    let mut all: Vec<Judged> = Vec::new(alloc);
    for compared in books {
        all.push(judged(alloc, compared, returns)?)?;
    }
    comparison_answer(alloc, all.as_slice(), returns, full)
}
