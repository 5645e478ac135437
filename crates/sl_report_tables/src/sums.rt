//! The answer that adds up returns: that of `totals`.

ghost use Rattle.std.specs.Prelude.{IfOk, option_map};
ghost use Rattle.sl_report_tables.specs.Answers.{HasTables};
ghost use Rattle.sl_report_tables.specs.Totals.{AreTotals};

use crate::answer::Answer;
use crate::full_names::FullNames;
use crate::naming::names_of;
use crate::totals::total_sheets;
use sl_base_quotients::NoMemory;
use sl_explain_texts::Language;
use sl_stages::{Book, Returns};
use std::alloc::Global;

/// The totals of good returns, and with a good book who takes part by it.
pub fn totals_answer(
    alloc: Global,
    book: Option<&Book>,
    returns: &Returns,
    full: &FullNames,
    language: Language,
) -> Result<Answer, NoMemory>
    ensures { IfOk result (HasTables returns.now (AreTotals (option_map (λ b. b.now) book.entry) returns.now)) }
{
    let names = names_of(alloc, None, returns, full)?;
    let sheets = total_sheets(alloc, language, book, returns)?;
    Ok(Answer::done(alloc, names, sheets))
}
