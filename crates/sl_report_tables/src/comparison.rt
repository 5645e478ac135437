//! The answer that shows several rulebooks side by side: that of `compare`.

ghost use Rattle.std.specs.Prelude.{IfOk};
ghost use Rattle.sl_report_tables.specs.Answers.{HasTables};
ghost use Rattle.sl_report_tables.specs.Compare.{AreComparison};

use crate::answer::Answer;
use crate::compare::{Judged, compare_sheets};
use crate::full_names::FullNames;
use crate::naming::names_of;
use sl_base_quotients::NoMemory;
use sl_stages::Returns;
use std::alloc::Global;

/// What several books come to on returns, side by side.
pub fn comparison_answer(
    alloc: Global,
    books: &[Judged],
    returns: &Returns,
    full: &FullNames,
) -> Result<Answer, NoMemory>
    ensures { IfOk result (HasTables returns.now (AreComparison returns.now books.now)) }
{
    let names = names_of(alloc, None, returns, full)?;
    let sheets = compare_sheets(alloc, returns, books)?;
    Ok(Answer::done(alloc, names, sheets))
}
