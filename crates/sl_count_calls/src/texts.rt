//! What is written of what inputs come to.

ghost use Rattle.std.specs.Prelude.{◌≡◌, IfOk};
ghost use Rattle.sl_count_calls.specs.Counting.{IsTreeOutput};
ghost use Rattle.sl_count_calls.specs.Reports.{IsReported};
ghost use Rattle.sl_count_calls.specs.Showing.{unknown_stage};
ghost use Rattle.sl_count_calls.specs.Suiting.{IsFor, Suits};
ghost use Rattle.sl_count_calls.specs.Views.{IsAnswerOf, IsShownOn, IsTable, IsTableEnd};
ghost use Rattle.sl_count_calls.specs.inner.Texts.{HasStage, IsMeant, SuitsReport};
ghost use Rattle.sl_count_calls.specs.Outcomes.{FitsOutcome};
ghost use Rattle.sl_count_inputs.specs.declared.verdict.Verdict.TheVariants as verdict;
ghost use Rattle.sl_law_meaning.specs.book.Books.{book_of};

use crate::answer::Answer;
use crate::counting::Counting;
use crate::judged::Judged;
use crate::report::Report;
use crate::view::View;
use sl_base_quotients::NoMemory;
use sl_count_inputs::{Status, stage_number};
use sl_stages::End;
use sl_table::{Text, fault_text};
use std::alloc::Global;

// The line that refuses a name without a stage.
fn unknown_line(alloc: Global, name: &str) -> Result<Vec<u8>, NoMemory>
    ensures { IfOk result (λ line. line.items ≡ unknown_stage name.now) }
{
    let mut line = Text::new(alloc);
    line.word(b"refused")?;
    line.word(b"stage")?;
    line.word(name.as_bytes())?;
    line.end_line()?;
    Ok(line.into_bytes())
}

// The answer to a name without a stage.
fn unknown(alloc: Global, name: &str) -> Result<Answer, NoMemory>
    ensures { IfOk result (λ a. (a.status ≡ Status.Refused) × (a.text.items ≡ unknown_stage name.now)) }
{
    Ok(Answer::refused(unknown_line(alloc, name)?))
}

// What is reported of a count.
fn reported(report: Report, alloc: Global, counting: &Counting) -> Result<Answer, NoMemory>
    requires asked { HasStage report (book_of counting.now.book.book) }
    requires records { SuitsReport report counting.now.records }
    requires fits { FitsOutcome (book_of counting.now.book.book) counting.now.returns counting.now.outcome }
    ensures done { IfOk result (λ a. a.status ≡ Status.Done → IsTableEnd counting.now.outcome.end) }
    ensures output { IfOk result (λ a. IsMeant counting.now →
        IsTreeOutput (IsReported report) (book_of counting.now.book.book) (verdict.Good counting.now.returns) a.status a.text.items) }
{
    let code = counting.outcome.code.code();
    match &counting.outcome.end {
        End::Counted(counted) => {
            let text = report.text(alloc, counted, &counting.returns, code)?;
            Ok(Answer::done(text))
        }
        End::Fault(fault) => {
            let text = fault_text(alloc, fault, &counting.returns, code)?;
            Ok(Answer::legal(text))
        }
    }
}

// What is shown of a count.
fn shown(view: View<'_>, alloc: Global, counting: &Counting) -> Result<Answer, NoMemory>
    requires records { Suits view counting.now.records }
    requires fits { FitsOutcome (book_of counting.now.book.book) counting.now.returns counting.now.outcome }
    ensures done { IfOk result (λ a. a.status ≡ Status.Done → IsTableEnd counting.now.outcome.end) }
    ensures output { IfOk result (λ a. IsMeant counting.now →
        IsShownOn view.entry (book_of counting.now.book.book) counting.now.returns a.status a.text.items) }
{
    match view {
        View::Seats => reported(Report::Seats, alloc, counting),
        View::Steps => reported(Report::Steps, alloc, counting),
        View::Stage(name) => match stage_number(&counting.book.book, name) {
            Some(stage) => reported(Report::Stage(stage), alloc, counting),
            None => unknown(alloc, name),
        },
    }
}

/// What is shown of what two inputs come to: the table, the column, the legal fault, or the line that refuses one of them (docs/output.md).
pub fn answer_of(view: View<'_>, alloc: Global, judged: &Judged<'_>) -> Result<Answer, NoMemory>
    // It has the records that are shown.
    requires { IsFor view judged.now }
    // Whatever two inputs came to it, it is the output of the command on them.
    ensures output { IfOk result (λ a. IsAnswerOf view.entry judged.entry.now a.status a.text.items) }
    // Only a table has the status `Done`.
    ensures done { IfOk result (λ a. a.status ≡ Status.Done → IsTable judged.entry.now) }
{
    match judged {
        Judged::BookRefused(book) => Ok(Answer::refused(book.why().line(alloc)?)),
        Judged::StageUnknown(_book, name) => unknown(alloc, name),
        Judged::ReturnsRefused(returns) => Ok(Answer::refused(returns.why().line(alloc)?)),
        Judged::Counted(counting) => shown(view, alloc, counting),
    }
}
