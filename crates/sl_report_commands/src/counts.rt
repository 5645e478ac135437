//! The commands that show one count: `report`, `report --short` and `stages`.

ghost use Rattle.std.specs.Prelude.{◌≡◌, IfErr, IfOk, false, is_err, option_map};
ghost use Rattle.sl_report_tables.specs.Answers.{IsRefusal, IsRefusedBy};
ghost use Rattle.sl_count_calls.specs.Fitting.{FitsJudged};
ghost use Rattle.sl_count_calls.specs.Outcomes.{FitsOutcome};
ghost use Rattle.sl_count_calls.specs.declared.judged.Judged.TheVariants.{Counted};
ghost use Rattle.sl_law_meaning.specs.declared.count.Records.TheVariants.{Kept};
ghost use Rattle.sl_report_commands.specs.Reports.{AnswersJudged, IsShown};
ghost use Rattle.sl_report_commands.specs.Statuses.{end_line, is_counted, is_stopped, judged_line};
ghost use Rattle.sl_report_commands.specs.Written.{shown_subject};
ghost use Rattle.sl_report_commands.specs.inner.Digested.{IsCountWritten};
ghost use Rattle.sl_explain_calls.specs.Codes.{subject_of};
ghost use Rattle.sl_law_meaning.specs.book.Books.{book_of};

use crate::forms::Forms;
use crate::written::{Style, Texts, Written, with_reason, with_text};
use sl_base_quotients::NoMemory;
use sl_count_calls::{Counting, End, Judged};
use sl_count_inputs::refused;
use sl_explain_texts::Language;
use sl_report_tables::{Answer, FullNames, Show, count_answer};
use sl_table::fault_text;
use std::alloc::Global;

// The line with which counting tells how a count ends: that of a legal fault, and none of a table.
fn end_line(alloc: Global, counting: &Counting) -> Result<Vec<u8>, NoMemory>
    requires fits { FitsOutcome (book_of counting.now.book.book) counting.now.returns counting.now.outcome }
    ensures { IfOk result (λ line. line.items ≡ end_line (book_of counting.now.book.book) counting.now.returns counting.now.outcome.end) }
{
    let outcome = &counting.outcome;
    match &outcome.end {
        End::Counted(_) => Ok(Vec::new(alloc)),
        End::Fault(fault) => fault_text(alloc, fault, &counting.returns, outcome.code.code()),
    }
}

// The answer that shows a count that kept its records, with full names.
fn answer_count(
    alloc: Global,
    show: Show<'_>,
    counting: &Counting,
    full: &FullNames,
    language: Language,
) -> Result<Answer, NoMemory>
    requires fits { FitsJudged Kept (Counted counting.now) }
    ensures { IfOk result (AnswersJudged show.entry (Counted counting.now)) }
{
    let line = end_line(alloc, counting)?;
    count_answer(
        alloc,
        show,
        &counting.book,
        &counting.returns,
        full,
        &counting.outcome.end,
        line,
        language,
    )
}

/// The same refusal once more.
pub(crate) fn again(alloc: Global, refusal: &Answer) -> Result<Answer, NoMemory>
    ensures { IfOk result (IsRefusedBy refusal.now.line.items) }
{
    let line = Vec::from_slice(alloc, refusal.line.as_slice())?;
    Ok(Answer::refused(alloc, line))
}

// The line that refuses inputs; of a count none.
fn refusal_line(alloc: Global, judged: &Judged<'_>) -> Result<Vec<u8>, NoMemory>
    ensures { IfOk result (λ line. is_counted judged.now ≡ false → line.items ≡ judged_line judged.now) }
{
    match judged {
        Judged::BookRefused(book) => book.why().line(alloc),
        Judged::ReturnsRefused(returns) => returns.why().line(alloc),
        Judged::StageUnknown(_, name) => refused(alloc, b"stage", name.as_bytes()),
        Judged::Counted(_) => Ok(Vec::new(alloc)),
    }
}

// The answer that shows what inputs come to: the refusal of one of them, or the count with the full names of a text; or the answer that refuses
// these names, where they would be shown.
fn answer_judged(
    alloc: Global,
    show: Show<'_>,
    judged: &Judged<'_>,
    names: &Result<FullNames, Answer>,
    language: Language,
) -> Result<Result<Answer, Answer>, NoMemory>
    requires fits { FitsJudged Kept judged.now }
    ensures which { IfOk result (λ r. is_err r ≡ is_stopped (is_err names.now) judged.now) }
    ensures shown { IfOk result (λ r. IfOk r (AnswersJudged show.entry judged.now)) }
    ensures refused { IfOk result (λ r. IfErr r IsRefusal) }
{
    match (judged, names) {
        (Judged::Counted(counting), Ok(full)) => {
            Ok(Ok(answer_count(alloc, show, counting, full, language)?))
        }
        (Judged::Counted(_), Err(refusal)) => Ok(Err(again(alloc, refusal)?)),
        (_, _) => Ok(Ok(Answer::refused(alloc, refusal_line(alloc, judged)?))),
    }
}

/// What a command that shows a count answers, of inputs of these texts that come to this: with its text, and with why there is no table, if there is none.
pub fn show_judged<F: Forms>(
    forms: &F,
    alloc: Global,
    show: Show<'_>,
    judged: &Judged<'_>,
    names: &Result<FullNames, Answer>,
    texts: Texts<'_>,
    style: Style,
) -> Result<Written, NoMemory>
    requires fits { FitsJudged Kept judged.now }
    ensures shown { IfOk result (λ w. IsShown show.entry (is_err names.now) judged.now w.answer) }
    ensures text { IfOk result (λ w. IsCountWritten (F.is_text forms.now) show.entry style judged.now texts.entry.book.now texts.entry.returns.now w.answer w.text.items) }
    ensures told { IfOk result (λ w. option_map subject_of w.told ≡ shown_subject (is_err names.now) judged.now) }
{
    match answer_judged(alloc, show, judged, names, style.language) {
        Ok(Ok(answer)) => with_reason(forms, alloc, show, answer, judged, texts, style),
        Ok(Err(refusal)) => with_text(forms, alloc, show, refusal, None, judged, texts, style),
        Err(NoMemory) => Err(NoMemory),
    }
}
