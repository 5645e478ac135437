//! What putting rulebooks that were read side by side on returns answers.

ghost use Rattle.std.specs.Prelude.{IfOk, false, is_err};
ghost use Rattle.sl_count_inputs.specs.declared.verdict.Verdict.TheVariants.{Refused};
ghost use Rattle.sl_explain_calls.specs.Codes.{subject_of};
ghost use Rattle.sl_report_commands.specs.Digests.{digests};
ghost use Rattle.sl_terminal_commands.specs.Comparisons.{table_said};
ghost use Rattle.sl_terminal_commands.specs.Said.{IsSaid};
ghost use Rattle.sl_terminal_commands.specs.inner.Comparing.{AreGood, HasColumns, IsColumnOf, IsComparedAnswer, IsNamedAnswer, IsRefusedAnswer, IsRefusedBookAnswer, IsRefusedOne, IsRefusedReturnsAnswer, IsVariedAnswer, ShowsNamed};

use crate::answered::{Answered, ReadFile, explained_text, warnings_text};
use crate::manner::Manner;
use crate::refused_books::{FirstRefused, explain_refused, first_refused};
use crate::sums::{NamedBook, NamedReturns};
use crate::varied::{all_varied, behind, column_word};
use sl_base_quotients::{Method, NoMemory};
use sl_count_inputs::{Input, ReadBook, RefusedElection, Verdict};
use sl_explain_calls::{Explained, explain_election};
use sl_explain_texts::Language;
use sl_report_commands::{Answer, Compared, Forms, FullNames, compare_judged, told_of};
use sl_stages::Returns;
use std::alloc::Global;

// A good rulebook under the word of its column; `None` for one that is refused.
fn column_of(alloc: Global, named: NamedBook<'_>) -> Result<Option<Compared>, NoMemory>
    ensures { IfOk result (IsColumnOf named.entry) }
{
    let NamedBook { word, method, read } = named;
    let word = column_word(alloc, word, method)?;
    let ReadBook { verdict, .. } = read;
    match verdict {
        Verdict::Good(book) => Ok(Some(Compared { word, book })),
        Verdict::Refused(_) => Ok(None),
    }
}

// Rulebooks under the words of their columns, where all are good.
fn columns_of(alloc: Global, books: Vec<NamedBook<'_>>) -> Result<Vec<Compared>, NoMemory>
    ensures { IfOk result (λ columns. HasColumns books.entry.items columns.items) }
{
    let mut columns: Vec<Compared> = Vec::new(alloc);
    for named in books {
        if let Some(column) = column_of(alloc, named)? {
            columns.push(column)?;
        }
    }
    Ok(columns)
}

// Rulebooks on good returns, side by side, with full names.
fn compared(
    alloc: Global,
    books: Vec<NamedBook<'_>>,
    returns: &Returns,
    full: &FullNames,
) -> Result<Answer, NoMemory>
    ensures { AreGood books.entry.items → IfOk result (ShowsNamed false returns.now books.entry.items) }
{
    let columns = columns_of(alloc, books)?;
    compare_judged(alloc, columns, returns, full)
}

// Rulebooks side by side, with the full names of a file, or the answer that refuses these.
fn comparison(
    alloc: Global,
    books: Vec<NamedBook<'_>>,
    election: &Returns,
    names: Result<FullNames, Answer>,
) -> Result<Answer, NoMemory>
    ensures { AreGood books.entry.items → IfOk result (ShowsNamed (is_err names) election.now books.entry.items) }
{
    match names {
        Ok(full) => compared(alloc, books, election, &full),
        Err(refusal) => Ok(Answer::refused(alloc, refusal.line)),
    }
}

// What is likely a mistake in the returns of a table; nothing where the names are refused.
fn table_text(
    alloc: Global,
    language: Language,
    is_refused: bool,
    election: &Returns,
) -> Result<Vec<u8>, NoMemory>
    ensures { IfOk result (λ text. IsSaid language (table_said is_refused election.now) text.items) }
{
    if is_refused {
        Ok(Vec::new(alloc))
    } else {
        warnings_text(alloc, language, None, election)
    }
}

// Rulebooks on good returns side by side, with full names, and what is likely a mistake in the returns; or the refusal of the names.
fn finish_comparison<F: Forms>(
    alloc: Global,
    books: Vec<NamedBook<'_>>,
    election: &Returns,
    names: Result<FullNames, Answer>,
    manner: &Manner<'_, F>,
) -> Result<Answered, NoMemory>
    ensures { AreGood books.entry.items → IfOk result (IsNamedAnswer (F.is_text manner.now.forms.now) manner.now.style (digests manner.now.inputs.now) (is_err names) election.now books.entry.items) }
{
    let (language, is_refused) = (manner.style.language, names.is_err());
    let answer = comparison(alloc, books, election, names)?;
    let said = table_text(alloc, language, is_refused, election)?;
    manner.answered(alloc, &answer, None, said)
}

// What a refusal by a line answers, of an input of this file, with what was explained.
fn refused_answered<F: Forms>(
    alloc: Global,
    line: Vec<u8>,
    explained: &Explained,
    file: ReadFile<'_>,
    manner: &Manner<'_, F>,
) -> Result<Answered, NoMemory>
    ensures { IfOk result (IsRefusedAnswer (F.is_text manner.now.forms.now) manner.now.style (digests manner.now.inputs.now) line.items (subject_of explained.now)) }
{
    let answer = Answer::refused(alloc, line);
    let said = explained_text(alloc, manner.style.language, &[file], explained)?;
    manner.answered(alloc, &answer, Some(told_of(explained, file.bytes)), said)
}

// Refuses a rulebook, and tells of those after it that are refused too.
fn refuse_book<F: Forms>(
    alloc: Global,
    first: FirstRefused<'_, '_>,
    manner: &Manner<'_, F>,
) -> Result<Answered, NoMemory>
    ensures { IfOk result (IsRefusedBookAnswer (F.is_text manner.now.forms.now) manner.now.style (digests manner.now.inputs.now) first.entry.refused.now) }
{
    let file = ReadFile {
        input: Input::Book,
        path: first.book.word,
        bytes: first.book.read.text.as_slice(),
    };
    let explained = explain_refused(alloc, manner.style.language, first)?;
    let line = first.refused.why().line(alloc)?;
    refused_answered(alloc, line, &explained, file, manner)
}

// Refuses returns.
fn refuse_returns<F: Forms>(
    alloc: Global,
    returns: &NamedReturns<'_>,
    refused: &RefusedElection,
    manner: &Manner<'_, F>,
) -> Result<Answered, NoMemory>
    ensures { IfOk result (IsRefusedReturnsAnswer (F.is_text manner.now.forms.now) manner.now.style (digests manner.now.inputs.now) refused.now) }
{
    let file = ReadFile {
        input: Input::Returns,
        path: returns.path,
        bytes: returns.read.text.as_slice(),
    };
    let explained = explain_election(alloc, manner.style.language, file.bytes, refused)?;
    let line = refused.why().line(alloc)?;
    refused_answered(alloc, line, &explained, file, manner)
}

// Refuses the first of some rulebooks, if it is refused, and else the returns.
fn refuse_comparison<F: Forms>(
    alloc: Global,
    books: &[NamedBook<'_>],
    returns: &NamedReturns<'_>,
    refused: &RefusedElection,
    manner: &Manner<'_, F>,
) -> Result<Answered, NoMemory>
    ensures { IfOk result (IsRefusedOne (F.is_text manner.now.forms.now) manner.now.style (digests manner.now.inputs.now) books.now (Refused refused.now)) }
{
    if let Some(book) = books.first()
        && let Verdict::Refused(refused) = &book.read.verdict
    {
        let first = FirstRefused {
            book,
            refused,
            further: &books[1..],
        };
        return refuse_book(alloc, first, manner);
    }
    refuse_returns(alloc, returns, refused, manner)
}

// Puts good rulebooks side by side, and after them the same with each of these methods; or refuses one that fails a test so.
fn compare_varied<F: Forms>(
    alloc: Global,
    books: Vec<NamedBook<'_>>,
    methods: &[Method],
    election: &Returns,
    names: Result<FullNames, Answer>,
    manner: &Manner<'_, F>,
) -> Result<Answered, NoMemory>
    requires { AreGood books.items }
    ensures { IfOk result (IsVariedAnswer (F.is_text manner.now.forms.now) manner.now.style (digests manner.now.inputs.now) (is_err names) books.entry.items methods.now election.now) }
{
    let varied = all_varied(alloc, books.as_slice(), methods)?;
    match first_refused(varied.as_slice()) {
        Some(first) => refuse_book(alloc, first, manner),
        None => {
            let all = behind(books, varied)?;
            finish_comparison(alloc, all, election, names, manner)
        }
    }
}

/// Puts rulebooks side by side, also with each of these methods, or refuses one of them or the returns. Before returns that are refused the first
/// rulebook alone may be.
pub(crate) fn compare<F: Forms>(
    alloc: Global,
    books: Vec<NamedBook<'_>>,
    methods: &[Method],
    returns: &NamedReturns<'_>,
    names: Result<FullNames, Answer>,
    manner: &Manner<'_, F>,
) -> Result<Answered, NoMemory>
    ensures { IfOk result (IsComparedAnswer (F.is_text manner.now.forms.now) manner.now.style (digests manner.now.inputs.now) (is_err names) books.entry.items methods.now returns.now.read.verdict) }
{
    match &returns.read.verdict {
        Verdict::Good(election) => match first_refused(books.as_slice()) {
            Some(first) => refuse_book(alloc, first, manner),
            None => compare_varied(alloc, books, methods, election, names, manner),
        },
        Verdict::Refused(refused) => {
            refuse_comparison(alloc, books.as_slice(), returns, refused, manner)
        }
    }
}
