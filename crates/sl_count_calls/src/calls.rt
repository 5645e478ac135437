//! The calls: from a rulebook and returns to the text of a table, of a table with its steps, or of the column of a stage.

ghost use Rattle.std.specs.Prelude.{◌≡◌};
ghost use Rattle.sl_count_calls.specs.Counting.{IsOutput, ReadsReturns, ShowsSeats};
ghost use Rattle.sl_count_calls.specs.Showing.{IsStageOutput, ReadsBehindStage};
ghost use Rattle.sl_count_calls.specs.Shows.{IsShownOutput, ReadsBehindShown};
ghost use Rattle.sl_count_calls.specs.Steps.{ShowsSteps};
ghost use Rattle.sl_count_inputs.specs.Failures.{counts, counts_after};
ghost use Rattle.sl_count_inputs.specs.Reading.{ForKnown, ReadsBook, book_failures, book_input};
ghost use Rattle.sl_count_inputs.specs.Writing.{Delivers};

use crate::showing::show;
use crate::view::View;
use sl_count_inputs::{BookSource, DeskError, Sink, Source, Status};
use std::alloc::Global;

// Counts an election as `show` does, and answers the status alone.
fn status_of<B: Source, R: Source, W: Sink>(
    view: View<'_>,
    alloc: Global,
    book: &mut BookSource<'_, B>,
    returns: &mut R,
    out: &mut W,
) -> Result<Status, DeskError>
    ensures delivers { Delivers (λ status text. ForKnown (book_input B.remaining book.old) (R.remaining returns.old) (λ input bytes.
        IsShownOutput view.entry input bytes status text)) (W.contents out.old) (W.contents out.new) result }
    ensures failures { counts (book_failures B.failed book.new) (R.failed returns.new) 0 (W.failed out.new)
        ≡ counts_after (counts (book_failures B.failed book.old) (R.failed returns.old) 0 (W.failed out.old)) result }
    ensures book { ReadsBook B.remaining book.old book.new }
    ensures returns { ReadsBehindShown view.entry R.remaining (book_input B.remaining book.old) returns.old returns.new result }
{
    let shown = show(view, alloc, book, returns, out)?;
    let status = shown.status;
    drop(shown);
    Ok(status)
}

/// Counts an election: reads a rulebook and returns, and writes the table or the legal fault to which the book comes, or the line that refuses one
/// of them. The book is read and judged before the returns (docs/output.md).
///
/// # Errors
///
/// `Read` where a source failed, `Write` where the sink did, and `NoMemory`.
pub fn count<B: Source, R: Source, W: Sink>(
    alloc: Global,
    book: &mut BookSource<'_, B>,
    returns: &mut R,
    out: &mut W,
) -> Result<Status, DeskError>
    // The text that is delivered is the output of the two inputs, where their bytes are known.
    ensures delivers { Delivers (λ status text. ForKnown (book_input B.remaining book.old) (R.remaining returns.old) (λ input bytes.
        IsOutput ShowsSeats input bytes status text)) (W.contents out.old) (W.contents out.new) result }

    // No call of a source or of the sink failed, or that one of which the error speaks.
    ensures failures { counts (book_failures B.failed book.new) (R.failed returns.new) 0 (W.failed out.new)
        ≡ counts_after (counts (book_failures B.failed book.old) (R.failed returns.old) 0 (W.failed out.old)) result }

    // What is taken of the inputs, the returns only after a good book.
    ensures book { ReadsBook B.remaining book.old book.new }
    ensures returns { ReadsReturns R.remaining (book_input B.remaining book.old) returns.old returns.new result }
{
    status_of(View::Seats, alloc, book, returns, out)
}

/// Counts an election as `count` does, and writes each seat with the step that won it before the table.
///
/// # Errors
///
/// `Read` where a source failed, `Write` where the sink did, and `NoMemory`.
pub fn steps<B: Source, R: Source, W: Sink>(
    alloc: Global,
    book: &mut BookSource<'_, B>,
    returns: &mut R,
    out: &mut W,
) -> Result<Status, DeskError>
    // The text that is delivered is the output of the two inputs, where their bytes are known.
    ensures delivers { Delivers (λ status text. ForKnown (book_input B.remaining book.old) (R.remaining returns.old) (λ input bytes.
        IsOutput ShowsSteps input bytes status text)) (W.contents out.old) (W.contents out.new) result }

    // No call of a source or of the sink failed, or that one of which the error speaks.
    ensures failures { counts (book_failures B.failed book.new) (R.failed returns.new) 0 (W.failed out.new)
        ≡ counts_after (counts (book_failures B.failed book.old) (R.failed returns.old) 0 (W.failed out.old)) result }

    // What is taken of the inputs, the returns only after a good book.
    ensures book { ReadsBook B.remaining book.old book.new }
    ensures returns { ReadsReturns R.remaining (book_input B.remaining book.old) returns.old returns.new result }
{
    status_of(View::Steps, alloc, book, returns, out)
}

/// Counts an election as `count` does, and writes the column of the stage of that name in place of the table. The book is read and judged first,
/// then the name of the stage, and then the returns (docs/output.md).
///
/// # Errors
///
/// `Read` where a source failed, `Write` where the sink did, and `NoMemory`.
pub fn stage<B: Source, R: Source, W: Sink>(
    alloc: Global,
    book: &mut BookSource<'_, B>,
    returns: &mut R,
    name: &str,
    out: &mut W,
) -> Result<Status, DeskError>
    // The text that is delivered is the output of the two inputs and the name, where their bytes are known.
    ensures delivers { Delivers (λ status text. ForKnown (book_input B.remaining book.old) (R.remaining returns.old) (λ input bytes.
        IsStageOutput name.now input bytes status text)) (W.contents out.old) (W.contents out.new) result }

    // No call of a source or of the sink failed, or that one of which the error speaks.
    ensures failures { counts (book_failures B.failed book.new) (R.failed returns.new) 0 (W.failed out.new)
        ≡ counts_after (counts (book_failures B.failed book.old) (R.failed returns.old) 0 (W.failed out.old)) result }

    // What is taken of the inputs, the returns only after a good book with a stage of that name.
    ensures book { ReadsBook B.remaining book.old book.new }
    ensures returns { ReadsBehindStage name.now R.remaining (book_input B.remaining book.old) returns.old returns.new result }
{
    status_of(View::Stage(name), alloc, book, returns, out)
}
