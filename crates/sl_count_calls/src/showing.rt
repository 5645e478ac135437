//! Counting an election for whoever makes more of it than a text.

ghost use Rattle.std.specs.Prelude.{◌⊎◌, ◌≡◌, IfErr, IfOk};
ghost use Rattle.sl_count_calls.specs.Judged.{IsJudged};
ghost use Rattle.sl_count_calls.specs.Reading.{HasTexts};
ghost use Rattle.sl_count_calls.specs.Shows.{IsShownOutput, ReadsBehindShown, status_in};
ghost use Rattle.sl_count_calls.specs.Suiting.{IsFor};
ghost use Rattle.sl_count_calls.specs.Views.{IsAnswerOf, records_for, stage_of};
ghost use Rattle.sl_count_inputs.specs.Failures.{counts, counts_after};
ghost use Rattle.sl_count_inputs.specs.Reading.{ForKnown, ReadsBook, book_failures, book_input};
ghost use Rattle.sl_count_inputs.specs.Writing.{Delivers};

use crate::judged::Judged;
use crate::reading::{Read, judge_read};
use crate::texts::answer_of;
use crate::view::View;
use sl_count_inputs::{BookSource, DeskError, Sink, Source, Status};
use std::alloc::Global;

/// A count that was shown: the status, and what its inputs came to.
#[derive(Drop)]
pub struct Shown<'a> {
    pub status: Status,
    pub read: Read<'a>,
}

// Writes what is shown of what the inputs came to.
fn written<W: Sink>(
    view: View<'_>,
    alloc: Global,
    judged: &Judged<'_>,
    out: &mut W,
) -> Result<Status, DeskError>
    requires made { IsFor view judged.now }
    ensures delivers { Delivers (IsAnswerOf view.entry judged.entry.now) (W.contents out.old) (W.contents out.new) result }
    ensures failures { counts 0 0 0 (W.failed out.new) ≡ counts_after (counts 0 0 0 (W.failed out.old)) result }
    ensures error { IfErr result (λ e. (e ≡ DeskError.NoMemory) ⊎ (e ≡ DeskError.Write)) }
{
    let answer = answer_of(view, alloc, judged)?;
    answer.deliver(out)
}

/// Counts an election as `count`, `steps` or `stage` does, by what is to be shown, and answers what the inputs came to, so that it can be explained
/// without reading or counting again.
///
/// # Errors
///
/// `Read` where a source failed, `Write` where the sink did, and `NoMemory`.
pub fn show<'a, 'b: 'a, B: Source, R: Source, W: Sink>(
    view: View<'a>,
    alloc: Global,
    book: &mut BookSource<'b, B>,
    returns: &mut R,
    out: &mut W,
) -> Result<Shown<'a>, DeskError>
    // The text that is delivered is the output of the two inputs, where their bytes are known.
    ensures delivers { Delivers (λ status text. ForKnown (book_input B.remaining book.old) (R.remaining returns.old) (λ input bytes.
        IsShownOutput view.entry input bytes status text)) (W.contents out.old) (W.contents out.new) (status_in result) }

    // What is answered is what the two inputs come to, where their bytes are known.
    ensures judged { IfOk result (λ shown. ForKnown (book_input B.remaining book.old) (R.remaining returns.old) (λ input bytes.
        IsJudged (records_for view.entry) (stage_of view.entry) input bytes shown.read.judged)) }

    // The bytes are those that were read of the two.
    ensures text { IfOk result (λ shown. HasTexts (book_input B.remaining book.old) (R.remaining returns.old) shown.read) }

    // No call of a source or of the sink failed, or that one of which the error speaks.
    ensures failures { counts (book_failures B.failed book.new) (R.failed returns.new) 0 (W.failed out.new)
        ≡ counts_after (counts (book_failures B.failed book.old) (R.failed returns.old) 0 (W.failed out.old)) result }

    // What is taken of the inputs, as by the call that shows the same.
    ensures book { ReadsBook B.remaining book.old book.new }
    ensures returns { ReadsBehindShown view.entry R.remaining (book_input B.remaining book.old) returns.old returns.new result }
{
    match judge_read(view.records(), alloc, book, view.stage(), returns) {
        Ok(read) => match written(view, alloc, &read.judged, out) {
            Ok(status) => Ok(Shown { status, read }),
            Err(error) => {
                drop(read);
                Err(error)
            }
        },
        Err(error) => Err(error),
    }
}
