//! Counting over the files at the paths that words name.

ghost use Rattle.std.specs.Prelude.{◌≡◌, IfErr, IfOk};
ghost use Rattle.sl_terminal_outside.specs.Inputs.{IsUnopened, named_input};
ghost use Rattle.sl_count_calls.specs.Shows.{IsShownOutput};
ghost use Rattle.sl_count_inputs.specs.Reading.{ForKnown, book_input};
ghost use Rattle.sl_count_inputs.specs.Writing.{Delivers};

use crate::words::Count;
use sl_count_calls::{View, count, stage, steps};
use sl_count_inputs::{BookSource, DeskError, Input, Sink, Source, Status};
use sl_terminal_outside::{Outside, open, open_book};
use std::alloc::Global;

// The inputs of a count, the book opened first.
fn opened<'a, O: Outside>(
    outside: &O,
    count: &Count<'a>,
) -> Result<(BookSource<'a, O::File>, O::File), DeskError>
    ensures book { IfOk result (λ both. book_input O.File.remaining both.0 ≡ named_input (O.bytes outside.now) count.now.book.now) }
    ensures returns { IfOk result (λ both. O.File.remaining both.1 ≡ O.bytes outside.now count.now.returns.now) }
    ensures error { IfErr result (λ e. IsUnopened (O.lacks outside.now) count.now.book.now count.now.returns.now e) }
{
    let book = match open_book(outside, count.book) {
        Ok(book) => book,
        Err(unopened) => return Err(unopened.error()),
    };
    match open(outside, count.returns, Input::Returns) {
        Ok(returns) => Ok((book, returns)),
        Err(unopened) => Err(unopened.error()),
    }
}

// Counts by the call that shows the view.
fn shown<B: Source, R: Source, W: Sink>(
    view: View<'_>,
    alloc: Global,
    book: &mut BookSource<'_, B>,
    returns: &mut R,
    out: &mut W,
) -> Result<Status, DeskError>
    ensures delivers { Delivers (λ status text. ForKnown (book_input B.remaining book.old) (R.remaining returns.old) (λ input bytes.
        IsShownOutput view.entry input bytes status text)) (W.contents out.old) (W.contents out.new) result }
{
    match view {
        View::Seats => count(alloc, book, returns, out),
        View::Steps => steps(alloc, book, returns, out),
        View::Stage(name) => stage(alloc, book, returns, name, out),
    }
}

/// Counts what is asked for, over the files at the paths that it names.
///
/// # Errors
///
/// `Read` where a file could not be opened or read, `Write` where the sink failed, and `NoMemory`.
pub fn counted<O: Outside, W: Sink>(
    alloc: Global,
    outside: &O,
    count: Count<'_>,
    out: &mut W,
) -> Result<Status, DeskError>
    ensures delivers { Delivers (λ status text. ForKnown (named_input (O.bytes outside.now) count.entry.book.now) (O.bytes outside.now count.entry.returns.now) (λ input bytes.
        IsShownOutput count.entry.view input bytes status text)) (W.contents out.old) (W.contents out.new) result }
{
    let (mut book, mut returns) = opened(outside, &count)?;
    shown(count.view, alloc, &mut book, &mut returns, out)
}
