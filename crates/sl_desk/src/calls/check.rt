//! Checking a rulebook: from its bytes to the line of a good book.

ghost use Rattle.std.specs.Prelude.{◌≡◌, IfOk, IfSome};
ghost use Rattle.sl_law_meaning.specs.book.Books.{book_of};
ghost use Rattle.sl_count_inputs.specs.Failures.{counts, counts_after};
ghost use Rattle.sl_desk.specs.Checking.{IsCheck, IsCheckOutput, check_line};
ghost use Rattle.sl_count_inputs.specs.Judging.{tree_verdict};
ghost use Rattle.sl_count_inputs.specs.Reading.{book_input, book_failures, ReadsBook};
ghost use Rattle.sl_count_inputs.specs.Writing.{Delivers};

use sl_base_quotients::NoMemory;
use sl_check::CheckedBook;
use sl_count_calls::Answer;
use sl_count_inputs::{
    BookSource, DeskError, RefusedBook, Sink, Source, Status, Verdict, read_book,
};
use sl_stages::Book;
use sl_table::Text;
use std::alloc::Global;

// The line of a good book.
fn check_line(alloc: Global, book: &Book) -> Result<Vec<u8>, NoMemory>
    ensures { IfOk result (λ line. line.items ≡ check_line (book_of book.now)) }
{
    let mut line = Text::new(alloc);
    line.word(b"book")?;
    line.number(u64::from(book.version.value))?;
    line.word(b"house")?;
    line.number(u64::from(book.house.value))?;
    line.word(b"stages")?;
    line.number(book.stages.len() as u64)?;
    line.word(b"law")?;
    line.word(&book.law)?;
    line.end_line()?;
    Ok(line.into_bytes())
}

/// What checking writes of a judged book: the line of a good one, or the line that refuses it.
pub fn check_answer(
    alloc: Global,
    book: &Verdict<CheckedBook, RefusedBook<'_>>,
) -> Result<Answer, NoMemory>
    ensures { IfOk result (λ a. IsCheck (tree_verdict book.entry.now) a.status a.text.items) }
{
    match book {
        Verdict::Good(good) => Ok(Answer::done(check_line(alloc, &good.book)?)),
        Verdict::Refused(refused) => Ok(Answer::refused(refused.why().line(alloc)?)),
    }
}

// What checking a book writes.
fn answer_to<B: Source>(alloc: Global, book: &mut BookSource<'_, B>) -> Result<Answer, DeskError>
    ensures answer { IfOk result (λ a. IfSome (book_input B.remaining book.old) (λ input. IsCheckOutput input a.status a.text.items)) }
    ensures failures { counts (book_failures B.failed book.new) 0 0 0 ≡ counts_after (counts (book_failures B.failed book.old) 0 0 0) result }
    ensures book { ReadsBook B.remaining book.old book.new }
{
    let read = read_book(alloc, book)?;
    let answer = check_answer(alloc, &read.verdict);
    drop(read);
    Ok(answer?)
}

/// Checks a rulebook: reads it, and writes the line of a good book, or the line that refuses it (docs/output.md).
///
/// # Errors
///
/// `Read` where the source failed, `Write` where the sink did, and `NoMemory`.
pub fn check_book<B: Source, W: Sink>(
    alloc: Global,
    book: &mut BookSource<'_, B>,
    out: &mut W,
) -> Result<Status, DeskError>
    // The text that is delivered is the output of the book, where its bytes are known.
    ensures delivers { Delivers (λ status text. IfSome (book_input B.remaining book.old) (λ input.
        IsCheckOutput input status text)) (W.contents out.old) (W.contents out.new) result }

    // No call of the source or of the sink failed, or that one of which the error speaks.
    ensures failures { counts (book_failures B.failed book.new) 0 0 (W.failed out.new)
        ≡ counts_after (counts (book_failures B.failed book.old) 0 0 (W.failed out.old)) result }

    // What is taken of the book.
    ensures book { ReadsBook B.remaining book.old book.new }
{
    let answer = answer_to(alloc, book)?;
    answer.deliver(out)
}
