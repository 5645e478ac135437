//! What two inputs come to that are read.

ghost use Rattle.std.specs.Prelude.{◌≡◌, ◌+◌, [], IfErr, IfOk, IfSome, option_map};
ghost use Rattle.sl_count_calls.specs.Fitting.{FitsJudged};
ghost use Rattle.sl_count_calls.specs.Judged.{IsCounting, IsJudged, IsJudgedOn};
ghost use Rattle.sl_count_calls.specs.declared.judged.Judged.TheVariants as judged;
ghost use Rattle.sl_count_calls.specs.Reading.{HasTexts, IsReturnsText, ReadsAfter};
ghost use Rattle.sl_count_inputs.specs.Failures.{counts, counts_after};
ghost use Rattle.sl_count_inputs.specs.Reading.{ForKnown, ReadsBook, TakesAtMost, book_failures, book_input};
ghost use Rattle.sl_count_inputs.specs.declared.limits.TheConstants.{MAX_RETURNS_BYTES};
ghost use Rattle.sl_law_meaning.specs.book.Books.{book_of};

use crate::counting::Counting;
use crate::judged::{Judged, counting_of, unknown};
use sl_check::CheckedBook;
use sl_count_inputs::{
    BookSource, DeskError, ReadBook, ReadReturns, Source, Verdict, read_book, read_election,
};
use sl_stages::{Records, Returns};
use std::alloc::Global;

/// What a rulebook and returns come to, and the bytes of both as far as they were read: none of a rulebook of the library, of an input that is too long
/// and of returns that were not read.
#[derive(Drop)]
pub struct Read<'a> {
    pub judged: Judged<'a>,
    pub book: Vec<u8>,
    pub returns: Vec<u8>,
}

// A good rulebook on good returns, as `counting_of` has it.
fn counted(
    records: Records,
    alloc: Global,
    book: CheckedBook,
    returns: Returns,
) -> Result<Counting, DeskError>
    ensures memory { IfErr result (λ e. e ≡ DeskError.NoMemory) }
    ensures counting { IfOk result (IsCounting records (book_of book.book) returns) }
    ensures fits { IfOk result (λ c. FitsJudged records (judged.Counted c)) }
{
    Ok(counting_of(records, alloc, book, returns)?)
}

// What a good rulebook and the returns of a source come to.
fn read_on<'a, S: Source>(
    records: Records,
    alloc: Global,
    book: CheckedBook,
    text: Vec<u8>,
    returns: &mut S,
) -> Result<Read<'a>, DeskError>
    ensures judged { IfOk result (λ r. IfSome (S.remaining returns.old) (λ bytes. IsJudgedOn records (book_of book.book) bytes r.judged)) }
    ensures fits { IfOk result (λ r. FitsJudged records r.judged) }
    ensures book { IfOk result (λ r. r.book.items ≡ text.items) }
    ensures text { IfOk result (λ r. IsReturnsText r.judged (S.remaining returns.old) r.returns.items) }
    ensures failures { counts 0 (S.failed returns.new) 0 0 ≡ counts_after (counts 0 (S.failed returns.old) 0 0) result }
    ensures limited { TakesAtMost (MAX_RETURNS_BYTES + 1) (S.remaining returns.old) (S.remaining returns.new) }
{
    let ReadReturns {
        text: bytes,
        verdict,
    } = read_election(alloc, returns)?;
    match verdict {
        Verdict::Good(election) => {
            let counting = counted(records, alloc, book, election)?;
            Ok(Read {
                judged: Judged::Counted(counting),
                book: text,
                returns: bytes,
            })
        }
        Verdict::Refused(refused) => Ok(Read {
            judged: Judged::ReturnsRefused(refused),
            book: text,
            returns: bytes,
        }),
    }
}

// What comes of a rulebook alone: it is refused, or has no stage of the name that is asked for.
fn alone<'a>(alloc: Global, judged: Judged<'a>, book: Vec<u8>) -> Read<'a>
    ensures judged { result.judged ≡ judged.entry }
    ensures book { result.book.items ≡ book.items }
    ensures returns { result.returns.items ≡ [] }
{
    Read {
        judged,
        book,
        returns: Vec::new(alloc),
    }
}

/// Reads a rulebook and returns, and answers what they come to. The rulebook is read and judged first, then the name of a stage, if one is asked for, and
/// then the returns.
///
/// # Errors
///
/// `Read` where a source failed, and `NoMemory`.
pub fn judge_read<'a, 'b: 'a, B: Source, R: Source>(
    records: Records,
    alloc: Global,
    book: &mut BookSource<'b, B>,
    stage: Option<&'a str>,
    returns: &mut R,
) -> Result<Read<'a>, DeskError>
    // It is what the two inputs come to, where their bytes are known.
    ensures judged { IfOk result (λ read. ForKnown (book_input B.remaining book.old) (R.remaining returns.old) (λ input bytes.
        IsJudged records (option_map (λ name. name.now) stage.entry) input bytes read.judged)) }
    ensures fits { IfOk result (λ read. FitsJudged records read.judged) }

    // The bytes are those that were read of the two.
    ensures text { IfOk result (HasTexts (book_input B.remaining book.old) (R.remaining returns.old)) }

    // No call of a source failed, or that one of which the error speaks.
    ensures failures { counts (book_failures B.failed book.new) (R.failed returns.new) 0 0
        ≡ counts_after (counts (book_failures B.failed book.old) (R.failed returns.old) 0 0) result }

    // What is taken of the inputs, the returns only after a good book that has what is asked for.
    ensures book { ReadsBook B.remaining book.old book.new }
    ensures returns { ReadsAfter (option_map (λ name. name.now) stage.entry) R.remaining (book_input B.remaining book.old) returns.old returns.new result }
{
    let ReadBook { text, verdict } = read_book(alloc, book)?;
    match verdict {
        Verdict::Good(good) => match unknown(&good.book, stage) {
            Some(name) => Ok(alone(alloc, Judged::StageUnknown(good, name), text)),
            None => read_on(records, alloc, good, text, returns),
        },
        Verdict::Refused(refused) => Ok(alone(alloc, Judged::BookRefused(refused), text)),
    }
}
