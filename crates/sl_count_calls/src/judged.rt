//! What two inputs come to, as a value.

ghost use Rattle.std.specs.Prelude.{◌≡◌, IfOk, option_map};
ghost use Rattle.sl_count_calls.specs.Fitting.{FitsJudged};
ghost use Rattle.sl_count_calls.specs.Judged.{IsCounting, IsJudged, IsJudgedOn, unknown_in};
ghost use Rattle.sl_count_calls.specs.declared.judged.Judged.TheVariants as judged;
ghost use Rattle.sl_count_inputs.specs.Judging.{input_of};
ghost use Rattle.sl_law_meaning.specs.book.Books.{book_of};

use crate::counting::Counting;
use crate::outcome::outcome_of;
use sl_base_quotients::NoMemory;
use sl_check::CheckedBook;
use sl_count_inputs::{
    BookText, RefusedBook, RefusedElection, Verdict, judge_book, judge_returns, stage_number,
};
use sl_stages::{Book, Records, Returns};
use std::alloc::Global;

/// What a rulebook and returns come to.
#[derive(Drop)]
pub enum Judged<'a> {
    /// The rulebook is refused.
    BookRefused(RefusedBook<'a>),
    /// The rulebook is good, and has no stage of the name that is asked for.
    StageUnknown(CheckedBook, &'a str),
    /// The returns are refused, after a good rulebook.
    ReturnsRefused(RefusedElection),
    /// Both are good.
    Counted(Counting),
}

/// The name that is asked for, where a rulebook has no stage of that name.
pub(crate) fn unknown<'a>(book: &Book, stage: Option<&'a str>) -> Option<&'a str>
    ensures { option_map (λ name. name.now) result ≡ unknown_in (option_map (λ name. name.now) stage.entry) (book_of book.now) }
{
    match stage {
        Some(name) if stage_number(book, name).is_none() => Some(name),
        _ => None,
    }
}

/// A good rulebook on good returns, with what it comes to on them.
pub(crate) fn counting_of(
    records: Records,
    alloc: Global,
    book: CheckedBook,
    returns: Returns,
) -> Result<Counting, NoMemory>
    ensures counting { IfOk result (IsCounting records (book_of book.book) returns) }
    ensures fits { IfOk result (λ c. FitsJudged records (judged.Counted c)) }
{
    let outcome = outcome_of(records, alloc, &book, &returns)?;
    Ok(Counting {
        book,
        returns,
        records,
        outcome,
    })
}

// What a good rulebook and the bytes of returns come to.
fn judge_on<'a>(
    records: Records,
    alloc: Global,
    book: CheckedBook,
    returns: &[u8],
) -> Result<Judged<'a>, NoMemory>
    ensures judged { IfOk result (IsJudgedOn records (book_of book.book) returns.now) }
    ensures fits { IfOk result (FitsJudged records) }
{
    match judge_returns(alloc, returns)? {
        Verdict::Good(returns) => Ok(Judged::Counted(counting_of(records, alloc, book, returns)?)),
        Verdict::Refused(refused) => Ok(Judged::ReturnsRefused(refused)),
    }
}

/// What a rulebook and returns come to. The rulebook is judged first, then the name of a stage, if one is asked for, and then the returns.
pub fn judge<'a>(
    records: Records,
    alloc: Global,
    book: BookText<'a>,
    stage: Option<&'a str>,
    returns: &[u8],
) -> Result<Judged<'a>, NoMemory>
    ensures judged { IfOk result (IsJudged records (option_map (λ name. name.now) stage.entry) (input_of book.entry) returns.now) }
    ensures fits { IfOk result (FitsJudged records) }
{
    match judge_book(alloc, book)? {
        Verdict::Good(good) => match unknown(&good.book, stage) {
            Some(name) => Ok(Judged::StageUnknown(good, name)),
            None => judge_on(records, alloc, good, returns),
        },
        Verdict::Refused(refused) => Ok(Judged::BookRefused(refused)),
    }
}
