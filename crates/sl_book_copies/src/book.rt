//! Copies of whole rulebooks.

ghost use Rattle.std.specs.Prelude.{◌≡◌, IfOk, map};
ghost use Rattle.sl_law_meaning.specs.book.Books.{book_of};
ghost use Rattle.sl_law_meaning.specs.book.Trees.{stage_of};

use crate::copies::{copy_stage, copy_word};
use sl_base_quotients::NoMemory;
use sl_law_meaning::{Base, Book, LastClause, Stage};
use std::alloc::Global;

fn copy_stages(alloc: Global, stages: &[Stage]) -> Result<Vec<Stage>, NoMemory>
    ensures { IfOk result (λ copy. map stage_of copy.items ≡ map stage_of stages.now) }
{
    let mut copies = Vec::new(alloc);
    for stage in stages {
        copies.push(copy_stage(alloc, stage)?)?;
    }
    Ok(copies)
}

fn copy_base(alloc: Global, base: &Base) -> Result<Base, NoMemory>
    ensures { IfOk result (λ copy. copy ≡ base.now) }
{
    match base {
        Base::Winners => Ok(Base::Winners),
        Base::Stage(name) => Ok(Base::Stage(copy_word(alloc, name)?)),
    }
}

fn copy_last(alloc: Global, last: &LastClause) -> Result<LastClause, NoMemory>
    ensures { IfOk result (λ copy. copy ≡ last.now) }
{
    Ok(LastClause {
        base: copy_base(alloc, &last.base)?,
        at: last.at,
        seating: last.seating,
        vacate: last.vacate,
    })
}

/// A copy of a rulebook.
pub fn copy_book(alloc: Global, book: &Book) -> Result<Book, NoMemory>
    ensures { IfOk result (λ copy. book_of copy ≡ book_of book.now) }
{
    Ok(Book {
        version: book.version,
        law: Vec::from_slice(alloc, book.law.as_slice())?,
        house: book.house,
        eligible: Vec::from_slice(alloc, book.eligible.as_slice())?,
        stages: copy_stages(alloc, book.stages.as_slice())?,
        last: copy_last(alloc, &book.last)?,
    })
}
