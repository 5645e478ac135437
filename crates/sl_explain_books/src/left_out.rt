//! A rulebook without the clause in which a fault lies, and without the stages that cannot be judged then.

ghost use Rattle.std.specs.Prelude.{[], ◌++◌, ◌≡◌, IfOk, OnOk, filter, map};
ghost use Rattle.std.specs.List.{list_any};
ghost use Rattle.std.specs.Str.{bytes_eq};
ghost use Rattle.sl_law_meaning.specs.book.Books.{book_of};
ghost use Rattle.sl_law_meaning.specs.book.Trees.{stage_of};
ghost use Rattle.sl_explain_books.specs.Further.{base_left, condition_left, is_left_out, left_of, lost_with, names_lost, stages_left, without};

use crate::clause::Clause;
use sl_base_quotients::NoMemory;
use sl_book_copies::{copy_stage, copy_word};
use sl_check::{is_one_of, names_one_of};
use sl_law_meaning::{Base, Book, Cond, LastClause, Stage, Word};
use std::alloc::Global;

// The stages that are left, and the names of those that are left out.
#[derive(Drop)]
struct Stages {
    left: Vec<Stage>,
    lost: Vec<Word>,
}

impl Stages {
    // Whether a stage is left out: it is the clause itself, or it names a stage that is left out.
    fn leave_out(&self, clause: Clause, stage: &Stage) -> bool
        ensures { result ≡ is_left_out clause self.now.lost.items (stage_of stage.now) }
    {
        clause.is_stage(stage.at) || names_one_of(&stage.expr, self.lost.as_slice())
    }

    // Takes the next stage, or leaves it out.
    fn add(&mut self, alloc: Global, clause: Clause, stage: &Stage) -> Result<(), NoMemory>
        ensures left { OnOk result (map stage_of self.new.left.items ≡ map stage_of self.old.left.items ++ left_of clause self.old.lost.items (stage_of stage.now)) }
        ensures lost { OnOk result (self.new.lost.items ≡ lost_with clause self.old.lost.items (stage_of stage.now)) }
    {
        if self.leave_out(clause, stage) {
            self.lost.push(copy_word(alloc, &stage.name)?)?;
        } else {
            self.left.push(copy_stage(alloc, stage)?)?;
        }
        Ok(())
    }

    // Those of a rulebook without a clause.
    fn without(alloc: Global, stages: &[Stage], clause: Clause) -> Result<Stages, NoMemory>
        ensures left { IfOk result (λ r. map stage_of r.left.items ≡ stages_left clause [] (map stage_of stages.now)) }
        ensures lost { IfOk result (λ r. r.lost.items ≡ names_lost clause [] (map stage_of stages.now)) }
    {
        let mut all = Stages {
            left: Vec::new(alloc),
            lost: Vec::new(alloc),
        };
        for stage in stages {
            all.add(alloc, clause, stage)?;
        }
        Ok(all)
    }
}

// The conditions without a clause.
fn conditions_left(
    alloc: Global,
    conditions: &[Cond],
    clause: Clause,
) -> Result<Vec<Cond>, NoMemory>
    ensures { IfOk result (λ left. left.items ≡ filter (condition_left clause) conditions.now) }
{
    let mut left = Vec::new(alloc);
    for condition in conditions {
        if clause.leaves_condition(*condition) {
            left.push(*condition)?;
        }
    }
    Ok(left)
}

// The base of the last clause: the winners, in which no fault can lie, where the clause or the stage that it names is left out.
fn base_left(alloc: Global, base: &Base, clause: Clause, lost: &[Word]) -> Result<Base, NoMemory>
    ensures { IfOk result (λ left. left ≡ base_left clause lost.now base.now) }
{
    match base {
        Base::Stage(name) if !clause.is_last() && !is_one_of(name, lost) => {
            Ok(Base::Stage(copy_word(alloc, name)?))
        }
        Base::Stage(_) | Base::Winners => Ok(Base::Winners),
    }
}

/// A rulebook without a clause, and without the stages that name one that is left out.
pub fn without(alloc: Global, book: &Book, clause: Clause) -> Result<Book, NoMemory>
    ensures { IfOk result (λ left. book_of left ≡ without clause (book_of book.now)) }
{
    let stages = Stages::without(alloc, book.stages.as_slice(), clause)?;
    let last = LastClause {
        base: base_left(alloc, &book.last.base, clause, stages.lost.as_slice())?,
        at: book.last.at,
        seating: book.last.seating,
        vacate: book.last.vacate,
    };
    Ok(Book {
        version: clause.version_left(book.version),
        law: Vec::from_slice(alloc, book.law.as_slice())?,
        house: clause.house_left(book.house),
        eligible: conditions_left(alloc, book.eligible.as_slice(), clause)?,
        stages: stages.left,
        last,
    })
}
