//! A rulebook by another method.

ghost use Rattle.std.specs.Prelude.{◌≡◌, IfOk, map};
ghost use Rattle.sl_count_inputs.specs.Judging.{tree_verdict};
ghost use Rattle.sl_report_commands.specs.Methods.{IsTreeVerdictBy, by_method, expr_by_method, stage_by_method};
ghost use Rattle.sl_law_meaning.specs.book.Books.{book_of};
ghost use Rattle.sl_law_meaning.specs.book.Trees.{stage_of, tree_of};

use crate::sums::BookVerdict;
use sl_base_quotients::{Method, NoMemory};
use sl_book_copies::copy_book;
use sl_check::check;
use sl_count_inputs::{RefusedBook, Verdict};
use sl_stages::{Book, CheckedBook, Expr, Stage};
use std::alloc::Global;

// Sets the method of each split and each growth in an expression.
fn set_method(expr: &mut Expr, by: Method)
    ensures { tree_of expr.new ≡ expr_by_method by (tree_of expr.old) }
{
    match expr {
        Expr::Fact { .. } | Expr::Name { .. } => {}
        Expr::Sum { of, .. } => set_method(of, by),
        Expr::Pair { left, right, .. } => {
            set_method(left, by);
            set_method(right, by);
        }
        Expr::Split {
            seats,
            votes,
            method,
            minima,
            ..
        } => {
            set_method(seats, by);
            set_method(votes, by);
            *method = by;
            if let Some(minima) = minima {
                set_method(minima, by);
            }
        }
        Expr::Grow {
            seats,
            votes,
            method,
            minima,
            ..
        } => {
            set_method(seats, by);
            set_method(votes, by);
            *method = by;
            set_method(minima, by);
        }
    }
}

// Sets the method of each split and each growth in some stages.
fn set_methods(stages: &mut [Stage], by: Method)
    ensures { map stage_of stages.new ≡ map (stage_by_method by) (map stage_of stages.old) }
{
    for number in 0..stages.len() {
        set_method(&mut stages[number].expr, by);
    }
}

// A book, where each split and each growth has this method.
fn by_method(book: Book, by: Method) -> Book
    ensures { book_of result ≡ by_method by (book_of book) }
{
    let Book {
        version,
        law,
        house,
        eligible,
        mut stages,
        last,
    } = book;
    set_methods(stages.as_mut_slice(), by);
    Book {
        version,
        law,
        house,
        eligible,
        stages,
        last,
    }
}

/// What a good book comes to by another method, in each of its splits and growths: with it the book may fail a test.
pub fn book_by<'a>(
    alloc: Global,
    book: &CheckedBook,
    by: Method,
) -> Result<BookVerdict<'a>, NoMemory>
    ensures { IfOk result (λ v. IsTreeVerdictBy by (book_of book.now.book) (tree_verdict v)) }
{
    let copy = copy_book(alloc, &book.book)?;
    match check(by_method(copy, by)) {
        Ok(book) => Ok(Verdict::Good(book)),
        Err((book, fault)) => Ok(Verdict::Refused(RefusedBook::Test(fault, book))),
    }
}
