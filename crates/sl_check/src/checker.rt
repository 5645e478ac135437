//! The whole of a rulebook.

ghost use Rattle.std.specs.Prelude.{◌≡◌, [], ◌∷◌, Some, IfOk, IfErr, IsTrue, IsOk, ◌↔◌};
ghost use Rattle.sl_law_meaning.specs.book.Books.{book_of};
ghost use Rattle.sl_law_meaning.specs.book.Typing.{version_tests, condition_tests, tests_of, check_fault, is_typed};
ghost use Rattle.sl_base_terms.specs.Tests.{Judges};

use crate::columns::Columns;
use crate::nodes::{is_seat_number, test};
use crate::stages::stage_types;
use sl_law_meaning::{Book, CheckFault, CheckedBook, Cond, MAX_PER, Number};

/// Refuses versions but 1 and 2, and `vacate` in version 1.
fn check_version(version: Number, vacate: Option<usize>) -> Result<(), CheckFault>
    ensures { Judges result (version_tests version vacate) tt }
{
    let is_known = version.value == 1 || version.value == 2;
    test(is_known, CheckFault::Version(version.at))?;
    match vacate {
        None => Ok(()),
        Some(at) => test(version.value == 2, CheckFault::Version(at)),
    }
}

/// Refuses a share of votes that is not from 1 per `MAX_PER` to the whole.
fn check_condition(condition: Cond) -> Result<(), CheckFault>
    ensures { Judges result (condition_tests (condition ∷ [])) tt }
{
    match condition {
        Cond::Valid { share, per } => {
            let fits = 1 <= share.value && share.value <= per && per <= MAX_PER;
            test(fits, CheckFault::PerRange(share.at))
        }
        Cond::Winners { .. } | Cond::Minority | Cond::All => Ok(()),
    }
}

fn check_conditions(conditions: &[Cond]) -> Result<(), CheckFault>
    ensures { Judges result (condition_tests conditions.now) tt }
{
    for condition in conditions {
        check_condition(*condition)?;
    }
    Ok(())
}

#[tactic(auto, using(sl_base_terms::proofs::Tests::fails_in_row))]
fn check_book(book: &Book) -> Result<(), CheckFault>
    ensures { Judges result (tests_of (book_of book.now)) tt }
{
    check_version(book.version, book.last.vacate)?;
    let house = book.house;
    test(
        is_seat_number(house.value),
        CheckFault::HouseRange(house.at),
    )?;
    check_conditions(&book.eligible)?;
    let types = stage_types(&book.stages)?;
    let columns = Columns {
        stages: &book.stages,
        types: &types,
    };
    columns.check_base(&book.last)
}

/// The book itself, as one that is well formed; else the book, with the first test that it fails
/// (docs/language.md, section 5). It takes no memory.
pub fn check(book: Book) -> Result<CheckedBook, (Book, CheckFault)>
    ensures ok { IfOk result (λ c. c.book ≡ book) }
    ensures err { IfErr result (λ e. (e.0 ≡ book) × (check_fault (book_of book) ≡ Some e.1)) }
    ensures exact { IsOk result ↔ IsTrue (is_typed (book_of book)) }
{
    match check_book(&book) {
        Ok(()) => Ok(CheckedBook { book }),
        Err(fault) => Err((book, fault)),
    }
}
