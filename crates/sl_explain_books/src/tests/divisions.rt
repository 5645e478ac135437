//! Explains splits and growths with mismatched arguments, or with an option that their method does not take.

ghost use Rattle.std.specs.Prelude.{◌≡◌, IfOk, IfSome, Some};
ghost use Rattle.sl_explain_texts.specs.Messages.{IsFilledBy, IsSaidBy};
ghost use Rattle.sl_explain_texts.specs.declared.code.FaultCode.TheVariants.{B19};

use super::Written;
use super::forms::{explain_arguments, explain_unfit, node_in, summed, sums_to};
use super::node::{Division, Node};
use crate::texts::tests as texts;
use sl_base_quotients::{Method, NoMemory};
use sl_explain_texts::{Explainer, FaultCode, Message, Sentence};
use sl_law_meaning::{ColumnType, Shape, Unit};
use sl_parse::method_keyword;

// What to do about minima that do not fit the votes.
fn minima_remedy(votes: ColumnType, minima: ColumnType) -> &'static Message
    ensures { IsFilledBy result.now 1 }
{
    if minima.unit == Unit::Seats && sums_to(minima.shape, votes.shape) {
        &texts::MINIMA_SUM
    } else {
        &texts::MINIMA_REMEDY
    }
}

// What to do about seats and votes that do not fit; `None` if they fit.
fn division_remedy(division: Division) -> Option<&'static Message>
    ensures { IfSome result (λ m. IsFilledBy m.now 0) }
{
    if division.grows && division.seats.shape != Shape::One {
        Some(&texts::GROW_ONE)
    } else if division.seats.shape == Shape::List {
        Some(&texts::SEATS_OF_LISTS)
    } else if division.seats.shape == Shape::One && division.votes.shape == Shape::One {
        Some(&texts::VOTES_OF_SOME)
    } else if division.seats.shape != Shape::One && division.votes.shape != Shape::List {
        Some(&texts::VOTES_OF_LISTS)
    } else if division.seats.unit == Unit::Votes {
        Some(&texts::NEEDS_SEATS)
    } else if division.votes.unit == Unit::Seats {
        Some(&texts::NEEDS_VOTES)
    } else {
        None
    }
}

/// A split or a growth whose seats and votes do not fit, or else its minima.
pub fn explain_division(
    written: &Written<'_>,
    code: FaultCode,
    at: usize,
    division: Division,
) -> Explainer
    ensures { result.code ≡ Some code }
{
    let form: &'static [u8] = if division.grows { b"grow" } else { b"split" };
    let (seats, votes) = (division.seats, division.votes);
    if seats.unit == Unit::Votes && votes.unit == Unit::Seats {
        return explain_arguments(written, &texts::SWAPPED, code, at, form, (seats, votes)).helped(
            &texts::SWAPPED_REMEDY,
            &[],
        );
    }
    match (division_remedy(division), division.minima) {
        (None, Some(minima)) => {
            explain_arguments(written, &texts::MINIMA, code, at, form, (votes, minima)).helped(
                minima_remedy(votes, minima),
                &[summed(votes.shape)],
            )
        }
        (remedy, _) => {
            explain_arguments(
                written,
                &texts::SEATS_BY_VOTES,
                code,
                at,
                form,
                (seats, votes),
            )
            .helped(remedy.unwrap_or(&texts::VOTES_OF_SOME), &[])
        }
    }
}

// What is said of an option that a method does not take.
fn option_texts(division: Division) -> (&'static Sentence, &'static Message)
    ensures sentence { IsSaidBy result.0.now 1 × (result.0.now.0 ≡ B19) }
    ensures remedy { IsFilledBy result.1.now 0 }
{
    match division.method {
        _ if division.grows => (&texts::HAMILTON_GROWS, &texts::HAMILTON_GROWS_REMEDY),
        Method::Hamilton => (&texts::HAMILTON_MINIMA, &texts::HAMILTON_MINIMA_REMEDY),
        Method::Divisor(_) => (&texts::PREFER, &texts::PREFER_REMEDY),
    }
}

// An option that the method of a split or a growth does not take.
fn explain_method(written: &Written<'_>, at: usize, division: Division) -> Explainer
    ensures { result.code ≡ Some B19 }
{
    let method = method_keyword(division.method).spelling().as_bytes();
    let (sentence, remedy) = option_texts(division);
    let explainer = written.says(sentence, &[method], at);
    explainer.helped(remedy, &[])
}

/// A split or a growth with an option that its method does not take.
pub fn explain_option(written: &Written<'_>, at: usize) -> Result<Explainer, NoMemory>
    ensures { IfOk result (λ x. x.code ≡ Some B19) }
{
    Ok(match node_in(written, at)? {
        Some(Node::Division(division)) => explain_method(written, at, division),
        Some(Node::Sum { .. } | Node::Pair { .. }) | None => {
            explain_unfit(written, FaultCode::B19, at)
        }
    })
}
