//! Explains forms with mismatched arguments, and a stage with more than one split or growth.

ghost use Rattle.std.specs.Prelude.{◌≡◌, IfOk, Some};
ghost use Rattle.sl_explain_texts.specs.Explainers.{Keeps};
ghost use Rattle.sl_explain_texts.specs.Messages.{IsFilledBy};
ghost use Rattle.sl_explain_texts.specs.declared.code.FaultCode.TheVariants.{B18};

use super::Written;
use super::columns::{column_words, types_of};
use super::divisions::explain_division;
use super::names::{above, around, named};
use super::node::{Node, node_at};
use crate::keywords::{axis_keyword, pairing_keyword};
use crate::texts::tests as texts;
use sl_base_quotients::NoMemory;
use sl_check::Columns;
use sl_explain_texts::{Explainer, FaultCode, Message};
use sl_law_meaning::{Axis, ColumnType, Shape};

/// More than one split or growth in a stage.
pub fn explain_two_splits(written: &Written<'_>, at: usize) -> Explainer
    ensures { result.code ≡ Some B18 }
{
    written
        .says(&texts::TWO_SPLITS, &[written.token(at)], at)
        .helped(&texts::TWO_SPLITS_REMEDY, &[])
}

/// The form at an offset of a book.
pub fn node_in(written: &Written<'_>, at: usize) -> Result<Option<Node>, NoMemory> {
    let above = above(written.stages(), at);
    let types = types_of(written.speaker.alloc, above)?;
    match around(written.stages(), at) {
        Some(stage) => Ok(node_at(&Columns::of(above, types.as_slice()), &stage.expr, at)),
        None => Ok(None),
    }
}

/// The word for what a `sum` leaves of a column with one number or with numbers of lists.
pub fn summed(shape: Shape) -> &'static [u8] {
    let axis = match shape {
        Shape::Party => Axis::Party,
        Shape::Land => Axis::Land,
        Shape::One | Shape::List => Axis::All,
    };
    axis_keyword(axis).spelling().as_bytes()
}

/// Whether `sum` makes the second shape of the first.
pub fn sums_to(from: Shape, to: Shape) -> bool {
    match from {
        Shape::One => false,
        Shape::Party | Shape::Land => to == Shape::One,
        Shape::List => to != Shape::List,
    }
}

// A sum of a column that has nothing to add up, or that has no lists.
fn explain_sum(
    written: &Written<'_>,
    code: FaultCode,
    at: usize,
    of: ColumnType,
    over: Axis,
) -> Explainer
    ensures { result.code ≡ Some code }
{
    let words = column_words(written.speaker, of);
    if of.shape == Shape::One {
        let explainer = written.says(&(code, texts::SUM_ONE.0, texts::SUM_ONE.1), &[words], at);
        return explainer.helped(&texts::SUM_ONE_REMEDY, &[]);
    }
    let values = [axis_keyword(over).spelling().as_bytes(), words];
    written
        .says(&(code, texts::SUM_AXIS.0, texts::SUM_AXIS.1), &values, at)
        .helped(&texts::SUM_AXIS_REMEDY, &[])
}

/// A form with two arguments that do not fit.
pub fn explain_arguments(
    written: &Written<'_>,
    message: &Message,
    code: FaultCode,
    at: usize,
    form: &'static [u8],
    arguments: (ColumnType, ColumnType),
) -> Explainer
    requires { IsFilledBy message.now 3 }
    ensures { result.code ≡ Some code }
{
    let first = column_words(written.speaker, arguments.0);
    let second = column_words(written.speaker, arguments.1);
    written.says(&(code, message.0, message.1), &[form, first, second], at)
}

// What to do about the two columns of a pair, and the shape that the `sum` in it leaves.
fn pair_remedy(left: ColumnType, right: ColumnType) -> (&'static Message, Shape)
    ensures { IsFilledBy result.0.now 1 }
{
    if left.unit != right.unit {
        (&texts::PAIR_UNIT_REMEDY, Shape::One)
    } else if sums_to(left.shape, right.shape) {
        (&texts::PAIR_SUM_FIRST, right.shape)
    } else if sums_to(right.shape, left.shape) {
        (&texts::PAIR_SUM_SECOND, left.shape)
    } else {
        (&texts::PAIR_ALL, Shape::One)
    }
}

// A form whose arguments have types that do not fit.
fn explain_node(written: &Written<'_>, code: FaultCode, at: usize, node: Node) -> Explainer
    ensures { result.code ≡ Some code }
{
    match node {
        Node::Sum { of, over } => explain_sum(written, code, at, of, over),
        Node::Pair {
            pairing,
            left,
            right,
            ..
        } => {
            let form = pairing_keyword(pairing).spelling().as_bytes();
            let (remedy, shape) = pair_remedy(left, right);
            explain_arguments(written, &texts::PAIR, code, at, form, (left, right)).helped(
                remedy,
                &[summed(shape)],
            )
        }
        Node::Division(division) => explain_division(written, code, at, division),
    }
}

// Says where the stage stands that an argument names.
fn help_made(explainer: &mut Explainer, written: &Written<'_>, at: usize) -> Result<(), NoMemory>
    ensures { Keeps explainer.old explainer.new }
{
    let name = written.token(at);
    if let Some(stage) = named(written.stages(), name) {
        let line = written.line(stage.at)?;
        explainer.helps(&texts::MADE, &[name, line.as_slice()]);
    }
    Ok(())
}

/// A form of which no more is known than that its arguments do not fit.
pub fn explain_unfit(written: &Written<'_>, code: FaultCode, at: usize) -> Explainer
    ensures { result.code ≡ Some code }
{
    let sentence = (code, texts::NOT_FITTING.0, texts::NOT_FITTING.1);
    written.says(&sentence, &[written.token(at)], at)
}

/// A form whose arguments have shapes or units that do not fit, with the code of the one or of the other. Says where the stages stand that its
/// arguments name.
pub fn explain_shape(
    written: &Written<'_>,
    code: FaultCode,
    at: usize,
) -> Result<Explainer, NoMemory>
    ensures { IfOk result (λ x. x.code ≡ Some code) }
{
    let Some(node) = node_in(written, at)? else {
        return Ok(explain_unfit(written, code, at));
    };
    let mut explainer = explain_node(written, code, at, node);
    if let Some((first, second)) = node.places() {
        help_made(&mut explainer, written, first)?;
        help_made(&mut explainer, written, second)?;
    }
    Ok(explainer)
}
