//! Cells that hold no number, or one out of its range.

ghost use Rattle.std.specs.Prelude.{◌≡◌, IfOk, Some};
ghost use Rattle.sl_explain_returns.specs.Places.{Explains};
ghost use Rattle.sl_explain_texts.specs.declared.code.FaultCode.TheVariants.{R05, R06};
ghost use Rattle.sl_explain_texts.specs.Explainers.{Keeps};
ghost use Rattle.sl_explain_texts.specs.Messages.{IsFilledBy};

use crate::case::Case;
use crate::digits::is_number;
use crate::fields::form_of_kind;
use crate::form::{Form, form_of, meant};
use crate::texts::names::EMPTY_CELL;
use crate::texts::numbers as texts;
use sl_base_quotients::NoMemory;
use sl_explain_texts::{Explainer, FaultCode, Message};
use sl_returns::{A, B, C, Content, Quantity};

// What a number counts, in words.
fn quantity_message(quantity: Quantity) -> &'static Message
    ensures { IsFilledBy result.now 0 }
{
    match quantity {
        Quantity::House => &texts::HOUSE,
        Quantity::Population => &texts::PEOPLE,
        Quantity::Minority => &texts::MINORITY,
        Quantity::Valid => &texts::VALID,
        Quantity::Counted => &texts::COUNTED_VOTES,
        Quantity::Slate => &texts::SLATE,
        Quantity::First => &texts::FIRST_VOTES,
        Quantity::ValidFirst => &texts::ALL_FIRST,
    }
}

// The column at fault and what its number counts, where the cell at fault holds a number.
fn quantity_at(case: &Case<'_>) -> Option<(usize, Quantity)> {
    let (column, content) = case.cell_at_fault()?;
    match content {
        Content::Number(quantity) | Content::NumberOrNone(quantity) => Some((column, quantity)),
        Content::Kind
        | Content::Blank
        | Content::NewName(_)
        | Content::KnownName(_)
        | Content::KnownNameOrNone(_)
        | Content::StageName => None,
    }
}

// What is said of a wrong number, and what to do where the digits are not plain.
fn form_messages(form: Form) -> (&'static Message, &'static Message)
    ensures { IsFilledBy result.0.now 5 × IsFilledBy result.1.now 1 }
{
    match form {
        Form::Empty => (&EMPTY_CELL, &texts::WRITE_KNOWN),
        Form::Long => (&texts::LONG_NUMBER, &texts::LOOK),
        Form::Missing => (&texts::MISSING, &texts::WRITE_KNOWN),
        Form::Edged => (&texts::EDGED, &texts::WRITE_WHOLE),
        Form::Negative => (&texts::SIGNED, &texts::NOT_BELOW),
        Form::Positive => (&texts::SIGNED, &texts::WRITE_WHOLE),
        Form::Exponent => (&texts::EXPONENT, &texts::WRITE_DIGITS),
        Form::Date => (&texts::DATE, &texts::NOT_A_DATE),
        Form::Separated => (&texts::SEPARATED, &texts::WRITE_WHOLE),
        Form::Decimal => (&texts::DECIMAL, &texts::NO_SHARES),
        Form::Percent => (&texts::PERCENT, &texts::NO_PERCENT),
        Form::Other => (&texts::OTHER_CHARACTER, &texts::WRITE_WHOLE),
    }
}

// What to do about a cell of such a form in a column, with its value, where the digits are not plain.
fn remedy_for<'a>(
    case: &'a Case<'_>,
    quantity: Quantity,
    form: Form,
    remedy: &'static Message,
) -> (&'static Message, &'a [u8])
    requires { IsFilledBy remedy.now 1 }
    ensures { IsFilledBy result.0.now 1 }
{
    match (quantity, form) {
        (Quantity::Counted, Form::Empty | Form::Missing) if is_number(case.text(A)) => {
            (&texts::WRITE_COUNTED, case.text(A))
        }
        (Quantity::Valid, Form::Empty | Form::Missing) => (&texts::WRITE_VALID, &[]),
        (Quantity::Minority, Form::Other) => (&texts::FLAG, &[]),
        _ => (remedy, &[]),
    }
}

// Adds how such cells are kept out: the format of a spreadsheet, or the form of the record where letters stand in the place of a number.
fn add_form(case: &Case<'_>, form: Form, explainer: &mut Explainer)
    ensures { Keeps explainer.old explainer.new }
{
    match form {
        Form::Exponent | Form::Separated | Form::Decimal => explainer.helps(&texts::FORMAT, &[]),
        Form::Other => explainer.helps(form_of_kind(case.kind()), &[]),
        _ => {}
    }
}

/// The explanation of a cell that is no number.
pub(crate) fn explain_number(case: &Case<'_>) -> Result<Explainer, NoMemory>
    ensures { IfOk result (Explains case.now (Some R05)) }
{
    let Some((column, quantity)) = quantity_at(case) else {
        return case.explains_row(FaultCode::R05);
    };
    let cell = case.text(column);
    let form = form_of(cell);
    let (sentence, remedy) = form_messages(form);
    let (remedy, value) = remedy_for(case, quantity, form, remedy);
    let words = case.speaker.word(quantity_message(quantity));
    let mut explainer = case.says_of_cell(FaultCode::R05, sentence, column, words, (&[], &[]));
    match meant(case.speaker.alloc, cell)? {
        Some(digits) => explainer.helps(&texts::WRITE, &[digits.as_slice()]),
        None => explainer.helps(remedy, &[value]),
    }
    add_form(case, form, &mut explainer);
    Ok(explainer)
}

// What to do with a number out of its range.
fn range_remedy(quantity: Quantity, cell: &[u8]) -> &'static Message
    ensures { IsFilledBy result.now 0 }
{
    match quantity {
        Quantity::First if cell == b"0".as_slice() => &texts::WINNER_WITHOUT_VOTES,
        Quantity::Minority => &texts::FLAG,
        Quantity::Slate => &texts::NAMES_LEFT,
        Quantity::House
        | Quantity::Population
        | Quantity::Valid
        | Quantity::Counted
        | Quantity::First
        | Quantity::ValidFirst => &texts::LOOK,
    }
}

// A winner with more first votes than there are.
fn explain_first(case: &Case<'_>) -> Explainer
    ensures { Explains case.now (Some R06) result }
{
    let values = [case.text(B), case.text(C)];
    let span = case.between(B, C);
    case.says(FaultCode::R06, &texts::MORE_FIRST, &values, span)
        .helped(&texts::EXCHANGE_FIRST, &[])
}

/// The explanation of a number out of its range: that of a cell, or a winner's first votes, which are more than there are.
pub(crate) fn explain_range(case: &Case<'_>) -> Result<Explainer, NoMemory>
    ensures { IfOk result (Explains case.now (Some R06)) }
{
    let Some((column, quantity)) = quantity_at(case) else {
        return Ok(explain_first(case));
    };
    let words = case.speaker.word(quantity_message(quantity));
    let least = case.speaker.number(quantity.least() as usize)?;
    let greatest = case.speaker.number(quantity.greatest() as usize)?;
    let range = (least.as_slice(), greatest.as_slice());
    let explainer = (&*case).says_of_cell(FaultCode::R06, &texts::RANGE, column, words, range);
    Ok(explainer.helped(range_remedy(quantity, case.text(column)), &[]))
}
