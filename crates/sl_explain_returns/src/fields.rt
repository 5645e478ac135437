//! Records with too many or too few cells, and cells that are filled or empty against their kind.

ghost use Rattle.std.specs.Prelude.{◌≡◌, IfOk, IfSome, Some, true};
ghost use Rattle.sl_explain_returns.specs.Places.{Explains, begins_cell};
ghost use Rattle.sl_explain_texts.specs.Messages.{IsFilledBy};
ghost use Rattle.sl_explain_texts.specs.declared.code.FaultCode.TheVariants.{R02};

use crate::case::Case;
use crate::digits::are_digits;
use crate::texts::fields as texts;
use sl_base_quotients::NoMemory;
use sl_explain_texts::{Explainer, FaultCode, Message, Span};
use sl_returns::{A, B, C, COLUMNS, Content, KIND, Kind, LAND, PARTY};

/// The form of a kind.
pub(crate) fn form_of_kind(kind: Option<Kind>) -> &'static Message
    ensures { IsFilledBy result.now 0 }
{
    match kind {
        Some(Kind::House) => &texts::HOUSE_FORM,
        Some(Kind::Land) => &texts::LAND_FORM,
        Some(Kind::Party) => &texts::PARTY_FORM,
        Some(Kind::List) => &texts::LIST_FORM,
        Some(Kind::Win) => &texts::WIN_FORM,
        Some(Kind::Lot) => &texts::LOT_FORMS,
        None => &texts::NO_FORM,
    }
}

// Whether a cell is filled that would be empty if the record had one comma too many at its end.
fn is_filled_after(case: &Case<'_>) -> bool {
    match case.kind() {
        Some(Kind::List) => !case.text(C).is_empty(),
        Some(Kind::Win | Kind::Lot) => false,
        Some(Kind::House | Kind::Land | Kind::Party) | None => !case.text(B).is_empty(),
    }
}

// Whether the record has a comma too many at its end.
fn is_trailing(case: &Case<'_>) -> bool {
    case.cells() == 7 && case.text(COLUMNS).is_empty() && !is_filled_after(case)
}

// Whether a cell is what a decimal comma splits off: one or two digits, or digits before an exponent.
fn are_decimals(cell: &[u8]) -> bool {
    let digits = cell.iter().take_while(|byte| byte.is_ascii_digit()).count();
    match cell.get(digits) {
        Some(b'E' | b'e') => digits > 0,
        Some(_) => false,
        None => digits == 1 || digits == 2,
    }
}

// Whether a number stands in a column, and the record has so few cells more that decimal commas explain them. A `win` record has no empty cell at its
// end.
fn may_have_decimals(case: &Case<'_>, column: usize) -> bool {
    let is_number = matches!(case.content(column), Some(Content::Number(_)));
    let last = case.text(case.cells().saturating_sub(1));
    is_number && case.cells() <= 8 && (case.kind() == Some(Kind::Win) || last.is_empty())
}

// What is said of a number in a column that a comma splits in two, and what to do.
fn comma_messages(case: &Case<'_>, column: usize) -> Option<(&'static Message, &'static Message)>
    ensures { IfSome result (λ x. IsFilledBy x.0.now 1 × IsFilledBy x.1.now 0) }
{
    let (front, rest) = (case.text(column), case.text(column.saturating_add(1)));
    if front.is_empty() || !are_digits(front) {
        None
    } else if front.len() <= 3 && rest.len() == 3 && are_digits(rest) {
        Some((&texts::SPLIT, &texts::JOIN))
    } else if may_have_decimals(case, column) && are_decimals(rest) {
        Some((&texts::DECIMAL_COMMA, &texts::WHOLE_NUMBERS))
    } else {
        None
    }
}

// What is said of the first number that a comma splits in two, what to do, and the bytes spoken of.
fn split_messages(case: &Case<'_>) -> Option<(&'static Message, &'static Message, Span)>
    ensures messages { IfSome result (λ x. IsFilledBy x.0.now 1 × IsFilledBy x.1.now 0) }
    ensures place { IfSome result (λ x. begins_cell case.now.bytes.now case.now.refused.fault.row x.2.start ≡ true) }
{
    if case.cells() <= COLUMNS {
        return None;
    }
    for column in A..COLUMNS {
        if let Some((sentence, remedy)) = comma_messages(case, column) {
            return Some((sentence, remedy, case.at(column)));
        }
    }
    None
}

// Whether the record is one cell with such marks in place of commas.
fn is_separated_by(case: &Case<'_>, mark: u8) -> bool {
    case.cells() < 3 && case.text(KIND).contains(&mark)
}

// What is said of a wrong number of cells, what to do, and the bytes spoken of.
fn count_messages(case: &Case<'_>) -> (&'static Message, &'static Message, Span)
    ensures messages { IsFilledBy result.0.now 1 × IsFilledBy result.1.now 0 }
    ensures place { begins_cell case.now.bytes.now case.now.refused.fault.row result.2.start ≡ true }
{
    if case.text(KIND).starts_with(b"#") {
        (&texts::RECORD_COMMENT, &texts::DELETE, case.whole())
    } else if is_separated_by(case, b';') {
        (&texts::RECORD_SEMICOLONS, &texts::REPLACE, case.whole())
    } else if is_separated_by(case, b'\t') {
        (&texts::RECORD_TABS, &texts::REPLACE, case.whole())
    } else if is_separated_by(case, b'|') {
        (&texts::RECORD_PIPES, &texts::REPLACE, case.whole())
    } else if is_trailing(case) {
        (
            &texts::RECORD_TRAILING,
            &texts::SHORTEN_RECORD,
            case.at(COLUMNS),
        )
    } else if let Some(messages) = split_messages(case) {
        messages
    } else {
        (
            &texts::RECORD_CELLS,
            form_of_kind(case.kind()),
            case.whole(),
        )
    }
}

// A cell that must be empty.
fn explain_filled(case: &Case<'_>, column: usize, sentence: &Message, remedy: &Message) -> Explainer
    requires { IsFilledBy sentence.now 2 × IsFilledBy remedy.now 0 }
    ensures { Explains case.now (Some R02) result }
{
    let values = [case.name(column), case.text(KIND)];
    case.says(FaultCode::R02, sentence, &values, case.at(column))
        .helped(remedy, &[])
        .helped(form_of_kind(case.kind()), &[])
}

// What is said of a lot that names nothing, or a constituency against its stage.
fn lot_message(case: &Case<'_>) -> &'static Message
    ensures { IsFilledBy result.now 0 }
{
    if case.text(LAND).is_empty() && case.text(PARTY).is_empty() {
        &texts::NO_ENTRY
    } else if case.text(A) == b"seats".as_slice() {
        &texts::LOT_WITHOUT_WINNER
    } else {
        &texts::NO_SEATS
    }
}

// A cell that is filled or empty against its kind.
fn explain_cell(case: &Case<'_>, column: usize) -> Explainer
    ensures { Explains case.now (Some R02) result }
{
    match case.content(column) {
        Some(Content::Blank) => {
            explain_filled(case, column, &texts::FILLED, &texts::EMPTY_THE_CELL)
        }
        Some(Content::NumberOrNone(_)) => {
            explain_filled(case, column, &texts::NO_SLATE, &texts::SECOND)
        }
        Some(
            Content::Kind
            | Content::NewName(_)
            | Content::KnownName(_)
            | Content::KnownNameOrNone(_)
            | Content::StageName
            | Content::Number(_),
        )
        | None => case
            .says(FaultCode::R02, lot_message(case), &[], case.at(column))
            .helped(&texts::LOT_FORMS, &[]),
    }
}

/// The explanation of a record with the wrong number of cells, or of a cell that is filled or empty against its kind.
pub(crate) fn explain_fields(case: &Case<'_>, column: Option<usize>) -> Result<Explainer, NoMemory>
    ensures { IfOk result (Explains case.now (Some R02)) }
{
    match column {
        Some(column) => Ok(explain_cell(case, column)),
        None => {
            let (sentence, remedy, span) = count_messages(case);
            let explainer = case.says_count(FaultCode::R02, sentence, span)?;
            Ok(explainer.helped(remedy, &[]))
        }
    }
}
