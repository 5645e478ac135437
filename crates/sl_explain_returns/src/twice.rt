//! What a record before has given, and what is more than there may be.

ghost use Rattle.std.specs.Prelude.{◌≡◌, IfOk, Some};
ghost use Rattle.sl_explain_returns.specs.Places.{Explains};
ghost use Rattle.sl_explain_texts.specs.declared.code.FaultCode.TheVariants.{R08, R09, R10};
ghost use Rattle.sl_explain_texts.specs.Explainers.{Keeps};
ghost use Rattle.sl_explain_texts.specs.Messages.{IsFilledBy};

use crate::case::Case;
use crate::texts::twice as texts;
use sl_base_quotients::NoMemory;
use sl_explain_texts::{Explainer, FaultCode, Message};
use sl_returns::{A, B, Content, KIND, Kind, LAND, Named, PARTY};
use sl_stages::{MAX_LANDS, MAX_LOTS, MAX_PARTIES, MAX_WINS};

// What is said of a name.
fn name_message(named: Named) -> &'static Message
    ensures { IsFilledBy result.now 1 }
{
    match named {
        Named::Land => &texts::LAND_TWICE,
        Named::Party => &texts::PARTY_TWICE,
        Named::Constituency => &texts::WIN_TWICE,
    }
}

// An explanation, with the line of the first record that has the same cells in some columns, in a message.
fn with_first(
    case: &Case<'_>,
    explainer: Explainer,
    columns: &[usize],
    message: &Message,
) -> Result<Explainer, NoMemory>
    requires { IsFilledBy message.now 1 }
    ensures { IfOk result (Keeps explainer) }
{
    let mut explainer = explainer;
    if let Some(row) = case.row_before(columns)? {
        explainer.helps_with(message, case.speaker.number(case.line(row)));
    }
    Ok(explainer)
}

// A name that is declared a second time.
fn explain_name_twice(case: &Case<'_>, column: usize, named: Named) -> Result<Explainer, NoMemory>
    ensures { IfOk result (Explains case.now (Some R08)) }
{
    let values = [case.text(column)];
    let explainer = case.says(
        FaultCode::R08,
        name_message(named),
        &values,
        case.at(column),
    );
    with_first(case, explainer, &[KIND, column], &texts::FIRST_LINE)
}

// A house that is given a second time.
fn explain_house_twice(case: &Case<'_>) -> Result<Explainer, NoMemory>
    ensures { IfOk result (Explains case.now (Some R08)) }
{
    let explainer = case.says(FaultCode::R08, &texts::HOUSE_TWICE, &[], case.whole());
    with_first(case, explainer, &[KIND], &texts::FIRST_HOUSE)
}

// A list that is given a second time.
fn explain_list_twice(case: &Case<'_>) -> Result<Explainer, NoMemory>
    ensures { IfOk result (Explains case.now (Some R08)) }
{
    let values = [case.text(PARTY), case.text(LAND)];
    let explainer = case.says(FaultCode::R08, &texts::LIST_TWICE, &values, case.whole());
    let explainer = with_first(case, explainer, &[KIND, LAND, PARTY], &texts::FIRST_LINE)?;
    Ok(explainer.helped(&texts::ONE_RECORD_EACH, &[]))
}

// A lot that is given a second time.
fn explain_lot_twice(case: &Case<'_>) -> Result<Explainer, NoMemory>
    ensures { IfOk result (Explains case.now (Some R08)) }
{
    let explainer = case.says(FaultCode::R08, &texts::LOT_TWICE, &[], case.whole());
    with_first(
        case,
        explainer,
        &[KIND, LAND, PARTY, A, B],
        &texts::FIRST_LINE,
    )
}

// A record that is given a second time.
fn explain_record_twice(case: &Case<'_>) -> Result<Explainer, NoMemory>
    ensures { IfOk result (Explains case.now (Some R08)) }
{
    match case.kind() {
        Some(Kind::List) => explain_list_twice(case),
        Some(Kind::Lot) => explain_lot_twice(case),
        Some(Kind::House | Kind::Land | Kind::Party | Kind::Win) | None => {
            explain_house_twice(case)
        }
    }
}

/// The explanation of what is given a second time: the name of a column, or the record.
pub(crate) fn explain_twice(case: &Case<'_>, column: Option<usize>) -> Result<Explainer, NoMemory>
    ensures { IfOk result (Explains case.now (Some R08)) }
{
    let Some(column) = column else {
        return explain_record_twice(case);
    };
    match case.content(column) {
        Some(Content::NewName(named)) => explain_name_twice(case, column, named),
        Some(_) | None => explain_record_twice(case),
    }
}

/// The explanation of more counted votes than valid ones.
pub(crate) fn explain_counted(case: &Case<'_>) -> Explainer
    ensures { Explains case.now (Some R09) result }
{
    let values = [case.text(B), case.text(A)];
    let span = case.between(A, B);
    case.says(FaultCode::R09, &texts::MORE_COUNTED, &values, span)
        .helped(&texts::EXCHANGE_COUNTED, &[])
}

// What is said of one record more than there may be, what to do, how many there are, and how many there may be.
fn limit_of(case: &Case<'_>) -> (&'static Message, &'static Message, usize, usize)
    ensures { IsFilledBy result.0.now 2 × IsFilledBy result.1.now 0 }
{
    let before = case.refused.before;
    match case.kind() {
        Some(Kind::Land) => (&texts::LANDS, &texts::FEWER, before.lands, MAX_LANDS),
        Some(Kind::Party) => (&texts::PARTIES, &texts::FEWER, before.parties, MAX_PARTIES),
        Some(Kind::Win) => (&texts::WINS, &texts::FEWER, before.wins, MAX_WINS),
        Some(Kind::House | Kind::List | Kind::Lot) | None => {
            (&texts::LOTS, &texts::FEWER_LOTS, before.lots, MAX_LOTS)
        }
    }
}

/// The explanation of more records of a kind than there may be.
pub(crate) fn explain_too_many(case: &Case<'_>) -> Result<Explainer, NoMemory>
    ensures { IfOk result (Explains case.now (Some R10)) }
{
    let (sentence, remedy, before, greatest) = limit_of(case);
    let number = case.speaker.number(before.saturating_add(1))?;
    let greatest = case.speaker.number(greatest)?;
    let values = [number.as_slice(), greatest.as_slice()];
    let explainer = case.says(FaultCode::R10, sentence, &values, case.whole());
    Ok(explainer.helped(remedy, &[]))
}
