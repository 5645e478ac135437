//! The further records that are refused, in a line each.

ghost use Rattle.sl_explain_texts.specs.Explainers.{Keeps};

use crate::case::Case;
use crate::faults::explain_record;
use crate::texts::further::{ALSO, LINE, MORE};
use sl_base_quotients::NoMemory;
use sl_explain_texts::{Explainer, Explanation, line_at};
use sl_returns::{RefusedRecord, RefusedReturns};
use sl_returns_places::RecordAtFault;

// The number of the line of which an explanation speaks.
fn line_number(case: &Case<'_>, explanation: &Explanation) -> usize {
    match explanation.span() {
        Some(span) => line_at(case.bytes, span.start).number,
        None => case.line(case.refused.fault.row),
    }
}

// The line of a record: what its own explanation says of it first.
fn record_line(case: &Case<'_>) -> Result<Vec<u8>, NoMemory> {
    let own = explain_record(case)?.finished()?;
    let number = case.speaker.number(line_number(case, &own))?;
    let values = [number.as_slice(), own.sentence()];
    case.speaker.text(&LINE, &values)
}

// Adds the lines of these records of the same text.
fn add_records(case: &Case<'_>, records: &[RefusedRecord], explainer: &mut Explainer)
    ensures { Keeps explainer.old explainer.new }
{
    for record in records {
        let here = Case {
            refused: RecordAtFault::of(record),
            ..*case
        };
        explainer.line(record_line(&here));
    }
}

/// Adds the further records that are refused, and how many more there are. Nothing where there are none.
pub(crate) fn add_further(case: &Case<'_>, refused: &RefusedReturns, explainer: &mut Explainer)
    ensures { Keeps explainer.old explainer.new }
{
    if refused.further.is_empty() {
        return;
    }
    let speaker = case.speaker;
    explainer.line(speaker.text(&ALSO, &[]));
    add_records(case, refused.further.as_slice(), explainer);
    if refused.more > 0 {
        explainer.line(speaker.text_with(&MORE, speaker.number(refused.more as usize)));
    }
}
