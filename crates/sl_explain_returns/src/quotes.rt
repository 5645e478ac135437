//! A quote that is not closed, or only lines later.

ghost use Rattle.std.specs.Prelude.{◌≡◌, IfSome, Some, true};
ghost use Rattle.sl_explain_returns.specs.Places.{Explains, begins_cell};

use crate::case::Case;
use crate::texts::quotes::{CLOSE, OPEN};
use sl_explain_texts::{Explainer, FaultCode, Span};

// The first byte of a cell that goes on over the end of a line, where the next quote of the file stands, or where none does to the end of the text.
fn open_cell(case: &Case<'_>, column: usize) -> Option<Span>
    ensures { IfSome result (λ s. begins_cell case.now.bytes.now case.now.refused.fault.row s.start ≡ true) }
{
    let place = case.refused.place(case.bytes, column)?;
    let cell = case.bytes.get(place.start..place.end)?;
    if place.is_open || cell.contains(&b'\n') || cell.contains(&b'\r') {
        Some(Span {
            start: place.start,
            end: place.start.saturating_add(1),
        })
    } else {
        None
    }
}

/// The explanation of a record in which a quote is not closed, if there is one, about the fault of a code.
pub(crate) fn explain_quote(case: &Case<'_>, code: FaultCode) -> Option<Explainer>
    ensures { IfSome result (Explains case.now (Some code)) }
{
    for column in 0..case.cells() {
        if let Some(span) = open_cell(case, column) {
            return Some(case.says(code, &OPEN, &[], span).helped(&CLOSE, &[]));
        }
    }
    None
}
