//! Files that are no returns at all.

ghost use Rattle.std.specs.Prelude.{◌≡◌, IfSome, Some};
ghost use Rattle.sl_explain_returns.specs.Places.{Explains};
ghost use Rattle.sl_explain_texts.specs.declared.code.FaultCode.TheVariants.{R01};
ghost use Rattle.sl_explain_texts.specs.Messages.{IsFilledBy};

use crate::case::Case;
use crate::texts::files as texts;
use sl_explain_texts::{Explainer, FaultCode, Message, Span, first_line, is_utf16, packing_of};

// The text after its first line.
fn after_line(text: &[u8]) -> &[u8] {
    match text.split_at_checked(first_line(text).len()) {
        Some((_, rest)) => rest.trim_ascii(),
        None => &[],
    }
}

// Whether a text is a rulebook: after comments it begins with that word.
fn is_book(bytes: &[u8]) -> bool {
    let mut rest = bytes.trim_ascii();
    for _ in 0..bytes.len() {
        if !rest.starts_with(b"#") {
            return rest.starts_with(b"rulebook");
        }
        rest = after_line(rest);
    }
    false
}

// What is said of a file that is no text, and what to do, by its first bytes.
fn file_messages(bytes: &[u8]) -> Option<(&'static Message, &'static Message)>
    ensures { IfSome result (λ x. IsFilledBy x.0.now 1 × IsFilledBy x.1.now 0) }
{
    if bytes.trim_ascii().is_empty() || bytes == b"\xEF\xBB\xBF".as_slice() {
        Some((&texts::EMPTY_FILE, &texts::EMPTIED))
    } else if packing_of(bytes) == Some("zip") {
        Some((&texts::ZIPPED, &texts::SAVE_OR_UNPACK))
    } else if packing_of(bytes).is_some() {
        Some((&texts::PACKED, &texts::UNPACK))
    } else if bytes.starts_with(b"\xD0\xCF\x11\xE0") {
        Some((&texts::WORKBOOK, &texts::SAVE))
    } else if bytes.starts_with(b"{\\rtf") {
        Some((&texts::RICH_TEXT, &texts::SAVE_PLAIN))
    } else if bytes.starts_with(b"SLC") {
        Some((&texts::CODE, &texts::RUN))
    } else if is_utf16(bytes) {
        Some((&texts::UTF16, &texts::SAVE))
    } else if bytes.iter().take(64).any(|byte| *byte == 0) {
        Some((&texts::BINARY, &texts::NO_PATH))
    } else {
        None
    }
}

// A rulebook, at its first line.
fn explain_book(case: &Case<'_>) -> Explainer
    ensures { Explains case.now (Some R01) result }
{
    let span = Span {
        start: 0,
        end: first_line(case.bytes).len(),
    };
    case.says(FaultCode::R01, &texts::BOOK, &[], span)
        .helped(&texts::ORDER, &[])
}

/// The explanation of a file that is no text of cells or has no record, if it is one.
pub(crate) fn explain_file(case: &Case<'_>) -> Option<Explainer>
    ensures { IfSome result (Explains case.now (Some R01)) }
{
    let (message, remedy) = match file_messages(case.bytes) {
        Some(messages) => messages,
        None if is_book(case.bytes) => return Some(explain_book(case)),
        None if case.refused.record.is_empty() => (&texts::EMPTY_FILE, &texts::EMPTIED),
        None => return None,
    };
    let packing = packing_of(case.bytes).unwrap_or("");
    let sentence = (FaultCode::R01, message.0, message.1);
    let explainer = case.speaker.says(&sentence, &[packing.as_bytes()]);
    Some(explainer.helped(remedy, &[]))
}
