//! Files that are something else than a rulebook.

ghost use Rattle.std.specs.Prelude.{◌≡◌, IfSome, Some};

use crate::pieces::span_within;
use crate::texts::whole as texts;
use sl_explain_texts::{Explainer, FaultCode, Speaker, is_utf16, packing_of};

// The byte order mark of UTF-8.
const MARK: &[u8] = b"\xEF\xBB\xBF";

// The bytes after a beginning, or all of them where it is not there.
fn after<'a>(text: &'a [u8], beginning: &[u8]) -> &'a [u8] {
    if text.starts_with(beginning) {
        text.get(beginning.len()..).unwrap_or(&[])
    } else {
        text
    }
}

fn is_returns(text: &[u8]) -> bool {
    let text = after(text, MARK);
    if text.starts_with(b"\"kind") {
        return true;
    }
    let rest = after(after(text, b"kind"), b"2");
    text.starts_with(b"kind") && matches!(rest.first().copied(), Some(b',' | b';' | b'\t'))
}

/// Explains a file by what it is, if that is something else than a rulebook, with the code of the fault that was met in it.
pub fn explain_whole(speaker: Speaker, text: &[u8], code: FaultCode) -> Option<Explainer>
    ensures { IfSome result (λ x. x.code ≡ Some code) }
{
    // what it is, what to do, and how many bytes show it
    let (message, remedy, shown) = if text.is_empty() {
        (&texts::EMPTY_FILE, &texts::EMPTY_FILE_REMEDY, 0)
    } else if text.starts_with(b"SLC") {
        (&texts::CODE_FILE, &texts::CODE_FILE_REMEDY, 3)
    } else if is_returns(text) {
        (&texts::RETURNS_FILE, &texts::RETURNS_FILE_REMEDY, 4)
    } else if packing_of(text).is_some() {
        (&texts::PACKED_FILE, &texts::PACKED_FILE_REMEDY, 2)
    } else if is_utf16(text) {
        (&texts::UTF16_FILE, &texts::UTF16_FILE_REMEDY, 2)
    } else if text.starts_with(MARK) {
        (&texts::BYTE_ORDER_MARK, &texts::BYTE_ORDER_MARK_REMEDY, 3)
    } else {
        return None;
    };
    let span = span_within(text, 0, shown);
    let explainer = speaker.says_at(&(code, message.0, message.1), &[], span);
    Some(explainer.helped(remedy, &[]))
}
