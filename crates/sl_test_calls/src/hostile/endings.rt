//! How a call may end: its status, and the text that it has written.

use crate::calls::Ending;
use sl_desk::Status;

/// Bytes that a source gives, or a sink takes, at once: all, or one.
pub const STEPS: [usize; 2] = [4096, 1];

/// Whether a call ends with a status, and has written a text.
pub fn ends(ending: &Ending, text: &[u8], status: Status) -> bool {
    ending.result == Ok(status) && ending.written.as_slice() == text
}

/// The status with which a text is written.
pub fn status_of(text: &[u8]) -> Status {
    if text.starts_with(b"refused ") {
        Status::Refused
    } else if text.starts_with(b"fault ") {
        Status::Legal
    } else if text == b"out of budget\n".as_slice() {
        Status::Budget
    } else {
        Status::Done
    }
}

/// Whether a text is what was written, with its status.
pub fn has_written(ending: &Ending, text: &[u8]) -> bool {
    ends(ending, text, status_of(text))
}
