//! What tests assert of cases.

use std::process::Abort;

/// Asserts that no case is wrong, where a test gives the place of the first that is.
pub fn assert_none(rt: &impl Abort, wrong: Option<usize>) {
    assert_eq!(rt; wrong, None);
}
