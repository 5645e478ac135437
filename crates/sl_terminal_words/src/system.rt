//! The reasons that the system gives for a file that cannot be opened or made, in both languages.

use crate::texts::system::{NUMBER, REASONS};
use sl_explain_texts::Language;
use std::alloc::{AllocError, Global};

// The German reason of an error of the system, by its number; nothing of an unknown one.
fn german_reason(number: &str) -> Option<&'static str> {
    let row = REASONS.iter().find(|row| row.0 == number)?;
    Some(row.1)
}

/// A reason of the system in a language, by its number. One that has no German text here is as the system gives it, but for the words before its
/// number.
pub fn reason_in(alloc: Global, language: Language, reason: &str) -> Result<String, AllocError> {
    let Some((words, rest)) = reason.split_once(NUMBER.0) else {
        return String::from_str(alloc, reason);
    };
    let number = rest.strip_suffix(")").unwrap_or(rest);
    let words = match language {
        Language::English => words,
        Language::German => german_reason(number).unwrap_or(words),
    };
    let before = language.text(&NUMBER);
    format!(in alloc; "{words}{before}{rest}")
}
