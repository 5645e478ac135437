//! What `clap` says of words that it refuses, in both languages.
//!
//! An error of `clap` gives its kind and its English text, and no values. So the English text of a message is the pattern by which its values are
//! read, and its German text takes them in the same order.

use crate::texts::refusals::{
    INVALID_VALUE, MISSING_ARGUMENTS, MISSING_VALUE, MISSING_VALUE_OF_THESE, NO_SUBCOMMAND,
    OTHER_REFUSAL, PASSED_AS_VALUE, REFUSAL, REPEATED_ARGUMENT, SIMILAR_ARGUMENT,
    SIMILAR_SUBCOMMAND, SIMILAR_SUBCOMMANDS, SIMILAR_VALUE, TIP, UNEXPECTED_ARGUMENT,
    UNEXPECTED_VALUE, UNKNOWN_SUBCOMMAND, UNLIKE_ARGUMENT, UNLIKE_ARGUMENTS,
};
use sl_base_quotients::NoMemory;
use sl_explain_texts::{Message, Speaker, append};
use std::alloc::{AllocError, Global};

// The sentences.
const SENTENCES: [Message; 12] = [
    NO_SUBCOMMAND,
    UNKNOWN_SUBCOMMAND,
    MISSING_ARGUMENTS,
    UNEXPECTED_ARGUMENT,
    UNEXPECTED_VALUE,
    MISSING_VALUE_OF_THESE,
    MISSING_VALUE,
    INVALID_VALUE,
    REPEATED_ARGUMENT,
    UNLIKE_ARGUMENT,
    UNLIKE_ARGUMENTS,
    OTHER_REFUSAL,
];

// What it would try.
const TIPS: [Message; 5] = [
    SIMILAR_SUBCOMMAND,
    SIMILAR_SUBCOMMANDS,
    SIMILAR_ARGUMENT,
    SIMILAR_VALUE,
    PASSED_AS_VALUE,
];

/// A refusal by its sentence, by its tips with an empty line before them, and by its usage.
pub(crate) fn refusal(
    speaker: Speaker,
    sentence: &[u8],
    tips: &[u8],
    usage: &[u8],
) -> Result<Vec<u8>, NoMemory> {
    speaker.text(&REFUSAL, &[sentence, tips, usage])
}

// What a pattern has before its first hole, between its holes, and behind the last.
fn parts_of<'a>(alloc: Global, pattern: &'a str) -> Result<Vec<&'a str>, AllocError> {
    let mut parts = Vec::new(alloc);
    for piece in pattern.split('{') {
        parts.push(piece.split_once('}').map_or(piece, |(_, behind)| behind))?;
    }
    Ok(parts)
}

// The values that a text has in the holes of a pattern, if it has the form of the pattern.
fn values_in<'a>(
    alloc: Global,
    pattern: &str,
    text: &'a str,
) -> Result<Option<Vec<&'a [u8]>>, AllocError> {
    let parts = parts_of(alloc, pattern)?;
    let [first, between @ .., last] = parts.as_slice() else {
        return Ok(None);
    };
    let inner = text
        .strip_prefix(first)
        .and_then(|rest| rest.strip_suffix(last));
    let Some(mut rest) = inner else {
        return Ok(None);
    };
    let mut values = Vec::new(alloc);
    for part in between {
        let Some((value, behind)) = rest.split_once(part) else {
            return Ok(None);
        };
        values.push(value.as_bytes())?;
        rest = behind;
    }
    values.push(rest.as_bytes())?;
    Ok(Some(values))
}

// An English text in a language, by the first message whose form it has; nothing where it has none.
fn translated(
    speaker: Speaker,
    messages: &[Message],
    text: &str,
) -> Result<Option<Vec<u8>>, NoMemory> {
    for message in messages {
        if let Some(values) = values_in(speaker.alloc, message.0, text)? {
            return Ok(Some(speaker.filled(message, values.as_slice())?));
        }
    }
    Ok(None)
}

/// The sentence of a refusal of `clap` in another language.
pub(crate) fn sentence_in(speaker: Speaker, sentence: &str) -> Result<Vec<u8>, NoMemory> {
    Ok(translated(speaker, &SENTENCES, sentence)?.unwrap_or(Vec::new(speaker.alloc)))
}

// Adds the tip in a line of the text of a refusal of `clap`, if it has one: with an empty line before the first.
fn push_tip(tips: &mut Vec<u8>, speaker: Speaker, line: &str) -> Result<(), NoMemory> {
    let tip = line.strip_prefix("  tip: ").unwrap_or("");
    let Some(tip) = translated(speaker, &TIPS, tip)? else {
        return Ok(());
    };
    if tips.is_empty() {
        append(tips, &[b"\n"])?;
    }
    let line = speaker.text(&TIP, &[tip.as_slice()])?;
    append(tips, &[line.as_slice()])
}

/// The tips in the text of a refusal of `clap` in another language, each in a line, with an empty line before them if there are any.
pub(crate) fn tips_in(speaker: Speaker, text: &str) -> Result<Vec<u8>, NoMemory> {
    let mut tips = Vec::new(speaker.alloc);
    for line in text.split('\n') {
        push_tip(&mut tips, speaker, line)?;
    }
    Ok(tips)
}
