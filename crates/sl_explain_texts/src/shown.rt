//! Bytes of an input as they are shown to a person.

ghost use Rattle.std.specs.Char.{encode_utf8};
ghost use Rattle.std.specs.Prelude.{◌≡◌, ◌≤◌, ◌++◌, OnOk, count_by, length, map};
ghost use Rattle.std.specs.Str.{chars, encode_utf8_all, is_utf8};
ghost use Rattle.sl_explain_texts.specs.Lines.{shown_count};
ghost use Rattle.sl_explain_texts.specs.Shown.{begins_character, character_of, is_control, repeated, repeated_bytes, shown, shown_character, turns_text};

use crate::parts::{begins_character, first_character, from, until};
use sl_base_quotients::NoMemory;

// What stands for a character that is not shown.
const REPLACED: char = '\u{FFFD}';

// How many bytes of an input a sentence repeats, up to the next character.
const REPEATED: usize = 40;

// Whether a character turns the direction of what stands after it.
fn turns_text(character: char) -> bool
    ensures { result ≡ turns_text character }
{
    matches!(
        character,
        '\u{061C}' | '\u{200E}' | '\u{200F}' | '\u{202A}'..='\u{202E}' | '\u{2066}'..='\u{2069}'
    )
}

// Whether a character is a control character.
fn is_control(character: char) -> bool
    ensures { result ≡ is_control character }
{
    matches!(character, '\0'..='\u{1F}' | '\u{7F}'..='\u{9F}')
}

// A character as it is shown.
fn shown(character: char) -> char
    ensures { result ≡ shown_character character }
{
    if character == '\t' {
        ' '
    } else if is_control(character) || turns_text(character) {
        REPLACED
    } else {
        character
    }
}

// Adds a character as it is shown.
fn push_character(text: &mut Vec<u8>, character: char) -> Result<(), NoMemory>
    ensures { OnOk result (text.new.items ≡ text.old.items ++ encode_utf8 (shown_character character)) }
{
    let mut buffer = [0; 4];
    let encoded = shown(character).encode_utf8(&mut buffer);
    text.extend_from_slice(encoded.as_bytes())?;
    Ok(())
}

// The character that is shown for a byte of a text that is not UTF-8.
fn character_of(byte: u8) -> char
    ensures { result ≡ character_of byte }
{
    if byte < 0x80 { byte as char } else { '?' }
}

// Adds the characters of a text as they are shown.
fn push_characters(text: &mut Vec<u8>, characters: &str) -> Result<(), NoMemory>
    ensures { OnOk result (text.new.items ≡ text.old.items ++ encode_utf8_all (map shown_character (chars characters.now))) }
{
    for character in characters.chars() {
        push_character(text, character)?;
    }
    Ok(())
}

// Adds bytes that are no text as they are shown, a character for each.
fn push_bytes(text: &mut Vec<u8>, bytes: &[u8]) -> Result<(), NoMemory>
    ensures { OnOk result (text.new.items ≡ text.old.items ++ encode_utf8_all (map shown_character (map character_of bytes.now))) }
{
    for byte in bytes {
        push_character(text, character_of(*byte))?;
    }
    Ok(())
}

/// Adds bytes of an input as they are shown: a tab is a blank, and U+FFFD stands for any other control character and for what turns the direction
/// of a text, so that a terminal shows what is there and does nothing else. In bytes that are not UTF-8, `?` stands for each above ASCII.
pub fn push_shown(text: &mut Vec<u8>, bytes: &[u8]) -> Result<(), NoMemory>
    ensures { OnOk result (text.new.items ≡ text.old.items ++ shown bytes.now) }
{
    match std::str::from_utf8(bytes) {
        Ok(characters) => push_characters(text, characters),
        Err(_) => push_bytes(text, bytes),
    }
}

// The bytes of a text that a sentence repeats.
fn repeated(text: &[u8]) -> &[u8]
    ensures { result.now ≡ repeated_bytes text.now }
{
    let more = first_character(from(text, REPEATED));
    until(text, REPEATED.saturating_add(more))
}

/// Adds bytes of an input as a sentence repeats them: the first of them, as they are shown, and dots where there are more.
pub(crate) fn push_repeated(text: &mut Vec<u8>, bytes: &[u8]) -> Result<(), NoMemory>
    ensures { OnOk result (text.new.items ≡ text.old.items ++ repeated bytes.now) }
{
    let repeated = repeated(bytes);
    push_shown(text, repeated)?;
    if repeated.len() < bytes.len() {
        text.extend_from_slice(b"...")?;
    }
    Ok(())
}

// Whether bytes are UTF-8.
fn is_text(bytes: &[u8]) -> bool
    ensures { result ≡ is_utf8 bytes.now }
{
    std::str::from_utf8(bytes).is_ok()
}

// How many characters begin in some bytes.
fn characters_in(bytes: &[u8]) -> usize
    ensures { result ≡ count_by begins_character bytes.now }
{
    bytes.iter().filter(|byte| begins_character(**byte)).count()
}

/// How many characters are shown of a part of a line.
pub(crate) fn shown_count(line: &[u8], part: &[u8]) -> usize
    ensures count { result ≡ shown_count line.now part.now }
    ensures most { result ≤ length part.now }
{
    if is_text(line) {
        characters_in(part)
    } else {
        part.len()
    }
}
