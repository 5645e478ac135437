//! Names in letters that a name may have.

use sl_base_quotients::{MAX_NAME_BYTES, NoMemory, spelling_fault};
use sl_explain_texts::append;
use std::alloc::Global;

// Whether a name may have a byte.
fn is_name_byte(byte: u8) -> bool {
    byte.is_ascii_alphanumeric() || byte == b'_' || byte == b'-'
}

// The letters for one of Latin-1, or for an umlaut of DOS, in small letters.
fn small_letters(code: u8) -> &'static [u8] {
    match code {
        0xC4 | 0xE4 | 0xC6 | 0xE6 | 0x84 | 0x8E => b"ae",
        0xD6 | 0xF6 | 0x94 | 0x99 => b"oe",
        0xDC | 0xFC | 0x81 | 0x9A => b"ue",
        0xDF => b"ss",
        0xC0..=0xC5 | 0xE0..=0xE5 => b"a",
        0xC7 | 0xE7 => b"c",
        0xC8..=0xCB | 0xE8..=0xEB => b"e",
        0xCC..=0xCF | 0xEC..=0xEF => b"i",
        0xD1 | 0xF1 => b"n",
        0xD2..=0xD6 | 0xF2..=0xF6 => b"o",
        0xD9..=0xDC | 0xF9..=0xFC => b"u",
        _ => b"",
    }
}

// Letters of Cyrillic and Greek, each of two bytes in UTF-8, and those of A to Z that they look like.
const OTHERS: &str = "АВСЕНІКМОРЅТХасеорхΑΒΕΗΙΚΜΝΟΡΤΧο";

const LIKE: &[u8] = b"ABCEHIKMOPSTXaceopxABEHIKMNOPTXo";

/// The letter of A to Z that a letter of Cyrillic or Greek looks like; nothing for any other character.
pub(crate) fn lookalike(character: &[u8]) -> &'static [u8] {
    let mut pairs = OTHERS.as_bytes().chunks(2).zip(LIKE.chunks(1));
    let pair = pairs.find(|pair| pair.0 == character);
    pair.map_or(&[], |pair| pair.1)
}

// Adds the letters for one of Latin-1: the first one great where it is, and all where the name has no small letter.
fn push_letters(name: &mut Vec<u8>, code: u8, is_great: bool) -> Result<(), NoMemory> {
    let mut is_capital = code < 0xDF;
    for letter in small_letters(code) {
        let cased = if is_great || is_capital {
            letter.to_ascii_uppercase()
        } else {
            *letter
        };
        name.push(cased)?;
        is_capital = false;
    }
    Ok(())
}

// Whether there is a small letter of ASCII.
fn has_small_letter(cell: &[u8]) -> bool {
    cell.iter().any(|byte| byte.is_ascii_lowercase())
}

// How the bytes of a cell are read: in UTF-8 or in Latin-1, and as a name of capitals or of any letters.
#[derive(Clone, Copy)]
struct Spelling {
    is_utf8: bool,
    is_great: bool,
}

// Adds a byte in letters that a name may have. In UTF-8 a letter of Latin-1 is 0xC3 and its number less 0x40, and MacOS writes an umlaut as a letter
// with two dots behind it, 0xCC 0x88.
fn push_byte(name: &mut Vec<u8>, spelling: Spelling, before: u8, byte: u8) -> Result<(), NoMemory> {
    if is_name_byte(byte) {
        append(name, &[&[byte]])
    } else if byte == b' ' || byte == b'.' || byte == b'/' {
        append(name, &[b"-"])
    } else if !spelling.is_utf8 {
        push_letters(name, byte, spelling.is_great)
    } else if before == 0xC3 {
        push_letters(name, byte.saturating_add(0x40), spelling.is_great)
    } else if before == 0xCC && byte == 0x88 {
        append(name, &[if spelling.is_great { b"E" } else { b"e" }])
    } else {
        append(name, &[lookalike(&[before, byte])])
    }
}

// The name in letters that it may have, of any length.
fn in_letters(alloc: Global, cell: &[u8]) -> Result<Vec<u8>, NoMemory> {
    let spelling = Spelling {
        is_utf8: std::str::from_utf8(cell).is_ok(),
        is_great: !has_small_letter(cell),
    };
    let mut name = Vec::new(alloc);
    let mut before = 0;
    for byte in cell {
        push_byte(&mut name, spelling, before, *byte)?;
        before = *byte;
    }
    Ok(name)
}

// Takes hyphens away from the end of a name of so many bytes at most.
fn trim_hyphens(name: &mut Vec<u8>) {
    for _ in 0..MAX_NAME_BYTES {
        if !name.as_slice().ends_with(b"-") {
            return;
        }
        name.pop();
    }
}

/// A name for that of a cell: its umlauts in two letters, `-` for a blank, at most twelve bytes.
pub(crate) fn name_for(alloc: Global, cell: &[u8]) -> Result<Option<Vec<u8>>, NoMemory> {
    let mut name = in_letters(alloc, cell.trim_ascii())?;
    name.truncate(MAX_NAME_BYTES);
    trim_hyphens(&mut name);
    if spelling_fault(name.as_slice()).is_none() {
        Ok(Some(name))
    } else {
        Ok(None)
    }
}

// The first character of some bytes.
fn first_character(bytes: &[u8]) -> &[u8] {
    for (place, byte) in bytes.iter().enumerate() {
        if place > 0 && *byte & 0xC0 != 0x80 {
            return &bytes[..place];
        }
    }
    bytes
}

/// The first character of a cell that a name may not have, or nothing.
pub(crate) fn wrong_character(cell: &[u8]) -> &[u8] {
    for (place, byte) in cell.iter().enumerate() {
        if !is_name_byte(*byte) {
            return first_character(&cell[place..]);
        }
    }
    &[]
}
