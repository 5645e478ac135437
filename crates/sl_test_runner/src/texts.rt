//! The texts of rows: `\n`, `\r`, `\t` and `\xHH` stand for bytes, and after any other `\` a letter stands for itself.

use std::alloc::AllocError;

// Where in an escape a text is: outside, after a backslash, after its `x`, or after the first digit of a byte.
#[derive(Clone, Copy)]
enum Escape {
    Outside,
    Backslash,
    Byte,
    Digit(u8),
}

// The value of a digit of base sixteen.
fn hex(digit: u8) -> u8 {
    match digit {
        b'0'..=b'9' => digit - b'0',
        b'a'..=b'f' => digit - b'a' + 10,
        b'A'..=b'F' => digit - b'A' + 10,
        _ => 0,
    }
}

// The byte that a letter after a backslash stands for.
fn escaped(letter: u8) -> u8 {
    match letter {
        b'n' => b'\n',
        b'r' => b'\r',
        b't' => b'\t',
        _ => letter,
    }
}

// Adds what a byte of a text stands for, and answers where the text is then.
fn take(bytes: &mut Vec<u8>, escape: Escape, byte: u8) -> Result<Escape, AllocError> {
    match escape {
        Escape::Outside if byte == b'\\' => return Ok(Escape::Backslash),
        Escape::Outside => bytes.push(byte)?,
        Escape::Backslash if byte == b'x' => return Ok(Escape::Byte),
        Escape::Backslash => bytes.push(escaped(byte))?,
        Escape::Byte => return Ok(Escape::Digit(hex(byte))),
        Escape::Digit(high) => bytes.push((high & 15) << 4 | hex(byte))?,
    }
    Ok(Escape::Outside)
}

/// Adds the bytes of a text with escapes, and answers whether it ends in a single backslash.
pub(crate) fn add_text(bytes: &mut Vec<u8>, text: &str) -> Result<bool, AllocError> {
    let mut escape = Escape::Outside;
    for byte in text.as_bytes() {
        escape = take(bytes, escape, *byte)?;
    }
    Ok(matches!(escape, Escape::Backslash))
}

/// Adds the line of a text with escapes: a line feed ends it, unless a single backslash does.
pub(crate) fn add_line(bytes: &mut Vec<u8>, text: &str) -> Result<(), AllocError> {
    if !add_text(bytes, text)? {
        bytes.push(b'\n')?;
    }
    Ok(())
}

// Adds a byte as a row writes it.
fn push_escaped(text: &mut String, byte: u8) -> Result<(), AllocError> {
    match byte {
        b'\\' => text.push_str("\\\\"),
        b'\r' => text.push_str("\\r"),
        b'\t' => text.push_str("\\t"),
        b' '..=b'~' => text.push(char::from(byte)),
        _ => {
            write!(text, "\\x{byte:02x}")?;
            Ok(())
        }
    }
}

// Adds a line of bytes as a row writes it: as it stands where it is text.
fn push_line(text: &mut String, line: &[u8]) -> Result<(), AllocError> {
    if let Ok(line) = std::str::from_utf8(line) {
        let is_plain = line.bytes().all(|byte| byte >= b' ' && byte != b'\\');
        if is_plain {
            return text.push_str(line);
        }
    }
    for byte in line {
        push_escaped(text, *byte)?;
    }
    Ok(())
}

/// Adds bytes as a row writes them: each line after a marker and a blank.
pub(crate) fn push_lines(text: &mut String, marker: &str, bytes: &[u8]) -> Result<(), AllocError> {
    let mut lines = bytes.split(|byte| *byte == b'\n').peekable();
    while let Some(line) = lines.next() {
        let is_last = lines.peek().is_none();
        if is_last && line.is_empty() {
            break;
        }
        text.push_str(marker)?;
        if !line.is_empty() || is_last {
            text.push_str(" ")?;
        }
        push_line(text, line)?;
        text.push_str(if is_last { "\\\n" } else { "\n" })?;
    }
    Ok(())
}
