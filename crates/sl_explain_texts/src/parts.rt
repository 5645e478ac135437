//! Parts of texts, and texts put together from them.

ghost use Rattle.std.specs.List.{position_or_len};
ghost use Rattle.std.specs.Prelude.{◌≡◌, ◌++◌, OnOk, drop, flat_map, take};
ghost use Rattle.sl_explain_texts.specs.Lines.{first_line};
ghost use Rattle.sl_explain_texts.specs.Shown.{begins_character};

use sl_base_quotients::NoMemory;

/// Adds parts to the end of a text.
pub fn append(text: &mut Vec<u8>, parts: &[&[u8]]) -> Result<(), NoMemory>
    ensures { OnOk result (text.new.items ≡ text.old.items ++ flat_map (λ part. part.now) parts.now) }
{
    for part in parts {
        text.extend_from_slice(part)?;
    }
    Ok(())
}

/// The bytes before an offset, or all where it is after them.
pub(crate) fn until(bytes: &[u8], end: usize) -> &[u8]
    ensures { result.now ≡ take end bytes.now }
{
    bytes.get(..end).unwrap_or(bytes)
}

/// The bytes from an offset on, or none where it is after them.
pub(crate) fn from(bytes: &[u8], start: usize) -> &[u8]
    ensures { result.now ≡ drop start bytes.now }
{
    bytes.get(start..).unwrap_or(&[])
}

/// The bytes up to the first end of a line.
pub fn first_line(bytes: &[u8]) -> &[u8]
    ensures { result.now ≡ first_line bytes.now }
{
    let end = bytes
        .iter()
        .position(|byte| *byte == b'\n' || *byte == b'\r');
    until(bytes, end.unwrap_or(bytes.len()))
}

/// Whether a byte begins a character of UTF-8.
pub(crate) fn begins_character(byte: u8) -> bool
    ensures { result ≡ begins_character byte }
{
    !matches!(byte, 0x80..=0xBF)
}

/// The offset of the first byte that begins a character, or that after them all.
pub(crate) fn first_character(bytes: &[u8]) -> usize
    ensures { result ≡ position_or_len begins_character bytes.now }
{
    let place = bytes.iter().position(|byte| begins_character(*byte));
    place.unwrap_or(bytes.len())
}
