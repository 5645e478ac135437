//! Texts in lines for a terminal.

use sl_base_quotients::NoMemory;
use std::alloc::Global;

// The most characters of a line, where its words allow it.
const WIDTH: usize = 79;

/// A text in lines for a terminal, each further one behind an indent, which stands before the first one already.
pub(crate) fn wrapped(alloc: Global, text: &str, indent: &str) -> Result<Vec<u8>, NoMemory> {
    let mut lines = Vec::new(alloc);
    let mut width = 0usize;
    for word in text.split(' ') {
        let length = word.chars().count();
        if width > 0 && width.saturating_add(length) > WIDTH.saturating_sub(indent.len()) {
            lines.extend_from_slice(b"\n")?;
            lines.extend_from_slice(indent.as_bytes())?;
            width = 0;
        } else if width > 0 {
            lines.extend_from_slice(b" ")?;
        }
        lines.extend_from_slice(word.as_bytes())?;
        width = width.saturating_add(length).saturating_add(1);
    }
    Ok(lines)
}
