//! The limits of inputs (docs/limits.md).

/// Bytes of a rulebook.
pub const MAX_BOOK_BYTES: usize = 65_536;

/// Bytes of a code file.
pub const MAX_CODE_BYTES: usize = 4_194_304;

/// Bytes of returns.
pub const MAX_RETURNS_BYTES: usize = 4_194_304;
