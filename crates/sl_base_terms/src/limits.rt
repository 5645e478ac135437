//! The limit of stages. It stands once, for code and definitions alike (docs/limits.md).

/// Stages of a book.
pub const MAX_STAGES: usize = 32;
