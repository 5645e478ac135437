//! The limits of rulebooks and returns. Each stands once, for code and definitions alike (docs/limits.md).

pub use sl_base_quotients::{MAX_LANDS, MAX_NUMBER, MAX_PARTIES, MAX_SEATS, MAX_VOTES};
pub use sl_base_terms::MAX_STAGES;

/// Levels of a stage's expression, the whole being the first.
pub const MAX_DEPTH: u32 = 16;

/// Expressions of a stage, each sub-expression counted.
pub const MAX_PARTS: u32 = 64;

/// The greatest `d` of `n per d`.
pub const MAX_PER: u32 = 1000;

/// Constituency winners of a returns file.
pub const MAX_WINS: usize = 2000;

/// Lots of a returns file.
pub const MAX_LOTS: usize = 4000;

/// Names left on a list.
pub const MAX_SLATE: u32 = 4000;
