//! The program, as it speaks of itself.

/// Its version.
pub const VERSION: &str = "1.0.0";
