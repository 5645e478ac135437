//! A count, as a value.

use crate::outcome::Outcome;
use sl_check::CheckedBook;
use sl_stages::{Records, Returns};

/// A good rulebook on good returns, and what it comes to on them.
#[derive(Drop)]
pub struct Counting {
    pub book: CheckedBook,
    pub returns: Returns,
    /// Whether the table has its steps and weights.
    pub records: Records,
    pub outcome: Outcome,
}
