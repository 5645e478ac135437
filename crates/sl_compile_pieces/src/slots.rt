//! The slots of a compiled rulebook, for code and definitions alike (docs/compiler.md, section 3).

use sl_law_meaning::{FACTS, MAX_DEPTH};

/// The eligible parties.
pub const ELIGIBLE: u8 = 0;
/// The first fact. The others follow in the order of their numbers.
pub const FIRST_FACT: u8 = ELIGIBLE + 1;
/// Valid votes by list, to work in.
pub const VOTES: u8 = FIRST_FACT + FACTS.len() as u8;
/// Numbers by party, to work in.
pub const NUMBERS: u8 = VOTES + 1;
/// The numbers of the lists in a covering.
pub const PAIR_NUMBERS: u8 = NUMBERS + 1;
/// The names left on the lists.
pub const NAMES_LEFT: u8 = PAIR_NUMBERS + 1;
/// The vacant seats of the lists.
pub const VACANT_SEATS: u8 = NAMES_LEFT + 1;
/// The first scratch column.
pub const FIRST_PASSING_SLOT: u8 = VACANT_SEATS + 1;
/// Levels of scratch columns: a split or a growth needs one more than the expression has.
pub const LEVELS: u8 = MAX_DEPTH as u8 + 1;
/// The column of the first stage, after a scratch column of each shape for each level.
pub const FIRST_STAGE_SLOT: u8 = FIRST_PASSING_SLOT + 4 * LEVELS;
