//! The budget of a run.

/// The steps that a stage may take for each seat or winner, of each list.
pub const STEPS_EACH: u64 = 400;
