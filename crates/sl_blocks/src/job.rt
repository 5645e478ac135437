//! What a block of code is asked for.

use sl_law_meaning::Majority;

/// A split or a growth: its stage, the slots of its columns, and the majority clause.
#[derive(Clone, Copy)]
pub struct Job {
    /// The number of the stage.
    pub stage: u8,
    /// The slot of the seats to distribute.
    pub amount: u8,
    /// The slot of the votes.
    pub weights: u8,
    /// The slot of the minima, if there are any.
    pub minima: Option<u8>,
    /// The slot in which the block leaves the seats of the entries.
    pub result: u8,
    pub majority: Majority,
    /// Eight slots of each shape that a block may use as it likes: of one number, by party, by Land, by list.
    pub scratch: [[u8; 8]; 4],
}
