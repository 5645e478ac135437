//! The limits that several layers share. Each stands once, for code and definitions alike (docs/limits.md).

/// The greatest number of a rulebook.
pub const MAX_NUMBER: u32 = 999_999_999;

/// The greatest number of seats of a house, of a scope and of a cap, and so of an entry.
pub const MAX_SEATS: u32 = 4000;

/// Parties of a returns file.
pub const MAX_PARTIES: usize = 256;

/// Länder of a returns file.
pub const MAX_LANDS: usize = 64;

/// Votes of a list, first votes of a constituency, people of a Land.
pub const MAX_VOTES: u32 = 100_000_000;

/// The greatest weight of an entry, in votes or persons: the votes of all lists.
pub const MAX_WEIGHT: u64 = MAX_VOTES as u64 * (MAX_PARTIES * MAX_LANDS) as u64;
