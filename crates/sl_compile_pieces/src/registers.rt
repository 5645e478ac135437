//! The registers of the plans of a rulebook, for code and definitions alike: those of blocks, of which each has one use, and, from
//! `OWN` on, those of columns and facts besides `TOTAL`. The last register is that of all plans, `sl_compile_plans::ONES`.

/// The seats of the scope.
pub const AMOUNT: u8 = 0;
/// The sum of its weights; elsewhere, any sum.
pub const TOTAL: u8 = 1;
/// The sum of its minima.
pub const NEEDED: u8 = 2;
/// The seats still to give.
pub const LEFT: u8 = 3;
/// The seats still to give when the first of them was to be awarded.
pub const ALL_LEFT: u8 = 4;
/// The weight of an entry.
pub const WEIGHT: u8 = 5;
/// The seats that an entry has before any is awarded.
pub const BASE: u8 = 6;
/// The seats that an entry holds.
pub const HELD: u8 = 7;
/// The number of a seat.
pub const NUMBER: u8 = 8;
/// The turns still to make.
pub const TURNS: u8 = 9;
/// The peers of the table.
pub const PEERS: u8 = 10;
/// The peers of a batch that have not got their seat.
pub const IN_BATCH: u8 = 11;
/// The step of the seats of a batch; before seats are awarded, the remainder of an entry.
pub const STEP: u8 = 12;
/// For scratch numbers.
pub const FIRST_PASSING: u8 = 13;
/// For a second such number.
pub const SECOND_PASSING: u8 = 14;
/// The votes of a party.
pub const OWN: u8 = 2;
/// A cell of a column.
pub const CELL: u8 = 5;
/// Another cell, or a number beside it.
pub const OTHER: u8 = 6;
