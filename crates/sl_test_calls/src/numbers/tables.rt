//! Priority tables, step by step.

use crate::numbers::quotients::{Quotient, entry};
use sl_base_quotients::Entry;
use sl_prio::Prio;
use std::alloc::{AllocError, Global};

/// A quotient and an index.
pub type Told = (Quotient, u32);

/// A call of a table, and what it is to answer.
pub enum Step {
    /// Puts an entry of a quotient and an index, after which there are so many.
    Put(Quotient, u32, usize),
    /// The same of each index below a number.
    Fill(Quotient, u32, usize),
    Take(Option<Told>),
    Lot(&'static [u32], Option<Told>),
    Top(Option<Told>),
    Member(usize, Option<Told>),
    Covers(&'static [u32], bool),
    /// A lot of more indexes than may have a mark, the greatest first: what it draws, and whether it covers the table.
    LongLot(Option<Told>),
    LongCovers(bool),
    /// How many peers there are, of how many entries.
    Peers(usize, usize),
}

// Whether an entry is the one that is wanted.
fn is_entry(found: Option<Entry>, wanted: Option<Told>) -> bool {
    match (found, wanted) {
        (Some(found), Some((quotient, index))) => found == entry(quotient, index),
        (None, None) => true,
        _ => false,
    }
}

// Puts entries of a quotient with each index below a number.
fn fill(table: &mut Prio, quotient: Quotient, end: u32) -> bool {
    for index in 0..end {
        if table.put(entry(quotient, index)).is_err() {
            return false;
        }
    }
    true
}

// Whether a call answers as wanted.
fn is_as_wanted(table: &mut Prio, long: &[u32], step: &Step) -> bool {
    match step {
        Step::Put(quotient, index, length) => {
            table.put(entry(*quotient, *index)).is_ok() && table.len() == *length
        }
        Step::Fill(quotient, end, length) => {
            fill(table, *quotient, *end) && table.len() == *length
        }
        Step::Take(wanted) => is_entry(table.take(), *wanted),
        Step::Lot(lot, wanted) => is_entry(table.take_lot(lot), *wanted),
        Step::LongLot(wanted) => is_entry(table.take_lot(long), *wanted),
        Step::Top(wanted) => is_entry(table.top(), *wanted),
        Step::Member(place, wanted) => is_entry(table.member(*place), *wanted),
        Step::Covers(lot, wanted) => table.covers(lot) == *wanted,
        Step::LongCovers(wanted) => table.covers(long) == *wanted,
        Step::Peers(peers, length) => table.peers() == *peers && table.len() == *length,
    }
}

/// The first of the steps, made of a table that is cleared before, that does not answer so.
pub(crate) fn first_wrong(table: &mut Prio, long: &[u32], steps: &[Step]) -> Option<usize> {
    table.clear();
    for (call, step) in steps.iter().enumerate() {
        if !is_as_wanted(table, long, step) {
            return Some(call);
        }
    }
    None
}

/// The long lot: one index more than may have a mark.
///
/// # Errors
///
/// Out of memory.
pub(crate) fn long_lot(alloc: Global) -> Result<Vec<u32>, AllocError> {
    let mut lot = Vec::new(alloc);
    for index in (0..16_385).rev() {
        lot.push(index)?;
    }
    Ok(lot)
}
