//! Lists of names, the bounds of an allocation, whole parts with remainders, and the laws of quotients; hands on what they stand on.
//!
//! Stands on `sl_base_quotients`; used by the rooms law, returns and count. Proved: a list of names has each once, and the bounds are those of the
//! definition.
#![tactic(auto)]

mod bound;
pub mod laws;
mod names;
mod remainder;

pub use bound::bounds;
pub use names::Names;
pub use remainder::hare;
pub use sl_base_quotients::{
    Adams, DIVISORS, Dean, Divisor, Entry, Hill, Jefferson, MAX_DENOMINATOR, MAX_LANDS,
    MAX_NAME_BYTES, MAX_NUMBER, MAX_NUMERATOR, MAX_PARTIES, MAX_SEATS, MAX_VOTES, MAX_WEIGHT,
    Method, NameFault, NoMemory, Ratio, Signpost, Webster, spelling_fault,
};
