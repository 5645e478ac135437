//! Quotients as ratios of whole numbers, the methods of apportionment, entries with their quotients, the limits that several layers share, the spelling
//! of names, and the refusal of every call that allocates.
//!
//! Stands on no other crate; used by the rooms base, book and explain. Proved: the order is that of quotients, and each method is a divisor method.
#![tactic(auto)]

mod entry;
mod limits;
mod method;
mod no_memory;
mod ratio;
mod signpost;
mod spelling;

pub use entry::Entry;
pub use limits::{MAX_LANDS, MAX_NUMBER, MAX_PARTIES, MAX_SEATS, MAX_VOTES, MAX_WEIGHT};
pub use method::{DIVISORS, Divisor, Method};
pub use no_memory::NoMemory;
pub use ratio::{MAX_DENOMINATOR, MAX_NUMERATOR, Ratio};
pub use signpost::{Adams, Dean, Hill, Jefferson, Signpost, Webster};
pub use spelling::{MAX_NAME_BYTES, NameFault, spelling_fault};
