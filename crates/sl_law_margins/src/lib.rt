//! The margins of an allocation by a divisor method without minima: the votes that an entry lacks for one more seat, who won the last seat and who
//! has the next claim, a divisor in few digits, and quotients in decimals.
//!
//! Stands on `sl_law_fairness` and `sl_ratio`; used by the rooms law, report and test. Proved: each number is the least, the first or the shortest of
//! its kind.
//!
//! Where an error is `NoMemory` alone, memory ran out, and nothing else is wrong.
#![tactic(auto)]

mod claims;
mod decimal;
mod divisors;
pub mod laws;
mod limits;
mod minima;
mod spare;
mod swings;
mod votes;

pub use claims::{is_allocation, last_seats, next_claims};
pub use decimal::{Decimal, MAX_PLACES, cut};
pub use divisors::divisor;
pub use limits::are_within;
pub use minima::is_allocation_with_minima;
pub use spare::votes_to_spare;
pub use swings::{is_swing_within, swing};
pub use votes::{votes_missing, votes_missing_by, votes_missing_with_minima};
