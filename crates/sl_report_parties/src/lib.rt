//! What returns and a seat table say of parties, Länder and constituencies, as plain numbers: votes and winners, who takes part and what the others
//! lack, the columns of facts, seats, the ranks of constituency winners, an earlier seat table, and the parties of a press report.
//!
//! Stands on `sl_stages`; used by the room report. Proved: each number is that of its definition.
//!
//! Where an error is `NoMemory` alone, memory ran out, and nothing else is wrong.
#![tactic(auto)]

mod contests;
mod earlier;
mod facts;
mod lacking;
mod parts;
mod press;
mod seats;
mod totals;
mod votes;
mod winner_counts;
mod winners;

pub use contests::{Ranked, contested};
pub use earlier::{EarlierParty, all_before, gone, seats_before};
pub use facts::{Setting, house_of};
pub use lacking::{lacking_votes, lacking_winners};
pub use parts::{PartyPart, parts_of};
pub use press::{Pressed, Standing, by_seats, left_out};
pub use seats::{Seats, seats_by_party, seats_in_all, seats_without_party};
pub use totals::{all_lists, all_people, lists_of, open_winners};
pub use votes::{Votes, all_votes, first_votes_in, land_votes, one_if, winners_of};
pub use winner_counts::WinnerCounts;
