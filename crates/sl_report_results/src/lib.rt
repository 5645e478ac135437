//! What a count says of its stages, as plain numbers: the columns of expressions, and the scopes of splits and growths with their entries, divisors or
//! quotas, and margins.
//!
//! Stands on `sl_report_parties` and `sl_law_margins`; used by the room report. Proved: each number is that of its definition.
//!
//! Where an error is `NoMemory` alone, memory ran out, and nothing else is wrong.
#![tactic(auto)]

mod columns;
mod distributed;
mod drawing;
mod fraction;
mod lots;
mod margins;
mod places;
mod scopes;

pub use columns::sum_of;
pub use distributed::stage_scopes;
pub use fraction::Fraction;
pub use places::{entries_of, number_of};
pub use scopes::{Entry, Scoped};
pub use sl_stages::{Column, Counted};
