//! The tables of reports, and what the commands that report answer: sheets of one count, of the totals of returns with their warnings, of all stages,
//! and of several rulebooks side by side; the names of returns; and answers, which are sheets in one of five forms with a status.
//!
//! Stands on `sl_count_inputs`, `sl_report_warnings`, `sl_report_forms`, `sl_report_results` and `sl_explain_faults`; used by the room report. Proved:
//! the status of an answer, which tables it has, what stands in the cells of each, and the short names.
//!
//! Where an error is `NoMemory` alone, memory ran out, and nothing else is wrong.
#![tactic(auto)]

mod answer;
mod cases;
mod changes;
mod compare;
mod comparison;
mod counted;
mod counts;
mod covering;
mod earlier;
mod faults;
mod full_names;
mod lists_compared;
mod local;
mod lowest;
mod naming;
mod parties;
mod press;
mod rows;
mod scopes;
mod seated;
mod stages;
mod steps;
mod sums;
mod texts;
mod totals;
mod warnings;
mod words;

pub use answer::Answer;
pub use cases::{MAX_BEFORE_BYTES, MAX_NAMES_BYTES, earlier_in, names_in, names_of};
pub use compare::Judged;
pub use comparison::comparison_answer;
pub use counts::{Show, count_answer};
pub use full_names::FullNames;
pub use sl_report_parties::EarlierParty;
pub use sums::totals_answer;
pub use words::{method_of, method_word};
