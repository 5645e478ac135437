//! The calls that count: from a rulebook and returns, as readers of bytes, to the text of a table, of a column or of a legal fault. Each judges and
//! counts once: what the two come to is one value, which of them is refused and why, or the count of the one on the other. One call makes it of bytes,
//! one of readers, and the text is a view of it.
//!
//! Stands on `sl_count_inputs`, `sl_compile`, `sl_machine` and `sl_table`; used by the rooms count, report and terminal. Proved: the value is the
//! outcome which the rulebook means on the returns, or the first refusal, and the text that is written is that of the value.
//!
//! Where an error is `NoMemory` alone, memory ran out, and nothing else is wrong.
#![tactic(auto)]

mod answer;
mod calls;
mod columns;
mod counting;
mod judged;
mod outcome;
mod reading;
mod report;
mod showing;
mod texts;
mod view;

pub use answer::Answer;
pub use calls::{count, stage, steps};
pub use counting::Counting;
pub use judged::{Judged, judge};
pub use outcome::{Outcome, outcome_of};
pub use reading::{Read, judge_read};
pub use report::Report;
pub use showing::{Shown, show};
pub use sl_stages::{Column, Counted, End, Records};
pub use texts::answer_of;
pub use view::View;
