//! The commands that report, from what their inputs come to: of one count, of all stages, of several rulebooks side by side, and of the totals of returns.
//! Each input is judged once, and each book is run once.
//!
//! Stands on `sl_report_tables` and `sl_explain_calls`; used by the room terminal. Proved: the status, the line and the tables are those of what the inputs come
//! to, and the text is that of just this answer, in JSON with the digests of the inputs.
//!
//! Where an error is `NoMemory` alone, memory ran out, and nothing else is wrong.
#![tactic(auto)]

mod comparison;
mod counts;
mod forms;
mod further;
mod method;
mod sums;
mod written;

pub use comparison::{Compared, compare_judged};
pub use counts::show_judged;
pub use forms::{AllForms, Forms};
pub use further::add_refused;
pub use method::book_by;
pub use sl_explain_texts::Language;
pub use sl_report_forms::{DigestedInput, Shape, Told};
pub use sl_report_tables::{
    Answer, EarlierParty, FullNames, MAX_BEFORE_BYTES, MAX_NAMES_BYTES, Show, earlier_in,
    method_of, method_word, names_in, names_of,
};
pub use sums::{BookVerdict, ReturnsVerdict, total_judged};
pub use written::{
    Style, Texts, Written, digested_book, digested_returns, failed_text, push_digested, refusal_of,
    text_by, told_of,
};
