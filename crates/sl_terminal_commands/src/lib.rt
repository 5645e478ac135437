//! The commands over what lies outside: from the words of a command line to a reply, a value that has the exit status, the texts for standard output and
//! standard error and the file that is made; and the program, which writes a reply in one place.
//!
//! Stands on `sl_report_commands`, `sl_explain_codes`, `sl_terminal_outside` and `sl_terminal_words`; used by the rooms terminal, page and test.
//! Proved: what a request answers, and that just this is written: its status, its text, its file, and of which fault standard error speaks.
#![tactic(auto)]

mod answered;
mod code_file;
mod commands;
mod comparing;
mod failure;
mod manner;
mod refused_books;
mod reply;
mod reports;
mod side_by_side;
mod speech;
mod statutes;
mod sums;
mod telling;
mod terminal;
mod varied;

pub use answered::Answered;
pub use reply::{Made, Reply, reply_to};
pub use sl_report_commands::{AllForms, Forms};
pub use speech::{Documented, Speech};
pub use telling::Said;
pub use terminal::{Terminal, run};
