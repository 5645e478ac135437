//! The command line of the program: its words, what they ask for, and the help.
//!
//! Stands on `sl_report_forms` and `sl_laws`; used by the room terminal. Proved: which request the words ask for (specs/Answers.antt); and why they are
//! refused, or shown a text, where they begin with a command none of whose options is tied to another. Only tested: the texts.
//!
//! Where an error is `NoMemory` alone, memory ran out, and nothing else is wrong.
#![tactic(auto)]

mod answers;
mod command_line;
mod given;
mod help;
mod hints;
mod options;
mod page;
mod refusals;
mod reports;
mod requests;
mod statuses;
mod system;
mod texts;
mod words;

pub use answers::{Answer, out_of_memory};
pub use command_line::{Asked, Request, Show, request_of};
pub use options::Options;
pub use reports::Report;
pub use system::reason_in;
