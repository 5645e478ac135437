//! Runs rows: commands as they are typed, over files in memory, with what each writes to standard output and standard error and its exit status. Rows
//! are text (docs/testing.md); so are the pages of the documentation, whose commands are run as well.
//!
//! Stands on `sl_test_support`, `sl_terminal_commands` and `sl_terminal_count`; used by the room test. Nothing is proved but safety.
//!
//! Where an error is `NoMemory` alone, memory ran out, and nothing else is wrong.
#![tactic(auto)]

mod compared;
mod markdown;
mod pages;
mod rows;
mod running;
mod shelf;
mod texts;
mod unknown;

pub use markdown::show_markdown;
pub use pages::run_page;
