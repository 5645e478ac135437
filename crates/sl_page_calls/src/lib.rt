//! Each command of the program, over memory that a page or a C program hands in (docs/page.md, docs/library.md).
//!
//! Stands on `sl_terminal_commands`; nothing stands on it. Proved: what is handed over is the reply to the words, from the bytes of the files.
//!
//! Where an error is `NoMemory` alone, memory ran out, and nothing else is wrong.
#![tactic(auto)]

mod asked;
mod handed;

pub use asked::Word;
use asked::ask;
pub use handed::Handed;
use sl_terminal_commands::{AllForms, Documented};
use sl_terminal_outside::File;
use std::alloc::Global;

/// Asks for a command in the words of the command line, those behind the program's name, and puts into `handed` what the program would write for files of
/// these names, with its exit status. A name that no file has is a path where nothing lies. Where there are no variables of the environment, messages are in
/// English but for `--lang de`. Words of which one is no UTF-8 are refused.
#[unsafe(no_mangle)]
pub extern "C" fn page_ask(
    alloc: Global,
    words: &[Word<'_>],
    files: &[File<'_>],
    handed: &mut Handed,
) {
    *handed = ask(alloc, &AllForms, &Documented, words, files);
}
