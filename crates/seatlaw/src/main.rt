//! The program: the terminal over the system.
//!
//! Stands on `sl_terminal_commands`; nothing stands on it. Proved: nothing of its own; its few lines run `sl_terminal_commands` over the system.
#![tactic(auto)]

use sl_count_inputs::ToWrite;
use sl_terminal_commands::{AllForms, Documented, Terminal, run};
use sl_terminal_outside::Host;
use std::fs::File;
use std::process::ExitCode;

fn main(rt: HostRuntime) -> anyhow::Result<ExitCode> {
    // Where standard output is closed, the first file that is opened stands in its place: one that takes nothing, so that no file gets what was meant for it.
    let _in_place = File::open(&rt, "/dev/null");
    let words: Vec<String> = std::env::args(&rt)?.collect(rt.alloc())?;
    let (out, err) = (ToWrite::new(rt.stdout()), ToWrite::new(rt.stderr()));
    let mut terminal = Terminal::new(rt.alloc(), Host { rt: &rt }, out, err);
    let status = run(&mut terminal, &AllForms, &Documented, words.as_slice());
    Ok(ExitCode::from(status))
}
