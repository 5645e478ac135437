//! The program that counts: `count`, `steps` and `stage` as the program seatlaw has them, without options and without explanations. The script
//! seatlaw builds it first.
//!
//! Stands on `sl_terminal_count`; nothing stands on it. Proved: nothing of its own; its few lines run `sl_terminal_count` over the system.
#![tactic(auto)]

use sl_count_inputs::ToWrite;
use sl_terminal_count::run;
use sl_terminal_outside::Host;
use std::process::ExitCode;

fn main(rt: HostRuntime) -> anyhow::Result<ExitCode> {
    let words: Vec<String> = std::env::args(&rt)?.collect(rt.alloc())?;
    let mut out = ToWrite::new(rt.stdout());
    let exit = run(rt.alloc(), &Host { rt: &rt }, words.as_slice(), &mut out);
    if exit.is_told() {
        eprintln!(rt; "{exit}")?;
    }
    Ok(ExitCode::from(exit.number()))
}
