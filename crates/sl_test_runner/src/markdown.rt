//! Pages of the documentation: the commands that they show are run.

use crate::rows::Call;
use crate::running::{Came, add_files, run_program};
use std::alloc::{AllocError, Global};
use std::fs;
use std::io::{self, Error, ErrorKind};

// How a page shows a command.
const PROMPT: &str = "    $ ./seatlaw ";

// A command and its text as a page shows them.
fn block(alloc: Global, line: &str, text: &str) -> Result<String, AllocError> {
    let mut block = format!(in alloc; "{PROMPT}{line}\n")?;
    for row in text.lines() {
        write!(block, "    {row}\n")?;
    }
    block.push_str("\n")?;
    Ok(block)
}

// Says the status of a command, and whether the page shows its text; else the text follows.
fn show_came(rt: &HostRuntime, page: &str, line: &str, came: &Came) -> io::Result<()> {
    let Ok(text) = std::str::from_utf8(came.out.as_slice()) else {
        return Err(Error::from(ErrorKind::InvalidData));
    };
    let block = block(rt.alloc(), line, text)?;
    let status = came.status;
    if page.contains(block.as_str()) {
        println!(rt; "{line}: status {status}, as shown")
    } else {
        println!(rt; "{line}: status {status}, not as shown\n{block}")
    }
}

// Runs a command that the page shows.
fn show_command(rt: &HostRuntime, page: &str, line: &str) -> io::Result<()> {
    let alloc = rt.alloc();
    let typed = format!(in alloc; "seatlaw {line}")?;
    let call = Call::new(alloc, typed.as_str())?;
    let mut files = Vec::new(alloc);
    add_files(rt, &mut files, call.words.as_slice(), "")?;
    let came = run_program(alloc, files.as_slice(), &[], call.words.as_slice(), 4096);
    show_came(rt, page, line, &came)
}

/// Runs the commands of a page, and writes for each whether it ends and writes as the page shows.
///
/// # Errors
///
/// Those of reading the page, out of memory, and those of the output.
pub fn show_markdown(rt: &HostRuntime, path: &str) -> io::Result<()> {
    let mut page = fs::read_to_string(rt, path)?;
    page.push_str("\n")?; // as if a blank line stood after each block, the last one too
    for line in page.as_str().lines() {
        if let Some(line) = line.strip_prefix(PROMPT) {
            show_command(rt, page.as_str(), line)?;
        }
    }
    Ok(())
}
