//! The rows of the tests, and the pages of the documentation that show commands.
//!
//! Stands on `sl_test_runner`; nothing stands on it. Nothing is proved but safety.
#![tactic(auto)]

use sl_test_runner::{run_page, show_markdown};
use std::{fs, io};

// The pages of the documentation, each with the files that its commands name beside it.
static PAGES: [&str; 11] = [
    "examples/first-count/README.md",
    "examples/first-run/README.md",
    "examples/first-rulebook/README.md",
    "examples/six-laws/README.md",
    "examples/tie/README.md",
    "examples/covered/README.md",
    "examples/vacant/README.md",
    "examples/growing-house/README.md",
    "examples/elections/README.md",
    "examples/report.md",
    "examples/by-hand.md",
];

// The pages of rows, in the order of their names.
fn pages_of_rows(rt: &HostRuntime) -> io::Result<Vec<String>> {
    let mut pages = Vec::new(rt.alloc());
    for entry in fs::read_dir(rt, "rows")? {
        let entry = entry?;
        let name = entry.file_name();
        if name.ends_with(".txt") {
            pages.push(format!(in rt.alloc(); "rows/{name}")?)?;
        }
    }
    let _ = pages.sort();
    Ok(pages)
}

fn main(rt: HostRuntime) -> io::Result<()> {
    for page in pages_of_rows(&rt)? {
        run_page(&rt, page.as_str())?;
    }
    for page in &PAGES {
        show_markdown(&rt, page)?;
    }
    Ok(())
}
