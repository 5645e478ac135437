//! Pages of rows.

use crate::compared::run_row;
use crate::rows::{Named, Row};
use std::{fs, io};

// How many rows were run, and of how many something else came than is wanted.
#[derive(Clone, Copy)]
struct Tally {
    rows: u64,
    differing: u64,
}

impl Tally {
    // With one row more, if there is one.
    fn with(self, rt: &HostRuntime, page: &[Named], row: Option<Row>) -> io::Result<Tally> {
        let Some(row) = row else {
            return Ok(self);
        };
        let differs = if run_row(rt, page, &row)? { 0 } else { 1 };
        Ok(Tally {
            rows: self.rows.saturating_add(1),
            differing: self.differing.saturating_add(differs),
        })
    }
}

/// Runs the rows of a page, and writes how many there are, and each of which something else comes than is wanted, as it would be wanted: a changed output is
/// accepted by putting these lines in place of the row's.
///
/// # Errors
///
/// Those of reading the page, out of memory, and those of the output.
pub fn run_page(rt: &HostRuntime, path: &str) -> io::Result<()> {
    let text = fs::read_to_string(rt, path)?;
    let mut page = Row::new(rt.alloc(), "")?;
    let mut row = None;
    let mut tally = Tally {
        rows: 0,
        differing: 0,
    };
    for line in text.as_str().lines() {
        let (marker, rest) = line.split_once(' ').unwrap_or((line, ""));
        if marker == "==" {
            tally = tally.with(rt, page.files.as_slice(), row)?;
            row = Some(Row::new(rt.alloc(), rest)?);
        } else if let Some(row) = &mut row {
            row.take(rt.alloc(), marker, rest)?;
        } else {
            page.take(rt.alloc(), marker, rest)?;
        }
    }
    tally = tally.with(rt, page.files.as_slice(), row)?;
    let Tally { rows, differing } = tally;
    println!(rt; "{path}: {rows} rows, {differing} differ")
}
