//! Returns that are cut at every byte: what is written is what their whole records come to, or the refusal of the record that is cut.

use crate::assertions::assert_none;
use crate::calls::{Ending, Pace};
use crate::hostile::endings::{STEPS, has_written};
use crate::hostile::laws::LAWS;
use crate::hostile::rows::{COVERINGS, Row, STEPS as STEP_ROWS};
use std::alloc::Global;
use std::process::Abort;

// What stands before a cut.
#[derive(Clone, Copy)]
struct Head {
    // Records that are ended by a line feed.
    records: usize,
    // Commas in the record after them.
    commas: u32,
    // Whether that has any byte, and whether its last cell has.
    begun: bool,
    filled: bool,
}

const NOTHING: Head = Head {
    records: 0,
    commas: 0,
    begun: false,
    filled: false,
};

impl Head {
    // With one byte more.
    fn with(self, byte: u8) -> Head {
        if byte == b'\n' {
            return Head {
                records: self.records.saturating_add(1),
                ..NOTHING
            };
        }
        let is_comma = byte == b',';
        Head {
            records: self.records,
            commas: self.commas.saturating_add(u32::from(is_comma)),
            begun: true,
            filled: !is_comma,
        }
    }

    // The number of the fault of the record that is cut: its cells are too few, or the last one, the valid votes of a winner, is no
    // number, or less than the first votes. A header that is cut is none.
    fn fault(self) -> u32 {
        if self.records == 0 {
            1
        } else if self.commas < 5 {
            2
        } else if !self.filled {
            5
        } else {
            6
        }
    }
}

// What is written where the returns have so many whole records.
fn text_of(row: &Row, records: usize) -> &'static str {
    match records.checked_sub(1) {
        Some(last) => row.texts.get(last).copied().unwrap_or(""),
        None => "refused returns 1 1\n",
    }
}

// Whether returns are refused by the record that is cut.
fn is_refused(alloc: Global, ending: &Ending, head: Head, record: usize) -> bool {
    match format!(in alloc; "refused returns {} {record}\n", head.fault()) {
        Ok(line) => has_written(ending, line.as_bytes()),
        Err(_) => false,
    }
}

// Whether that is written for the returns before a cut which has to be, where the byte after it is this one.
fn is_right(alloc: Global, ending: &Ending, row: &Row, head: Head, next: Option<u8>) -> bool {
    let behind = head.records.saturating_add(1);
    if !head.begun {
        has_written(ending, text_of(row, head.records).as_bytes())
    } else if next.is_none() || next == Some(b'\n') {
        has_written(ending, text_of(row, behind).as_bytes())
    } else {
        is_refused(alloc, ending, head, behind)
    }
}

// How the call of a row ends with these returns.
fn ending(alloc: Global, row: &Row, returns: &[u8], step: usize) -> Ending {
    row.call
        .ending(alloc, row.book.as_bytes(), returns, Pace::of(step))
}

// The first cut of a row's returns for which something else is written than has to be.
fn first_cut_wrong(alloc: Global, row: &Row, step: usize) -> Option<usize> {
    let returns = row.returns.as_bytes();
    let mut head = NOTHING;
    for cut in 0..=returns.len() {
        let next = returns.get(cut).copied();
        let ending = ending(alloc, row, &returns[..cut], step);
        if !is_right(alloc, &ending, row, head, next) {
            return Some(cut);
        }
        if let Some(byte) = next {
            head = head.with(byte);
        }
    }
    None
}

fn assert_rows(rt: &impl Abort, alloc: Global, rows: &[Row]) {
    for row in rows {
        for step in &STEPS {
            assert_none(rt, first_cut_wrong(alloc, row, *step));
        }
    }
}

#[test]
fn cut_steps(rt: HostRuntime) {
    assert_rows(&rt, rt.alloc(), &STEP_ROWS);
}

#[test]
fn cut_coverings(rt: HostRuntime) {
    assert_rows(&rt, rt.alloc(), &COVERINGS);
}

#[test]
fn cut_laws(rt: HostRuntime) {
    assert_rows(&rt, rt.alloc(), &LAWS);
}
