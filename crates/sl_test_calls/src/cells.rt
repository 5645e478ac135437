//! Cells of returns: where they stand in a text, and what those of a refused record hold. Rows show the places of some of them.

use crate::assertions::assert_none;
use sl_returns::{A, LAND, RefusedReturns, read_or_refuse};
use sl_returns_places::{RecordAtFault, cell_place};
use std::alloc::Global;

// The text of two records, a column of the second, and where its cell stands: its first byte, the byte after it, and whether a quote is open.
const PLACES: [(&str, usize, (usize, usize, bool)); 4] = [
    ("a,b\nc,de\n", 1, (6, 8, false)),
    ("\u{FEFF}a\n\r\n\n,b", 1, (9, 10, false)),
    ("a\nb,\"c,\nd\"\n", 1, (4, 10, false)),
    ("a\nb,\"c\nd,e", 1, (4, 10, true)),
];

// Texts of fewer records or cells, and the column of a cell that they lack in the second record.
const WITHOUT: [(&str, usize); 3] = [("a\nb,c\n", 2), ("a\n", 0), ("", 0)];

// Whether the cell in a column of the second record stands there.
fn is_place(text: &str, column: usize, start: usize, end: usize, is_open: bool) -> bool {
    match cell_place(text.as_bytes(), 2, column) {
        Some(place) => (place.start, place.end, place.is_open) == (start, end, is_open),
        None => false,
    }
}

// The first text whose cell stands elsewhere.
fn first_place_wrong() -> Option<usize> {
    for (number, (text, column, (start, end, is_open))) in PLACES.iter().enumerate() {
        if !is_place(text, *column, *start, *end, *is_open) {
            return Some(number);
        }
    }
    None
}

// The first text that has a cell.
fn first_with_cell() -> Option<usize> {
    for (number, (text, column)) in WITHOUT.iter().enumerate() {
        if cell_place(text.as_bytes(), 2, *column).is_some() {
            return Some(number);
        }
    }
    None
}

#[test]
fn cells_have_places(rt: HostRuntime) {
    assert_none(&rt, first_place_wrong());
    assert_none(&rt, first_with_cell());
}

// Whether refused returns have the record of the second Land, and the first one before it.
fn has_record(refused: &RefusedReturns) -> bool {
    let first = RecordAtFault::first_of(refused);
    first.cell(LAND) == b"Y".as_slice()
        && first.cell(A) == b"x".as_slice()
        && first.before.lands == 1
}

// Whether the returns of a text are refused so.
fn are_refused(alloc: Global, text: &str) -> bool {
    match read_or_refuse(alloc, text.as_bytes()) {
        Err(refused) => has_record(&refused),
        Ok(_) => false,
    }
}

#[test]
fn a_refusal_has_its_record(rt: HostRuntime) {
    let text = "kind,land,party,a,b,c\nland,X,,1,,\nland,Y,,x,,\nland,Z,,1,,\n";
    assert!(rt; are_refused(rt.alloc(), text));
}
