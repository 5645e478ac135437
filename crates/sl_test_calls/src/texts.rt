//! Texts that no command shows: those of faults, of lines with words of every kind, and of the smallest table.

use sl_base_quotients::NoMemory;
use sl_lex::LexFault;
use sl_parse::ParseFault;
use sl_returns::{A, FaultKind, ReturnsFault};
use sl_stages::{Returns, Table};
use sl_table::{Text, short_text};
use std::alloc::Global;

// Whether the texts of three faults are these.
fn are_fault_texts(alloc: Global, expected: &str) -> bool {
    let returns = ReturnsFault {
        row: 7,
        column: Some(A),
        kind: FaultKind::Range,
    };
    match format!(in alloc;
        "{}; {}; {returns}",
        LexFault::LongName(4),
        ParseFault::TooManyStages(652)
    ) {
        Ok(text) => text.as_str() == expected,
        Err(_) => false,
    }
}

#[test]
fn faults(rt: HostRuntime) {
    let text =
        "the word at 4 has over 12 bytes; the stage at 652 is one too many; record 7: a number is out of its range";
    assert!(rt; are_fault_texts(rt.alloc(), text));
}

// Whether a line of words and numbers is added, one with blanks in a row, and one without a word.
fn are_lines_added(text: &mut Text) -> bool {
    text.word(b"refused").is_ok()
        && text.number(0).is_ok()
        && text.number(18_446_744_073_709_551_615).is_ok()
        && text.end_line().is_ok()
        && text.word(b"").is_ok()
        && text
            .wide_number(340_282_366_920_938_463_463_374_607_431_768_211_455)
            .is_ok()
        && text.word(b"").is_ok()
        && text.pair(b"X", b"A").is_ok()
        && text.end_line().is_ok()
        && text.end_line().is_ok()
}

// Whether these lines are their bytes.
fn are_lines(alloc: Global, expected: &[u8]) -> bool {
    let mut text = Text::new(alloc);
    are_lines_added(&mut text) && text.into_bytes().as_slice() == expected
}

#[test]
fn lines_of_words(rt: HostRuntime) {
    let bytes =
        b"refused 0 18446744073709551615\n 340282366920938463463374607431768211455  X/A\n\n";
    assert!(rt; are_lines(rt.alloc(), bytes));
}

// The text of a table without seats, over returns without a Land.
fn text_without_seats(alloc: Global) -> Result<Vec<u8>, NoMemory> {
    let table = Table::new(
        Vec::new(alloc),
        Vec::new(alloc),
        Vec::new(alloc),
        Vec::new(alloc),
    );
    short_text(alloc, &table, &Returns::empty(alloc))
}

fn is_text_without_seats(alloc: Global, expected: &[u8]) -> bool {
    match text_without_seats(alloc) {
        Ok(text) => text.as_slice() == expected,
        Err(_) => false,
    }
}

#[test]
fn table_without_seats(rt: HostRuntime) {
    assert!(rt; is_text_without_seats(rt.alloc(), b"total 0\n"));
}
