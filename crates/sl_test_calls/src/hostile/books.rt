//! Books that are cut at every byte: each is refused at the place where it lacks something, but where only blanks are cut off.

use crate::assertions::assert_none;
use crate::calls::{Call, Ending, Pace, told};
use crate::hostile::endings::{STEPS, has_written};
use crate::hostile::laws::LAWS;
use crate::hostile::rows::{COVERINGS, Row, STEPS as STEP_ROWS};
use sl_desk::Status;
use std::alloc::Global;
use std::process::Abort;

// What stands before a cut: where its last token begins if that is a word, a number or a text that may go on, and whether it is a text
// that is not closed.
#[derive(Clone, Copy)]
struct Head {
    token: usize,
    within_text: bool,
    within_word: bool,
}

const NOTHING: Head = Head {
    token: 0,
    within_text: false,
    within_word: false,
};

impl Head {
    // With the byte at a place.
    fn with(self, byte: u8, place: usize) -> Head {
        if byte == b'"' {
            let within_text = !self.within_text;
            return Head {
                token: place,
                within_text,
                within_word: false,
            };
        }
        let within_word = byte.is_ascii_alphanumeric() || byte == b'_';
        if self.within_text || within_word && self.within_word {
            return self;
        }
        Head {
            token: place,
            within_text: false,
            within_word,
        }
    }
}

// Whether a line is this one, with a number after it.
fn is_line(alloc: Global, line: &[u8], start: &str, number: usize) -> bool {
    match format!(in alloc; "{start} {number}\n") {
        Ok(expected) => line == expected.as_bytes(),
        Err(_) => false,
    }
}

// Whether a line is the refusal of a book that is cut there: a text is not closed, the end is missing, or what is left of the last word
// may not stand in its place.
fn is_refusal(alloc: Global, line: &[u8], head: Head, cut: usize) -> bool {
    if head.within_text {
        return is_line(alloc, line, "refused book lex 2", head.token);
    }
    is_line(alloc, line, "refused book parse 1", cut)
        || head.within_word && is_line(alloc, line, "refused book parse 1", head.token)
}

// Whether a book which is cut there is refused.
fn is_refused(alloc: Global, ending: &Ending, head: Head, cut: usize) -> bool {
    ending.result == Ok(Status::Refused) && is_refusal(alloc, ending.written.as_slice(), head, cut)
}

// The length of a book without what stands after its last semicolon.
fn length(book: &[u8]) -> usize {
    let mut length = 0;
    for (place, byte) in book.iter().enumerate() {
        if *byte == b';' {
            length = place.saturating_add(1);
        }
    }
    length
}

// How the call of a row ends with another book, a law of the library as one that is read.
fn ending(alloc: Global, row: &Row, book: &[u8], step: usize) -> Ending {
    let call = match row.call {
        Call::CountBy(_) => Call::Count,
        call => call,
    };
    call.ending(alloc, book, row.returns.as_bytes(), Pace::of(step))
}

// What is written for the whole returns of a row.
fn whole_text(row: &Row) -> &'static str {
    row.texts.last().copied().unwrap_or("")
}

// The first cut of a row's book for which something else is written than has to be.
fn first_cut_wrong(alloc: Global, row: &Row, book: &[u8], step: usize) -> Option<usize> {
    let length = length(book);
    let mut head = NOTHING;
    for cut in 0..=book.len() {
        let ending = ending(alloc, row, &book[..cut], step);
        let is_right = if cut < length {
            is_refused(alloc, &ending, head, cut)
        } else {
            has_written(&ending, whole_text(row).as_bytes())
        };
        if !is_right {
            return Some(cut);
        }
        if let Some(byte) = book.get(cut) {
            head = head.with(*byte, cut);
        }
    }
    None
}

// The same at each step.
fn first_cut_wrong_by_step(alloc: Global, row: &Row, book: &[u8]) -> Option<usize> {
    for step in &STEPS {
        let wrong = first_cut_wrong(alloc, row, book, *step);
        if wrong.is_some() {
            return wrong;
        }
    }
    None
}

// The same of a row, whose law of the library is given first.
fn first_row_cut_wrong(alloc: Global, row: &Row) -> Option<usize> {
    match row.call {
        Call::CountBy(law) => {
            let book = told(alloc, law, Pace::of(4096)).written;
            first_cut_wrong_by_step(alloc, row, book.as_slice())
        }
        _ => first_cut_wrong_by_step(alloc, row, row.book.as_bytes()),
    }
}

fn assert_rows(rt: &impl Abort, alloc: Global, rows: &[Row]) {
    for row in rows {
        assert_none(rt, first_row_cut_wrong(alloc, row));
    }
}

#[test]
fn cut_books(rt: HostRuntime) {
    assert_rows(&rt, rt.alloc(), &STEP_ROWS);
    assert_rows(&rt, rt.alloc(), &COVERINGS);
}

#[test]
fn cut_laws(rt: HostRuntime) {
    assert_rows(&rt, rt.alloc(), &LAWS);
}
