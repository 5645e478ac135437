//! What a cell looks like that should hold the digits of a number.

use crate::digits::{are_digits, is_number};
use sl_base_quotients::NoMemory;
use std::alloc::Global;

/// What a wrong number looks like.
#[derive(Clone, Copy)]
pub(crate) enum Form {
    Empty,
    Long,
    Missing,
    Edged,
    Negative,
    Positive,
    Exponent,
    Date,
    Separated,
    Decimal,
    Percent,
    Other,
}

// What stands for a missing value in tables, in small letters.
const MISSING: [&[u8]; 12] = [
    b"na", b"n/a", b"#n/a", b"#nv", b"nan", b"null", b"none", b"nil", b"-", b".", b"x", b"?",
];

// Groups of digits with marks between them, such as points.
#[derive(Clone, Copy)]
struct Groups {
    // the digits of the first, the second and the last group
    first: usize,
    second: usize,
    last: usize,
    // the marks, one for those that stand together
    marks: usize,
    // the last mark's last byte
    mark: u8,
    // each group after the first, up to the last, has three digits
    are_threes: bool,
    // nothing else stands there
    is_pure: bool,
}

impl Groups {
    // A digit.
    fn digit(&mut self) {
        self.last = self.last.saturating_add(1);
        if self.marks == 0 {
            self.first = self.last;
        } else if self.marks == 1 {
            self.second = self.last;
        }
    }

    // A mark, which ends a group.
    fn part(&mut self, byte: u8) {
        self.mark = byte;
        if self.last > 0 {
            if self.marks > 0 && self.last != 3 {
                self.are_threes = false;
            }
            self.marks = self.marks.saturating_add(1);
            self.last = 0;
        }
    }

    // Whether the marks stand between thousands.
    fn are_thousands(&self) -> bool {
        self.marks > 0 && self.are_threes && self.last == 3 && self.first <= 3
    }

    // Whether these are a day, a month and a year.
    fn are_date(&self) -> bool {
        let is_day = self.first <= 4 && self.second > 0 && self.second <= 2;
        self.marks == 2 && is_day && self.last > 0 && self.last <= 4
    }
}

// Whether a byte may separate groups of digits: also the parts of a wide blank or of an apostrophe.
fn is_mark(byte: u8) -> bool {
    byte >= 0x80 || b".,'_ -/".contains(&byte)
}

// The groups of digits of a cell.
fn groups_of(cell: &[u8]) -> Groups {
    let mut groups = Groups {
        first: 0,
        second: 0,
        last: 0,
        marks: 0,
        mark: 0,
        are_threes: true,
        is_pure: true,
    };
    for byte in cell {
        if byte.is_ascii_digit() {
            groups.digit();
        } else if is_mark(*byte) {
            groups.part(*byte);
        } else {
            groups.is_pure = false;
        }
    }
    groups
}

// The form by groups of digits.
fn form_by_groups(cell: &[u8]) -> Form {
    let groups = groups_of(cell);
    let is_point = groups.mark == b'.' || groups.mark == b',';
    if !groups.is_pure || groups.first == 0 || groups.last == 0 {
        Form::Other
    } else if groups.are_date() {
        Form::Date
    } else if groups.are_thousands() {
        Form::Separated
    } else if is_point {
        Form::Decimal
    } else {
        Form::Other
    }
}

// Whether a cell begins with a digit.
fn begins_number(cell: &[u8]) -> bool {
    cell.first().is_some_and(|byte| byte.is_ascii_digit())
}

// Whether a byte may stand in a number with an exponent.
fn is_numeral(byte: u8) -> bool {
    byte.is_ascii_digit() || b".,+-Ee".contains(&byte)
}

// Whether a cell is digits with an exponent, as 3E5 or 3.1e+05.
fn is_exponent(cell: &[u8]) -> bool {
    let has_exponent = cell.contains(&b'E') || cell.contains(&b'e');
    has_exponent && begins_number(cell) && cell.iter().all(|byte| is_numeral(*byte))
}

// Whether a cell is digits after a sign.
fn are_signed(cell: &[u8], sign: &[u8]) -> bool {
    cell.strip_prefix(sign).is_some_and(are_digits)
}

// Whether a cell is digits after a minus, as a keyboard, a typesetter or a spreadsheet writes it.
fn is_negative(cell: &[u8]) -> bool {
    are_signed(cell, b"-") || are_signed(cell, b"\xE2\x88\x92")
}

// Whether a cell is a number with a percent sign after it.
fn is_percentage(cell: &[u8]) -> bool {
    begins_number(cell) && cell.ends_with(b"%")
}

// Whether a cell stands for a missing value: by a word, or by a dash as a typesetter writes it.
fn is_missing(cell: &[u8]) -> bool {
    let is_dash = cell == "–".as_bytes() || cell == "—".as_bytes();
    is_dash || MISSING.iter().any(|word| cell.eq_ignore_ascii_case(word))
}

/// What a cell looks like that is no number.
pub(crate) fn form_of(cell: &[u8]) -> Form {
    let inner = cell.trim_ascii();
    if inner.is_empty() {
        Form::Empty
    } else if are_digits(cell) {
        Form::Long
    } else if are_digits(inner) {
        Form::Edged
    } else if is_missing(inner) {
        Form::Missing
    } else if is_negative(inner) {
        Form::Negative
    } else if are_signed(inner, b"+") {
        Form::Positive
    } else if is_exponent(inner) {
        Form::Exponent
    } else if is_percentage(inner) {
        Form::Percent
    } else {
        form_by_groups(inner)
    }
}

// The digits of a cell.
fn digits_of(alloc: Global, cell: &[u8]) -> Result<Vec<u8>, NoMemory> {
    let mut digits = Vec::new(alloc);
    for byte in cell {
        if byte.is_ascii_digit() {
            digits.push(*byte)?;
        }
    }
    Ok(digits)
}

// A cell up to its last mark, where only zeros stand after that.
fn whole_part(cell: &[u8]) -> Option<&[u8]> {
    let decimals = groups_of(cell).last;
    let (front, last) = cell.split_at_checked(cell.len().saturating_sub(decimals))?;
    if last.iter().all(|byte| *byte == b'0') {
        Some(front)
    } else {
        None
    }
}

// The part of a cell that has the digits for which it was likely meant, where that is plain.
fn meant_part(cell: &[u8]) -> Option<&[u8]> {
    match form_of(cell) {
        Form::Edged | Form::Positive | Form::Separated => Some(cell),
        Form::Decimal => whole_part(cell.trim_ascii()),
        Form::Empty
        | Form::Long
        | Form::Missing
        | Form::Negative
        | Form::Exponent
        | Form::Date
        | Form::Percent
        | Form::Other => None,
    }
}

/// The digits that a cell was likely meant for, where that is plain.
pub(crate) fn meant(alloc: Global, cell: &[u8]) -> Result<Option<Vec<u8>>, NoMemory> {
    let Some(part) = meant_part(cell) else {
        return Ok(None);
    };
    let digits = digits_of(alloc, part)?;
    if is_number(digits.as_slice()) {
        Ok(Some(digits))
    } else {
        Ok(None)
    }
}
