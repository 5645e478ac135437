//! Returns from their records: where memory is refused a builder has failed for good, and else it is the returns of the row.

use crate::marks::{begin, end};
use crate::refused::returns::are_three;
use crate::rows::{DRAWN_WINNERS, THREE_LISTS};
use csv::ByteRecord;
use sl_returns::{FaultKind, LAND, ReturnsBuilder, ReturnsFault, read_returns};
use sl_stages::Returns;
use std::alloc::{AllocError, Global};

const NO_MEMORY: ReturnsFault = ReturnsFault {
    row: 0,
    column: None,
    kind: FaultKind::NoMemory,
};

// Whether these are three lists, and nothing else.
fn are_only_three(returns: &Returns) -> bool {
    returns.house().is_none()
        && returns.wins() == 0
        && returns.lots().is_empty()
        && are_three(returns)
}

// The returns of a text.
fn read(alloc: Global, text: &str) -> Result<Returns, ReturnsFault> {
    begin(alloc);
    let first = read_returns(alloc, text.as_bytes());
    end(alloc);
    match first {
        Ok(returns) => Ok(returns),
        Err(NO_MEMORY) => read_returns(alloc, text.as_bytes()),
        Err(fault) => Err(fault),
    }
}

// Whether those of the three lists are read.
fn are_three_read(alloc: Global) -> bool {
    match read(alloc, THREE_LISTS) {
        Ok(returns) => are_only_three(&returns),
        Err(_) => false,
    }
}

#[test]
fn returns_are_read(rt: HostRuntime) {
    assert!(rt; are_three_read(rt.alloc()));
}

// The record of a line.
fn record(alloc: Global, line: &str) -> Result<ByteRecord, AllocError> {
    let mut fields = Vec::new(alloc);
    for field in line.split(',') {
        fields.push(field.as_bytes())?;
    }
    ByteRecord::from_fields(alloc, fields.as_slice())
}

// Adds the records of a text.
fn add_records(alloc: Global, records: &mut Vec<ByteRecord>, text: &str) -> Result<(), AllocError> {
    for line in text.lines() {
        records.push(record(alloc, line)?)?;
    }
    Ok(())
}

fn records(alloc: Global, text: &str) -> Result<Vec<ByteRecord>, AllocError> {
    let mut records = Vec::new(alloc);
    add_records(alloc, &mut records, text)?;
    Ok(records)
}

// Whether a record is taken, or else memory was refused, which the builder answers again; `None` if it answers anything else.
fn feed(alloc: Global, builder: &mut ReturnsBuilder, fields: &ByteRecord) -> Option<bool> {
    begin(alloc);
    let first = builder.feed(fields);
    end(alloc);
    if first.is_ok() {
        Some(true)
    } else if first == Err(NO_MEMORY) && builder.feed(fields) == first {
        Some(false)
    } else {
        None
    }
}

// The same of all, up to one that is not taken.
fn feed_all(alloc: Global, builder: &mut ReturnsBuilder, records: &[ByteRecord]) -> Option<bool> {
    for fields in records {
        let is_taken = feed(alloc, builder, fields);
        if is_taken != Some(true) {
            return is_taken;
        }
    }
    Some(true)
}

// The returns that the records give, or out of memory, which a builder that was refused it answers in the end too.
fn fed(alloc: Global, records: &[ByteRecord]) -> Option<Result<Returns, ReturnsFault>> {
    let mut builder = ReturnsBuilder::new(alloc);
    let are_taken = feed_all(alloc, &mut builder, records);
    begin(alloc);
    let answer = builder.finish();
    end(alloc);
    if are_taken == Some(answer.is_ok()) {
        Some(answer)
    } else {
        None
    }
}

// The same, once more with another builder where the first was refused memory.
fn fed_twice(alloc: Global, records: &[ByteRecord]) -> Option<Result<Returns, ReturnsFault>> {
    match fed(alloc, records) {
        Some(Err(NO_MEMORY)) => fed(alloc, records),
        first => first,
    }
}

// Whether those of the records hold what a function asks of them.
fn hold(alloc: Global, records: &[ByteRecord], holds: fn(&Returns) -> bool) -> bool
    requires { IsAlwaysCallable holds }
{
    match fed_twice(alloc, records) {
        Some(Ok(returns)) => holds(&returns),
        _ => false,
    }
}

// Whether those of the records of a text do.
fn are_fed(alloc: Global, text: &str, holds: fn(&Returns) -> bool) -> bool
    requires { IsAlwaysCallable holds }
{
    match records(alloc, text) {
        Ok(records) => hold(alloc, records.as_slice(), holds),
        Err(_) => false,
    }
}

#[test]
fn records_are_fed(rt: HostRuntime) {
    assert!(rt; are_fed(rt.alloc(), THREE_LISTS, are_only_three));
}

// Whether there are three winners, and lots of the last two, the last one first.
fn are_drawn(returns: &Returns) -> bool {
    match returns.lots() {
        [third, second] => returns.wins() == 3 && third.win == Some(2) && second.win == Some(1),
        _ => false,
    }
}

#[test]
fn winners_and_lots_are_fed(rt: HostRuntime) {
    assert!(rt; are_fed(rt.alloc(), DRAWN_WINNERS, are_drawn));
}

// A Land twice.
const TWICE: ReturnsFault = ReturnsFault {
    row: 3,
    column: Some(LAND),
    kind: FaultKind::Twice,
};

// A header, that, and a header: the refusal of the second Land is the answer from there on.
const AGAIN: &str = "kind,land,party,a,b,c\nland,X,,1,,\nland,X,,1,,\nkind,land,party,a,b,c\n";

// The answer to the last record.
fn last_answer(builder: &mut ReturnsBuilder, records: &[ByteRecord]) -> Result<(), ReturnsFault> {
    let mut answer = Ok(());
    for fields in records {
        answer = builder.feed(fields);
    }
    answer
}

// Whether it is that refusal, and the last answer is too.
fn stays_refused(alloc: Global, records: &[ByteRecord]) -> bool {
    let mut builder = ReturnsBuilder::new(alloc);
    last_answer(&mut builder, records) == Err(TWICE) && builder.finish().err() == Some(TWICE)
}

// Whether those of a text do.
fn text_stays_refused(alloc: Global, text: &str) -> bool {
    match records(alloc, text) {
        Ok(records) => stays_refused(alloc, records.as_slice()),
        Err(_) => false,
    }
}

#[test]
fn a_refusal_is_final(rt: HostRuntime) {
    assert!(rt; text_stays_refused(rt.alloc(), AGAIN));
}
