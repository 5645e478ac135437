//! Rulebooks, each beside the seats of each party by it.

ghost use Rattle.std.specs.Prelude.{◌≡◌, ◌<◌, IfOk, IfSome, option_map};
ghost use Rattle.sl_report_tables.specs.Compare.{seats_in};
ghost use Rattle.sl_report_tables.specs.inner.Seated.{AreSeated, IsSeated};
ghost use Rattle.sl_report_tables.specs.inner.SeatsBy.{seats_by};
ghost use Rattle.sl_law_meaning.specs.returns.Election.{parties_of};

use crate::compare::Judged;
use sl_base_quotients::NoMemory;
use sl_report_parties::{Seats, seats_by_party, seats_in_all};
use sl_stages::Returns;
use std::alloc::Global;

/// A rulebook beside the seats of each party by it; beside none where there is no count.
#[derive(Drop)]
pub(crate) struct Seated<'a> {
    pub(crate) judged: &'a Judged,
    pub(crate) seats: Vec<Seats>,
}

// The seats of each party by a book, if there is a count.
fn seats_by(alloc: Global, judged: &Judged, returns: &Returns) -> Result<Vec<Seats>, NoMemory>
    ensures { IfOk result (λ seats. seats.items ≡ seats_by returns.now (option_map (λ c. c.table) judged.now.counted)) }
{
    match &judged.counted {
        Some(counted) => seats_by_party(alloc, &counted.table, returns),
        None => Ok(Vec::new(alloc)),
    }
}

/// Each book beside the seats of each party by it.
pub(crate) fn seated_books<'a>(
    alloc: Global,
    books: &'a [Judged],
    returns: &Returns,
) -> Result<Vec<Seated<'a>>, NoMemory>
    ensures { IfOk result (λ all. AreSeated returns.now books.now all.items) }
{
    let mut all: Vec<Seated<'a>> = Vec::new(alloc);
    for judged in books {
        let seats = seats_by(alloc, judged, returns)?;
        all.push(Seated { judged, seats })?;
    }
    Ok(all)
}

/// The seats that a book gives a party, or all of them where no party is given; nothing where there is no count.
pub(crate) fn seats_in(book: &Seated<'_>, returns: &Returns, party: Option<usize>) -> Option<u64>
    requires book { IsSeated returns.now book.now }
    requires party { IfSome party (λ n. n < parties_of returns.now) }
    ensures { result ≡ option_map (seats_in returns.now party) book.now.judged.now.counted }
{
    match (&book.judged.counted, party) {
        (Some(_), Some(party)) => Some(book.seats[party].seats),
        (Some(counted), None) => Some(seats_in_all(&counted.table).seats),
        (None, _) => None,
    }
}
