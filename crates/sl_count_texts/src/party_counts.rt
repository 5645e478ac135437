//! What the lines of the parties tell, counted for all parties in one pass.

ghost use Rattle.std.specs.Prelude.{◌≡◌, ◌<◌, ◌+◌, ◌^◌, ◌≤◌, All, IfOk, map};
ghost use Rattle.std.specs.List.{range_with_len};
ghost use Rattle.sl_law_meaning.specs.returns.Facts.{by_party};
ghost use Rattle.sl_count_texts.specs.inner.Fits.{Fits};
ghost use Rattle.sl_count_texts.specs.inner.PartyCounts.{AreCounts, list_seats_of, counts, party_counted, winners_counted};

use sl_base_quotients::NoMemory;
use sl_stages::{ListSeats, Placed, Returns, Table, Win};
use std::alloc::Global;

/// By party: the seats of its lists, its winners who are seated, and those of them who sit as singles.
#[derive(Drop)]
pub(crate) struct PartyCounts {
    pub list_seats: Vec<u128>,
    pub seated: Vec<u64>,
    pub singles: Vec<u64>,
}

impl PartyCounts {
    /// Those of a table.
    pub fn of(alloc: Global, table: &Table, returns: &Returns) -> Result<PartyCounts, NoMemory>
        requires { Fits table.now returns.now }
        ensures { IfOk result (λ counts. AreCounts table.now returns.now counts.list_seats.items counts.seated.items counts.singles.items) }
    {
        Ok(PartyCounts {
            list_seats: list_seats(alloc, table.lists(), returns.parties())?,
            seated: winners(alloc, table, returns, Counted::Seated)?,
            singles: winners(alloc, table, returns, Counted::Singles)?,
        })
    }
}

// Which winners are counted: those who are seated, or those of them who sit as singles.
#[derive(Clone, Copy)]
enum Counted {
    Seated,
    Singles,
}

impl Counted {
    // Whether a winner is counted who sits there.
    fn counts(self, place: Placed) -> bool
        ensures { result ≡ counts self place }
    {
        match self {
            Counted::Seated => !matches!(place, Placed::Unseated),
            Counted::Singles => matches!(place, Placed::Single),
        }
    }

    // The party of a winner who is counted.
    fn party(self, win: Win, place: Placed) -> Option<usize>
        ensures { result ≡ party_counted self win place }
    {
        if self.counts(place) { win.party } else { None }
    }
}

// The seats of each party's lists. There is room for a single of each winner.
fn list_seats(alloc: Global, lists: &[ListSeats], parties: usize) -> Result<Vec<u128>, NoMemory>
    requires { All (λ l. l.party < parties) lists.now }
    ensures seats { IfOk result (λ column. column.items ≡ map (list_seats_of lists.now) (range_with_len 0 parties)) }
    ensures room { IfOk result (λ column. All (λ seats. seats + 2 ^ 64 ≤ 2 ^ 128) column.items) }
{
    let Ok(mut column) = vec![in alloc; 0u128; parties] else {
        return Err(NoMemory);
    };
    for list in lists {
        column[list.party] += u128::from(list.seats);
    }
    Ok(column)
}

// How many winners of each party are counted.
fn winners(
    alloc: Global,
    table: &Table,
    returns: &Returns,
    counted: Counted,
) -> Result<Vec<u64>, NoMemory>
    requires { Fits table.now returns.now }
    ensures { IfOk result (λ column. column.items ≡ by_party returns.now (winners_counted counted table.now returns.now)) }
{
    let Ok(mut column) = vec![in alloc; 0u64; returns.parties()] else {
        return Err(NoMemory);
    };
    for (win, place) in table.placed().iter().enumerate() {
        if let Some(party) = counted.party(returns.win(win), *place) {
            column[party] += 1;
        }
    }
    Ok(column)
}
