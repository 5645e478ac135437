//! The sheet of contested lists: their winners by rank.

ghost use Rattle.std.specs.Prelude.{◌≡◌, ◌∷◌, [], IfOk, List, OnOk};
ghost use Rattle.sl_report_forms.specs.Tables.{contents_of, table_of};
ghost use Rattle.sl_report_parties.specs.declared.contests.Ranked.{Ranked};
ghost use Rattle.sl_report_tables.specs.Parties.{AreCovered, covering_table, ranked_row};

use crate::rows::{name, percent, percent_exact};
use crate::texts::COVERED_TITLE;
use sl_base_quotients::NoMemory;
use sl_report_forms::{Cell, ColumnForm, Look, Sheet, Title};
use sl_report_parties::{Ranked, Setting, contested};
use sl_stages::{Item, Seating, Table};
use std::alloc::Global;

#[rattlefmt::skip]
const COVERING: [ColumnForm; 12] = [
    ("land", "", "", Look::Hidden),
    ("land_name", "Land", "Land", Look::Text(20)),
    ("party", "", "", Look::Hidden),
    ("party_name", "party", "Partei", Look::Text(14)),
    ("constituency", "", "", Look::Hidden),
    ("constituency_name", "constituency", "Wahlkreis", Look::Text(22)),
    ("first", "first", "Erststimmen", Look::Number),
    ("valid", "valid", "gültig", Look::Number),
    ("percent", "percent", "Prozent", Look::Number),
    ("percent_exact", "", "", Look::Hidden),
    ("rank", "rank", "Rang", Look::Number),
    ("seated", "seated", "Sitz", Look::Text(6)),
];

// The row of a winner.
fn winner_row(alloc: Global, winner: Ranked) -> Result<Vec<Cell>, NoMemory>
    ensures { IfOk result (λ row. contents_of row.items ≡ ranked_row winner) }
{
    let first = u64::from(winner.first);
    let valid = u64::from(winner.valid);
    Ok(vec![in alloc;
        Cell::Entry(Item::Land(winner.land)),
        name(Item::Land(winner.land)),
        Cell::Entry(Item::Party(winner.party)),
        name(Item::Party(winner.party)),
        Cell::Entry(Item::Win(winner.win)),
        name(Item::Win(winner.win)),
        Cell::Number(first),
        Cell::Number(valid),
        percent(first, valid),
        percent_exact(first, valid),
        Cell::Number(winner.rank),
        Cell::Flag(winner.seated),
    ]?)
}

// The winners of the lists that have more winners than seats, where the book covers them.
fn covered(alloc: Global, setting: &Setting<'_>, table: &Table) -> Result<Vec<Ranked>, NoMemory>
    ensures { IfOk result (λ ws. AreCovered setting.now.book.now.last.seating setting.now.book.now.eligible.items table.now setting.now.returns.now ws.items) }
{
    match setting.book.last.seating {
        Seating::Cover => contested(alloc, setting, table),
        Seating::Keep => Ok(Vec::new(alloc)),
    }
}

// The sheet of these winners.
#[tactic(auto, using(crate::proofs::MoreRows::rows_next))]
fn ranked_sheet(alloc: Global, winners: &[Ranked]) -> Result<Sheet, NoMemory>
    ensures { IfOk result (λ s. table_of s ≡ covering_table winners.now) }
{
    let mut sheet = Sheet::new(alloc, "covering", Title::Words(COVERED_TITLE), &COVERING)?;
    for winner in winners {
        sheet.push(winner_row(alloc, *winner)?)?;
    }
    Ok(sheet)
}

/// The winners of the lists that have more winners than seats, where the book covers them.
pub(crate) fn covering_sheet(
    alloc: Global,
    setting: &Setting<'_>,
    table: &Table,
) -> Result<Sheet, NoMemory>
    ensures { IfOk result (λ s. (ws : List Ranked) × AreCovered setting.now.book.now.last.seating setting.now.book.now.eligible.items table.now setting.now.returns.now ws × (table_of s ≡ covering_table ws)) }
{
    let winners = covered(alloc, setting, table)?;
    ranked_sheet(alloc, winners.as_slice())
}
