//! The sheets of one count.

ghost use Rattle.std.specs.Prelude.{◌≡◌, ◌++◌, IfOk, List, OnOk, map, option_map};
ghost use Rattle.sl_report_forms.specs.Tables.{table_of};
ghost use Rattle.sl_report_parties.specs.Seats.{all_seats};
ghost use Rattle.sl_report_parties.specs.declared.contests.Ranked.{Ranked};
ghost use Rattle.sl_report_tables.specs.Parties.{AreCovered, house_of, law_table};
ghost use Rattle.sl_report_tables.specs.Reports.{AreAllScopes, IsCountReport, first_tables, place_tables, winner_tables};
ghost use Rattle.sl_report_tables.specs.Scopes.{scope_tables};
ghost use Rattle.sl_law_meaning.specs.book.Books.{book_of};
ghost use Rattle.sl_law_meaning.specs.meaning.Counts.{HoldsStages};

use crate::covering::covering_sheet;
use crate::naming::{owned, text_of};
use crate::parties::{lists_sheet, parties_sheet, placed_sheet};
use crate::rows::{add_sheet, one_row_sheet};
use crate::scopes::{entries_sheet, scopes_sheet};
use crate::texts::{LAW_TITLE, OPEN_TITLE, SINGLES_TITLE};
use sl_base_quotients::NoMemory;
use sl_report_forms::{Cell, ColumnForm, Look, Sheet};
use sl_report_parties::{Seats, Setting, seats_in_all};
use sl_report_results::{Counted, Scoped, stage_scopes};
use sl_stages::{Placed, Returns, Table};
use std::alloc::Global;

const LAW: [ColumnForm; 5] = [
    ("law", "law", "Gesetz", Look::Text(60)),
    ("house", "house", "Hausgröße", Look::Number),
    ("seats", "seats", "Sitze", Look::Number),
    ("direct", "direct", "direkt", Look::Number),
    ("vacant", "vacant", "unbesetzt", Look::Number),
];

// The seats in all, where a table is known.
fn seats_in(table: Option<&Table>) -> Option<Seats>
    ensures { result ≡ option_map (λ t. all_seats t.now) table.entry }
{
    match table {
        Some(table) => Some(seats_in_all(table)),
        None => None,
    }
}

/// The law, the house from which it starts, and the seats in all.
pub(crate) fn law_sheet(
    alloc: Global,
    setting: &Setting<'_>,
    table: Option<&Table>,
) -> Result<Sheet, NoMemory>
    ensures { IfOk result (λ s. table_of s ≡ law_table setting.now.book.now (house_of setting.now.book.now setting.now.returns.now) (option_map (λ t. t.now) table.entry)) }
{
    let seats = seats_in(table);
    let law = owned(alloc, text_of(setting.book.law.as_slice()))?;
    let row = vec![in alloc;
        Cell::Text(law),
        Cell::Number(setting.house()),
        Cell::known(seats.map(|seats| seats.seats)),
        Cell::known(seats.map(|seats| seats.direct)),
        Cell::known(seats.map(|seats| seats.vacant)),
    ]?;
    one_row_sheet(alloc, "law", LAW_TITLE, &LAW, row)
}

/// The scopes of all stages.
pub(crate) fn all_scopes(
    alloc: Global,
    setting: &Setting<'_>,
    counted: &Counted,
) -> Result<Vec<Scoped>, NoMemory>
    requires { HoldsStages (book_of setting.now.book.now) setting.now.returns.now counted.now.columns.items }
    ensures { IfOk result (λ scopes. AreAllScopes setting.now.book.now setting.now.returns.now counted.now scopes.items) }
{
    let mut scopes: Vec<Scoped> = Vec::new(alloc);
    for stage in 0..setting.book.stages.len() {
        let mut found = stage_scopes(alloc, setting, counted, stage)?;
        scopes.append(&mut found)?;
    }
    Ok(scopes)
}

// Adds the sheets of these scopes.
fn push_scope_sheets(
    alloc: Global,
    sheets: &mut Vec<Sheet>,
    scopes: &[Scoped],
) -> Result<(), NoMemory>
    ensures { OnOk result (map table_of sheets.new.items ≡ map table_of sheets.old.items ++ scope_tables scopes.now) }
{
    add_sheet(sheets, scopes_sheet(alloc, scopes))?;
    for scoped in scopes {
        add_sheet(sheets, entries_sheet(alloc, scoped))?;
    }
    Ok(())
}

/// Adds the sheets of the winners who sit by themselves, and of those who are not seated.
pub(crate) fn push_places(
    alloc: Global,
    sheets: &mut Vec<Sheet>,
    returns: &Returns,
    table: &Table,
) -> Result<(), NoMemory>
    ensures { OnOk result (map table_of sheets.new.items ≡ map table_of sheets.old.items ++ place_tables returns.now table.now) }
{
    let singles = placed_sheet(
        alloc,
        returns,
        table,
        "singles",
        SINGLES_TITLE,
        Placed::Single,
    );
    add_sheet(sheets, singles)?;
    let open = placed_sheet(alloc, returns, table, "open", OPEN_TITLE, Placed::Unseated);
    add_sheet(sheets, open)?;
    Ok(())
}

// Adds the sheets of contested lists, and of the winners who sit by themselves or not at all.
fn push_winner_sheets(
    alloc: Global,
    sheets: &mut Vec<Sheet>,
    setting: &Setting<'_>,
    table: &Table,
) -> Result<(), NoMemory>
    ensures { OnOk result ((ranked : List Ranked)
        × AreCovered setting.now.book.now.last.seating setting.now.book.now.eligible.items table.now setting.now.returns.now ranked
        × (map table_of sheets.new.items ≡ map table_of sheets.old.items ++ winner_tables setting.now.returns.now table.now ranked)) }
{
    add_sheet(sheets, covering_sheet(alloc, setting, table))?;
    push_places(alloc, sheets, setting.returns, table)?;
    Ok(())
}

/// The law, and the parties with who takes part; with their seats where a table is known.
pub(crate) fn first_sheets(
    alloc: Global,
    setting: &Setting<'_>,
    table: Option<&Table>,
) -> Result<Vec<Sheet>, NoMemory>
    ensures { IfOk result (λ sheets. map table_of sheets.items ≡ first_tables setting.now.book.now setting.now.returns.now (option_map (λ t. t.now) table.entry)) }
{
    let mut sheets: Vec<Sheet> = Vec::new(alloc);
    add_sheet(&mut sheets, law_sheet(alloc, setting, table))?;
    add_sheet(&mut sheets, parties_sheet(alloc, setting, table))?;
    Ok(sheets)
}

/// The sheets of one count: the law; the parties, and who takes part; the lists; the scopes and their entries; contested lists; winners who sit by
/// themselves, and who are not seated.
pub(crate) fn report_sheets(
    alloc: Global,
    setting: &Setting<'_>,
    counted: &Counted,
) -> Result<Vec<Sheet>, NoMemory>
    requires { HoldsStages (book_of setting.now.book.now) setting.now.returns.now counted.now.columns.items }
    ensures { IfOk result (λ sheets. IsCountReport setting.now.book.now setting.now.returns.now counted.now (map table_of sheets.items)) }
{
    let table = &counted.table;
    let mut sheets = first_sheets(alloc, setting, Some(table))?;
    add_sheet(
        &mut sheets,
        lists_sheet(alloc, setting.returns, table, false),
    )?;
    let scopes = all_scopes(alloc, setting, counted)?;
    push_scope_sheets(alloc, &mut sheets, scopes.as_slice())?;
    push_winner_sheets(alloc, &mut sheets, setting, table)?;
    Ok(sheets)
}
