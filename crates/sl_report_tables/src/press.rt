//! The sheets of a press report: the parties in the order of their seats, who won the last seats of the country, and what the largest party of those left
//! out lacks.

ghost use Rattle.std.specs.List.{AllZip};
ghost use Rattle.std.specs.Prelude.{◌≡◌, ◌++◌, IfOk, List, OnOk, filter, map, option_map, take};
ghost use Rattle.sl_report_forms.specs.Cells.{Content, content_of};
ghost use Rattle.sl_report_forms.specs.Tables.{blank_table, contents_of, heads_of, table_of, with_rows};
ghost use Rattle.sl_report_parties.specs.Earlier.{all_before};
ghost use Rattle.sl_report_parties.specs.Press.{ArePressed};
ghost use Rattle.sl_report_parties.specs.declared.press.Pressed.{Pressed};
ghost use Rattle.sl_report_tables.specs.Press.{IsLackingRow, IsLackingTable, change_since, gone_row, gone_rows, is_whole, named_columns, others_before, others_row, others_rows, press_row, press_table, sum_row, won_cell};
ghost use Rattle.sl_report_tables.specs.Reports.{IsPressReport};
ghost use Rattle.sl_report_tables.specs.Scopes.{scopes_table};
ghost use Rattle.sl_law_meaning.specs.book.Books.{book_of};
ghost use Rattle.sl_law_meaning.specs.meaning.Counts.{HoldsStages};
ghost use Rattle.sl_law_meaning.specs.returns.Facts.{all_valid_votes};

use crate::counted::{all_scopes, law_sheet};
use crate::full_names::FullNames;
use crate::naming::owned;
use crate::rows::{add_sheet, name, percent, rounded};
use crate::scopes::{SCOPES, scope_row};
use crate::texts::{LAST_SEATS_TITLE, LEFT_OUT_TITLE, PRESS_TITLE, WITHOUT_PARTY};
use sl_base_quotients::NoMemory;
use sl_explain_texts::Message;
use sl_report_forms::{ALL, Cell, ColumnForm, Look, Sheet, Title};
use sl_report_parties::{
    EarlierParty, Pressed, Setting, Standing, all_before, all_votes, by_seats, gone, lacking_votes,
    lacking_winners, left_out, seats_before, seats_in_all, seats_without_party, winners_of,
};
use sl_report_results::{Counted, Scoped};
use sl_stages::{Item, Returns, Scope, Table};
use std::alloc::Global;

// The columns of a party's names: with full names both, and else its name alone.
const BOTH_NAMES: [ColumnForm; 2] = [
    ("party", "party", "Partei", Look::Text(12)),
    ("party_name", "name", "Name", Look::Text(30)),
];

const ONE_NAME: [ColumnForm; 2] = [
    ("party", "", "", Look::Hidden),
    ("party_name", "party", "Partei", Look::Text(30)),
];

const PRESS: [ColumnForm; 7] = [
    ("seats", "seats", "Sitze", Look::Number),
    ("before", "before", "zuvor", Look::Number),
    ("change", "change", "Änderung", Look::Number),
    ("won", "won", "gewonnen", Look::Number),
    ("direct", "seated", "mit Sitz", Look::Number),
    ("valid", "votes", "Stimmen", Look::Number),
    ("percent", "percent", "Prozent", Look::Number),
];

#[rattlefmt::skip]
const LEFT_OUT: [ColumnForm; 4] = [
    ("valid", "votes", "Stimmen", Look::Number),
    ("percent", "percent", "Prozent", Look::Number),
    ("votes_short", "lacks votes", "Stimmen fehlen", Look::Number),
    ("winners_short", "lacks winners", "Sieger fehlen", Look::Number),
];

// A sheet without rows, whose columns begin with the names of a party.
fn named_sheet(
    alloc: Global,
    key: &'static str,
    title: Message,
    are_full: bool,
    columns: &[ColumnForm],
) -> Result<Sheet, NoMemory>
    ensures { IfOk result (λ s. table_of s ≡ blank_table key.now (named_columns are_full ++ heads_of columns.now)) }
{
    let names = if are_full { &BOTH_NAMES } else { &ONE_NAME };
    let mut sheet = Sheet::new(alloc, key, Title::Words(title), names)?;
    sheet.push_columns(columns).and(Ok(sheet))
}

// By how many seats there are more or fewer than before, where these are known.
fn change(seats: u64, before: Option<u64>) -> Cell
    ensures { content_of result ≡ change_since seats before }
{
    match before {
        Some(before) => Cell::Change(seats, before),
        None => Cell::Empty,
    }
}

// A number of winners, where the returns have some.
fn won(returns: &Returns, winners: u64) -> Cell
    ensures { content_of result ≡ won_cell returns.now winners }
{
    if returns.wins() > 0 {
        Cell::Number(winners)
    } else {
        Cell::Empty
    }
}

// The row of a party, of so many valid votes in all.
fn pressed_row(
    alloc: Global,
    returns: &Returns,
    pressed: Pressed,
    valid: u64,
) -> Result<Vec<Cell>, NoMemory>
    requires { valid ≡ all_valid_votes returns.now }
    ensures { IfOk result (λ row. contents_of row.items ≡ press_row returns.now pressed) }
{
    let votes = pressed.part.votes.valid;
    let seats = pressed.seats.seats;
    Ok(vec![in alloc;
        Cell::Entry(Item::Party(pressed.party)),
        name(Item::Party(pressed.party)),
        Cell::Number(seats),
        Cell::known(pressed.before),
        change(seats, pressed.before),
        won(returns, pressed.part.winners),
        won(returns, pressed.seats.direct),
        Cell::Number(votes),
        rounded(votes, valid),
    ]?)
}

// The seats of all parties of an earlier table, where one is given.
fn all_seats_before(earlier: Option<&[EarlierParty<'_>]>) -> Option<u64>
    ensures { result ≡ option_map all_before (option_map (λ all. all.now) earlier.entry) }
{
    match earlier {
        Some(earlier) => Some(all_before(earlier)),
        None => None,
    }
}

// The row of all together, of so many valid votes in all.
fn sum_row(
    alloc: Global,
    returns: &Returns,
    table: &Table,
    earlier: Option<&[EarlierParty<'_>]>,
    valid: u64,
) -> Result<Vec<Cell>, NoMemory>
    requires { valid ≡ all_valid_votes returns.now }
    ensures { IfOk result (λ row. contents_of row.items ≡ sum_row returns.now table.now (option_map (λ all. all.now) earlier.entry)) }
{
    let all = seats_in_all(table);
    let before = all_seats_before(earlier);
    Ok(vec![in alloc;
        Cell::Empty,
        Cell::Word(ALL),
        Cell::Number(all.seats),
        Cell::known(before),
        change(all.seats, before),
        won(returns, returns.wins() as u64),
        won(returns, all.direct),
        Cell::Number(valid),
        rounded(valid, valid),
    ]?)
}

// The row of a party that had seats, and that the returns do not have.
fn gone_row(alloc: Global, full: &FullNames, party: EarlierParty<'_>) -> Result<Vec<Cell>, NoMemory>
    ensures { IfOk result (λ row. contents_of row.items ≡ gone_row party.entry) }
{
    let short = owned(alloc, party.name)?;
    let full = owned(alloc, full.full(party.name).unwrap_or(party.name))?;
    Ok(vec![in alloc;
        Cell::Text(short),
        Cell::Prose(full),
        Cell::Number(0),
        Cell::Number(party.seats),
        Cell::Change(0, party.seats),
        Cell::Empty,
        Cell::Empty,
        Cell::Empty,
        Cell::Empty,
    ]?)
}

// Adds the rows of the parties of an earlier table, if one is given, that had seats and that the returns do not have.
#[tactic(auto, using(crate::proofs::MoreRows::rows_next))]
fn push_gone(
    alloc: Global,
    sheet: &mut Sheet,
    full: &FullNames,
    returns: &Returns,
    earlier: Option<&[EarlierParty<'_>]>,
) -> Result<(), NoMemory>
    ensures { OnOk result (table_of sheet.new ≡ with_rows (table_of sheet.old) (gone_rows returns.now (option_map (λ all. all.now) earlier.entry))) }
{
    let Some(earlier) = earlier else {
        return Ok(());
    };
    let parties = gone(alloc, returns, earlier)?;
    for party in parties.as_slice() {
        sheet.push(gone_row(alloc, full, *party)?)?;
    }
    Ok(())
}

// The seats of winners without a party in an earlier table, where one is given.
fn others_before(earlier: Option<&[EarlierParty<'_>]>) -> Option<u64>
    ensures { result ≡ others_before (option_map (λ all. all.now) earlier.entry) }
{
    match earlier {
        Some(earlier) => Some(seats_before(b"", earlier)),
        None => None,
    }
}

// The row of the winners without a party, who are so many.
fn others_row(
    alloc: Global,
    returns: &Returns,
    table: &Table,
    earlier: Option<&[EarlierParty<'_>]>,
) -> Result<Vec<Cell>, NoMemory>
    ensures { IfOk result (λ row. contents_of row.items ≡ others_row returns.now table.now (option_map (λ all. all.now) earlier.entry)) }
{
    let seats = seats_without_party(table, returns);
    let before = others_before(earlier);
    Ok(vec![in alloc;
        Cell::Empty,
        Cell::Word(WITHOUT_PARTY),
        Cell::Number(seats),
        Cell::known(before),
        change(seats, before),
        Cell::Number(winners_of(returns, None)),
        Cell::Number(seats),
        Cell::Empty,
        Cell::Empty,
    ]?)
}

// Adds the row of the winners without a party, where there are some, or some sat before.
fn push_others(
    alloc: Global,
    sheet: &mut Sheet,
    returns: &Returns,
    table: &Table,
    earlier: Option<&[EarlierParty<'_>]>,
) -> Result<(), NoMemory>
    ensures { OnOk result (table_of sheet.new ≡ with_rows (table_of sheet.old) (others_rows returns.now table.now (option_map (λ all. all.now) earlier.entry))) }
{
    if winners_of(returns, None) > 0 || others_before(earlier).unwrap_or(0) > 0 {
        return sheet.push(others_row(alloc, returns, table, earlier)?);
    }
    Ok(())
}

// The parties with a seat or a constituency, now or before, and all together.
fn press_sheet(
    alloc: Global,
    setting: &Setting<'_>,
    full: &FullNames,
    are_full: bool,
    table: &Table,
    earlier: Option<&[EarlierParty<'_>]>,
) -> Result<Sheet, NoMemory>
    ensures { IfOk result (λ s. (found : List Pressed)
        × ArePressed setting.now.book.now.eligible.items table.now setting.now.returns.now (option_map (λ all. all.now) earlier.entry) found
        × (table_of s ≡ press_table are_full setting.now.returns.now table.now (option_map (λ all. all.now) earlier.entry) found)) }
{
    let found = by_seats(alloc, setting, table, earlier)?;
    let returns = setting.returns;
    let valid = all_votes(returns).valid;
    let mut sheet = named_sheet(alloc, "press", PRESS_TITLE, are_full, &PRESS)?;
    for pressed in found.as_slice() {
        sheet.push(pressed_row(alloc, returns, *pressed, valid)?)?;
    }
    push_gone(alloc, &mut sheet, full, returns, earlier)?;
    push_others(alloc, &mut sheet, returns, table, earlier)?;
    sheet.push(sum_row(alloc, returns, table, earlier, valid)?)?;
    Ok(sheet)
}

// Whether a scope is the whole country.
fn is_whole(scoped: &Scoped) -> bool
    ensures { result ≡ is_whole scoped.now }
{
    matches!(scoped.scope, Scope::All)
}

// A line for each scope of the whole country.
#[tactic(auto, using(crate::proofs::MoreRows::rows_kept))]
fn whole_sheet(alloc: Global, scopes: &[Scoped]) -> Result<Sheet, NoMemory>
    ensures { IfOk result (λ s. table_of s ≡ scopes_table (filter is_whole scopes.now)) }
{
    let mut sheet = Sheet::new(alloc, "scopes", Title::Words(LAST_SEATS_TITLE), &SCOPES)?;
    for scoped in scopes {
        if is_whole(scoped) {
            sheet.push(scope_row(alloc, scoped)?)?;
        }
    }
    Ok(sheet)
}

// The row of a party that is left out, with what it lacks.
fn lacking_row(
    alloc: Global,
    setting: &Setting<'_>,
    standing: Standing,
) -> Result<Vec<Cell>, NoMemory>
    ensures { IfOk result (λ row. IsLackingRow setting.now.book.now.eligible.items setting.now.returns.now standing (contents_of row.items)) }
{
    let conditions = setting.book.eligible.as_slice();
    let valid = all_votes(setting.returns).valid;
    let part = standing.part;
    Ok(vec![in alloc;
        Cell::Entry(Item::Party(standing.party)),
        name(Item::Party(standing.party)),
        Cell::Number(part.votes.valid),
        percent(part.votes.valid, valid),
        Cell::known(lacking_votes(conditions, part, valid)),
        Cell::known(lacking_winners(conditions, part)),
    ]?)
}

// Adds the row of the first of these parties, if there is one.
fn push_first(
    alloc: Global,
    sheet: &mut Sheet,
    setting: &Setting<'_>,
    found: &[Standing],
) -> Result<(), NoMemory>
    ensures { OnOk result ((rows : List (List Content)) × AllZip (IsLackingRow setting.now.book.now.eligible.items setting.now.returns.now) (take 1 found.now) rows × (table_of sheet.new ≡ with_rows (table_of sheet.old) rows)) }
{
    match found.first() {
        Some(first) => sheet.push(lacking_row(alloc, setting, *first)?),
        None => Ok(()),
    }
}

// The largest party of those left out.
fn lacking_sheet(alloc: Global, setting: &Setting<'_>, are_full: bool) -> Result<Sheet, NoMemory>
    ensures { IfOk result (λ s. IsLackingTable are_full setting.now.book.now.eligible.items setting.now.returns.now (table_of s)) }
{
    let found = left_out(alloc, setting)?;
    let mut sheet = named_sheet(alloc, "left_out", LEFT_OUT_TITLE, are_full, &LEFT_OUT)?;
    push_first(alloc, &mut sheet, setting, found.as_slice()).and(Ok(sheet))
}

/// The sheets of a press report on one count: the law; the parties with seats or constituencies, in the order of their seats, and all together, beside
/// the seats of an earlier table, if one is given; who won
/// the last seats of the country and has the next claims; and what the largest party of those left out lacks.
pub(crate) fn press_sheets(
    alloc: Global,
    setting: &Setting<'_>,
    full: &FullNames,
    counted: &Counted,
    earlier: Option<&[EarlierParty<'_>]>,
) -> Result<Vec<Sheet>, NoMemory>
    requires { HoldsStages (book_of setting.now.book.now) setting.now.returns.now counted.now.columns.items }
    ensures { IfOk result (λ sheets. IsPressReport setting.now.book.now setting.now.returns.now (option_map (λ all. all.now) earlier.entry) counted.now
        (map table_of sheets.items)) }
{
    let are_full = !full.is_empty();
    let table = &counted.table;
    let scopes = all_scopes(alloc, setting, counted)?;
    let mut sheets: Vec<Sheet> = Vec::new(alloc);
    add_sheet(&mut sheets, law_sheet(alloc, setting, Some(table)))?;
    add_sheet(
        &mut sheets,
        press_sheet(alloc, setting, full, are_full, table, earlier),
    )?;
    add_sheet(&mut sheets, whole_sheet(alloc, scopes.as_slice()))?;
    add_sheet(&mut sheets, lacking_sheet(alloc, setting, are_full))?;
    Ok(sheets)
}
