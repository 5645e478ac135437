//! The sheets of parties and of lists, and of the winners who sit by themselves or not at all.

ghost use Rattle.std.specs.Prelude.{◌≡◌, ◌<◌, ◌∷◌, [], IfOk, OnOk, Some, if◌then◌else◌, length, option_map, slice_get};
ghost use Rattle.sl_report_forms.specs.Tables.{contents_of, table_of, with_rows};
ghost use Rattle.sl_report_parties.specs.Seats.{party_seats};
ghost use Rattle.sl_report_tables.specs.Parties.{has_place, is_shown_list, list_row, lists_table, parties_table, party_row, placed_table, winner_row};
ghost use Rattle.sl_report_tables.specs.inner.SeatsBy.{seats_by};
ghost use Rattle.sl_law_meaning.specs.returns.Election.{lands_of, parties_of};
ghost use Rattle.sl_law_meaning.specs.returns.Facts.{all_valid_votes};

use crate::rows::{condition, name, party, party_name, percent, percent_exact};
use crate::texts::{LISTS_TITLE, NO_PARTY, PARTIES_TITLE};
use sl_base_quotients::NoMemory;
use sl_explain_texts::Message;
use sl_report_forms::{Cell, ColumnForm, Look, Sheet, Title};
use sl_report_parties::{Seats, Setting, all_votes, seats_by_party};
use sl_stages::{Item, ListSeats, Placed, Returns, Table, Win};
use std::alloc::Global;

#[rattlefmt::skip]
const PARTIES: [ColumnForm; 10] = [
    ("party", "", "", Look::Hidden),
    ("party_name", "party", "Partei", Look::Text(24)),
    ("valid", "valid", "gültig", Look::Number),
    ("percent", "percent", "Prozent", Look::Number),
    ("percent_exact", "", "", Look::Hidden),
    ("counted", "counted", "gezählt", Look::Number),
    ("condition", "takes part by", "zugelassen durch", Look::Text(14)),
    ("seats", "seats", "Sitze", Look::Number),
    ("direct", "direct", "direkt", Look::Number),
    ("vacant", "vacant", "unbesetzt", Look::Number),
];

const LISTS: [ColumnForm; 9] = [
    ("land", "", "", Look::Hidden),
    ("land_name", "Land", "Land", Look::Text(28)),
    ("party", "", "", Look::Hidden),
    ("party_name", "party", "Partei", Look::Text(28)),
    ("valid", "", "", Look::Hidden),
    ("counted", "counted", "gezählt", Look::Number),
    ("seats", "seats", "Sitze", Look::Number),
    ("direct", "direct", "direkt", Look::Number),
    ("vacant", "vacant", "unbesetzt", Look::Number),
];

#[rattlefmt::skip]
const WINNERS: [ColumnForm; 6] = [
    ("constituency", "", "", Look::Hidden),
    ("constituency_name", "constituency", "Wahlkreis", Look::Text(40)),
    ("land", "", "", Look::Hidden),
    ("land_name", "Land", "Land", Look::Text(26)),
    ("party", "", "", Look::Hidden),
    ("party_name", "party", "Partei", Look::Text(26)),
];

// The seats of each party, where a table is known.
fn seats_by(alloc: Global, table: Option<&Table>, returns: &Returns) -> Result<Vec<Seats>, NoMemory>
    ensures { IfOk result (λ seats. seats.items ≡ seats_by returns.now (option_map (λ t. t.now) table.entry)) }
{
    match table {
        Some(table) => seats_by_party(alloc, table, returns),
        None => Ok(Vec::new(alloc)),
    }
}

// The seats of a party, where a table is known, by those of each.
fn party_seats(
    table: Option<&Table>,
    returns: &Returns,
    seats: &[Seats],
    party: usize,
) -> Option<Seats>
    requires seats { seats.now ≡ seats_by returns.now (option_map (λ t. t.now) table) }
    requires party { party < parties_of returns.now }
    ensures { result ≡ option_map (λ t. party_seats t.now returns.now party) table.entry }
{
    seats.get(party).copied()
}

// The row of a party, of so many valid votes in all.
fn party_row(
    alloc: Global,
    setting: &Setting<'_>,
    table: Option<&Table>,
    seats: &[Seats],
    valid: u64,
    party: usize,
) -> Result<Vec<Cell>, NoMemory>
    requires seats { seats.now ≡ seats_by setting.now.returns.now (option_map (λ t. t.now) table) }
    requires party { party < parties_of setting.now.returns.now }
    requires valid { valid ≡ all_valid_votes setting.now.returns.now }
    ensures { IfOk result (λ row. contents_of row.items ≡ party_row setting.now.book.now.eligible.items setting.now.returns.now (option_map (λ t. t.now) table.entry) party) }
{
    let part = setting.part(party);
    let seats = party_seats(table, setting.returns, seats, party);
    let met = condition(setting.book.eligible.as_slice(), part.met);
    Ok(vec![in alloc;
        Cell::Entry(Item::Party(party)),
        name(Item::Party(party)),
        Cell::Number(part.votes.valid),
        percent(part.votes.valid, valid),
        percent_exact(part.votes.valid, valid),
        Cell::Number(part.votes.counted),
        met,
        Cell::known(seats.map(|seats| seats.seats)),
        Cell::known(seats.map(|seats| seats.direct)),
        Cell::known(seats.map(|seats| seats.vacant)),
    ]?)
}

/// Who takes part and by which condition, with the seats where a table is known.
pub(crate) fn parties_sheet(
    alloc: Global,
    setting: &Setting<'_>,
    table: Option<&Table>,
) -> Result<Sheet, NoMemory>
    ensures { IfOk result (λ s. table_of s ≡ parties_table setting.now.book.now.eligible.items setting.now.returns.now (option_map (λ t. t.now) table.entry)) }
{
    let mut sheet = Sheet::new(alloc, "parties", Title::Words(PARTIES_TITLE), &PARTIES)?;
    let valid = all_votes(setting.returns).valid;
    let seats = seats_by(alloc, table, setting.returns)?;
    let seats = seats.as_slice();
    for party in 0..setting.returns.parties() {
        sheet.push(party_row(alloc, setting, table, seats, valid, party)?)?;
    }
    Ok(sheet)
}

// The row of a list of the returns.
fn list_row(alloc: Global, returns: &Returns, list: ListSeats) -> Result<Vec<Cell>, NoMemory>
    requires land { list.land < lands_of returns.now }
    requires party { list.party < parties_of returns.now }
    ensures { IfOk result (λ row. contents_of row.items ≡ list_row returns.now list) }
{
    let valid = u64::from(returns.valid(list.land, list.party));
    let counted = u64::from(returns.counted(list.land, list.party));
    Ok(vec![in alloc;
        Cell::Entry(Item::Land(list.land)),
        name(Item::Land(list.land)),
        Cell::Entry(Item::Party(list.party)),
        name(Item::Party(list.party)),
        Cell::Number(valid),
        Cell::Number(counted),
        Cell::Number(list.seats),
        Cell::Number(list.direct),
        Cell::Number(list.vacant),
    ]?)
}

// Adds the row of a list of the returns.
fn push_list_row(
    alloc: Global,
    sheet: &mut Sheet,
    returns: &Returns,
    list: ListSeats,
) -> Result<(), NoMemory>
    requires { list.land < lands_of returns.now × list.party < parties_of returns.now }
    ensures { OnOk result (table_of sheet.new ≡ with_rows (table_of sheet.old) (list_row returns.now list ∷ [])) }
{
    sheet.push(list_row(alloc, returns, list)?)
}

// Adds the row of a list of the returns: of any, or if it has votes or seats.
fn push_list(
    alloc: Global,
    sheet: &mut Sheet,
    returns: &Returns,
    list: ListSeats,
    any: bool,
) -> Result<(), NoMemory>
    ensures { OnOk result (table_of sheet.new ≡ with_rows (table_of sheet.old) (if is_shown_list any returns.now list then list_row returns.now list ∷ [] else [])) }
{
    if list.land >= returns.lands() || list.party >= returns.parties() {
        return Ok(());
    }
    if !any && returns.valid(list.land, list.party) == 0 && list.seats == 0 {
        return Ok(());
    }
    push_list_row(alloc, sheet, returns, list)
}

/// The lists: all of them, or those that have votes or seats.
pub(crate) fn lists_sheet(
    alloc: Global,
    returns: &Returns,
    table: &Table,
    any: bool,
) -> Result<Sheet, NoMemory>
    ensures { IfOk result (λ s. table_of s ≡ lists_table any returns.now table.now) }
{
    let mut sheet = Sheet::new(alloc, "lists", Title::Words(LISTS_TITLE), &LISTS)?;
    for list in table.lists() {
        push_list(alloc, &mut sheet, returns, *list, any)?;
    }
    Ok(sheet)
}

// Whether a place is the wanted one.
fn has_place(wanted: Placed, place: Placed) -> bool
    ensures { result ≡ has_place wanted place }
{
    match (wanted, place) {
        (Placed::Single, Placed::Single) => true,
        (Placed::OnList, Placed::OnList) => true,
        (Placed::Unseated, Placed::Unseated) => true,
        (_, _) => false,
    }
}

// Adds the row of the winner of that number, if his place is the wanted one.
fn push_winner(
    alloc: Global,
    sheet: &mut Sheet,
    number: usize,
    win: Win,
    wanted: Placed,
    place: Placed,
) -> Result<(), NoMemory>
    ensures { OnOk result (table_of sheet.new ≡ with_rows (table_of sheet.old) (if has_place wanted place then winner_row (number, win) ∷ [] else [])) }
{
    if !has_place(wanted, place) {
        return Ok(());
    }
    sheet.push(vec![in alloc;
        Cell::Entry(Item::Win(number)),
        name(Item::Win(number)),
        Cell::Entry(Item::Land(win.land)),
        name(Item::Land(win.land)),
        party(win.party),
        party_name(win.party, NO_PARTY),
    ]?)
}

// The place of the winner of that number.
fn place_at(placed: &[Placed], number: usize) -> Placed
    requires { number < length placed.now }
    ensures { slice_get placed.now number ≡ Some result }
{
    placed[number]
}

/// The winners who sit there, under a key and a title.
pub(crate) fn placed_sheet(
    alloc: Global,
    returns: &Returns,
    table: &Table,
    key: &'static str,
    title: Message,
    wanted: Placed,
) -> Result<Sheet, NoMemory>
    ensures { IfOk result (λ s. table_of s ≡ placed_table key.now (has_place wanted) returns.now table.now) }
{
    let mut sheet = Sheet::new(alloc, key, Title::Words(title), &WINNERS)?;
    let placed = table.placed();
    for number in 0..returns.wins().min(placed.len()) {
        let win = returns.win(number);
        let place = place_at(placed, number);
        push_winner(alloc, &mut sheet, number, win, wanted, place)?;
    }
    Ok(sheet)
}
