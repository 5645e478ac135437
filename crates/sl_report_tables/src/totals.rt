//! The sheets of the totals of returns.

ghost use Rattle.std.specs.Prelude.{◌≡◌, ◌<◌, IfOk, OnOk, map, option_map};
ghost use Rattle.sl_report_forms.specs.Tables.{contents_of, table_of, with_rows};
ghost use Rattle.sl_report_parties.specs.Parts.{part_of};
ghost use Rattle.sl_report_tables.specs.Totals.{AreTotals, IsVotesRow, IsVotesTable, conditions_of, land_row, lands_table, totals_table, winners_table, won_rows};
ghost use Rattle.sl_law_meaning.specs.returns.Election.{lands_of, parties_of};
ghost use Rattle.sl_law_meaning.specs.returns.Facts.{all_valid_votes};

use crate::rows::{add_sheet, condition, name, one_row_sheet, percent, percent_exact};
use crate::texts::{LANDS_TITLE, PARTIES_TITLE, TOTALS_TITLE, WINNERS_TITLE};
use crate::warnings::warnings_sheet;
use sl_base_quotients::NoMemory;
use sl_explain_texts::Language;
use sl_report_forms::{Cell, ColumnForm, Look, Sheet, Title};
use sl_report_parties::{
    PartyPart, WinnerCounts, all_lists, all_people, all_votes, lacking_votes, lacking_winners,
    land_votes, lists_of, parts_of, winners_of,
};
use sl_stages::{Book, Cond, Item, Returns};
use std::alloc::Global;

const TOTALS: [ColumnForm; 8] = [
    ("valid", "valid", "gültig", Look::Number),
    ("counted", "counted", "gezählt", Look::Number),
    ("people", "people", "Einwohner", Look::Number),
    ("lands", "Länder", "Länder", Look::Number),
    ("parties", "parties", "Parteien", Look::Number),
    ("lists", "lists", "Listen", Look::Number),
    ("winners", "winners", "Sieger", Look::Number),
    ("independents", "without party", "ohne Partei", Look::Number),
];

#[rattlefmt::skip]
const VOTES: [ColumnForm; 11] = [
    ("party", "", "", Look::Hidden),
    ("party_name", "party", "Partei", Look::Text(24)),
    ("valid", "valid", "gültig", Look::Number),
    ("percent", "percent", "Prozent", Look::Number),
    ("percent_exact", "", "", Look::Hidden),
    ("counted", "counted", "gezählt", Look::Number),
    ("lists", "", "", Look::Hidden),
    ("winners", "winners", "Sieger", Look::Number),
    ("condition", "takes part by", "zugelassen durch", Look::Text(14)),
    ("votes_short", "lacks votes", "Stimmen fehlen", Look::Number),
    ("winners_short", "lacks winners", "Sieger fehlen", Look::Number),
];

const LANDS: [ColumnForm; 7] = [
    ("land", "", "", Look::Hidden),
    ("land_name", "Land", "Land", Look::Text(30)),
    ("people", "people", "Einwohner", Look::Number),
    ("valid", "valid", "gültig", Look::Number),
    ("counted", "counted", "gezählt", Look::Number),
    ("winners", "winners", "Sieger", Look::Number),
    ("independents", "without party", "ohne Partei", Look::Number),
];

const WINNERS: [ColumnForm; 5] = [
    ("land", "", "", Look::Hidden),
    ("land_name", "Land", "Land", Look::Text(34)),
    ("party", "", "", Look::Hidden),
    ("party_name", "party", "Partei", Look::Text(34)),
    ("winners", "winners", "Sieger", Look::Number),
];

// The sums of all returns.
fn totals_sheet(alloc: Global, returns: &Returns) -> Result<Sheet, NoMemory>
    ensures { IfOk result (λ s. table_of s ≡ totals_table returns.now) }
{
    let votes = all_votes(returns);
    let row = vec![in alloc;
        Cell::Number(votes.valid),
        Cell::Number(votes.counted),
        Cell::Number(all_people(returns)),
        Cell::Number(returns.lands() as u64),
        Cell::Number(returns.parties() as u64),
        Cell::Number(all_lists(returns)),
        Cell::Number(returns.wins() as u64),
        Cell::Number(winners_of(returns, None)),
    ]?;
    one_row_sheet(alloc, "totals", TOTALS_TITLE, &TOTALS, row)
}

// The row of a party that has so much, of so many valid votes in all.
fn party_row(
    alloc: Global,
    conditions: &[Cond],
    returns: &Returns,
    party: usize,
    part: PartyPart,
    valid: u64,
) -> Result<Vec<Cell>, NoMemory>
    requires party { party < parties_of returns.now }
    requires part { part ≡ part_of conditions.now returns.now party }
    requires valid { valid ≡ all_valid_votes returns.now }
    ensures { IfOk result (λ row. IsVotesRow conditions.now returns.now party (contents_of row.items)) }
{
    Ok(vec![in alloc;
        Cell::Entry(Item::Party(party)),
        name(Item::Party(party)),
        Cell::Number(part.votes.valid),
        percent(part.votes.valid, valid),
        percent_exact(part.votes.valid, valid),
        Cell::Number(part.votes.counted),
        Cell::Number(lists_of(returns, party)),
        Cell::Number(part.winners),
        condition(conditions, part.met),
        Cell::known(lacking_votes(conditions, part, valid)),
        Cell::known(lacking_winners(conditions, part)),
    ]?)
}

// The votes and winners of the parties.
fn votes_sheet(alloc: Global, conditions: &[Cond], returns: &Returns) -> Result<Sheet, NoMemory>
    ensures { IfOk result (λ s. IsVotesTable conditions.now returns.now (table_of s)) }
{
    let mut sheet = Sheet::new(alloc, "votes", Title::Words(PARTIES_TITLE), &VOTES)?;
    let valid = all_votes(returns).valid;
    let parts = parts_of(alloc, conditions, returns)?;
    for party in 0..returns.parties() {
        let part = parts[party];
        sheet.push(party_row(alloc, conditions, returns, party, part, valid)?)?;
    }
    Ok(sheet)
}

// The row of a Land.
fn land_row(alloc: Global, counts: &WinnerCounts<'_>, land: usize) -> Result<Vec<Cell>, NoMemory>
    requires { land < lands_of counts.now.returns.now }
    ensures { IfOk result (λ row. contents_of row.items ≡ land_row counts.now.returns.now land) }
{
    let votes = land_votes(counts.returns, land);
    Ok(vec![in alloc;
        Cell::Entry(Item::Land(land)),
        name(Item::Land(land)),
        Cell::Number(u64::from(counts.returns.population(land))),
        Cell::Number(votes.valid),
        Cell::Number(votes.counted),
        Cell::Number(counts.in_land(land)),
        Cell::Number(counts.independents(land)),
    ]?)
}

// The people, the votes and the winners of the Länder.
fn lands_sheet(alloc: Global, counts: &WinnerCounts<'_>) -> Result<Sheet, NoMemory>
    ensures { IfOk result (λ s. table_of s ≡ lands_table counts.now.returns.now) }
{
    let mut sheet = Sheet::new(alloc, "lands", Title::Words(LANDS_TITLE), &LANDS)?;
    for land in 0..counts.returns.lands() {
        sheet.push(land_row(alloc, counts, land)?)?;
    }
    Ok(sheet)
}

// Adds the winners of a Land by party.
fn push_winners(
    alloc: Global,
    sheet: &mut Sheet,
    counts: &WinnerCounts<'_>,
    land: usize,
) -> Result<(), NoMemory>
    ensures { OnOk result (table_of sheet.new ≡ with_rows (table_of sheet.old) (won_rows counts.now.returns.now land)) }
{
    for party in 0..counts.returns.parties() {
        let winners = counts.at(land, party);
        if winners > 0 {
            sheet.push(vec![in alloc;
                Cell::Entry(Item::Land(land)),
                name(Item::Land(land)),
                Cell::Entry(Item::Party(party)),
                name(Item::Party(party)),
                Cell::Number(winners),
            ]?)?;
        }
    }
    Ok(())
}

// The winners by Land and party.
fn winners_sheet(alloc: Global, counts: &WinnerCounts<'_>) -> Result<Sheet, NoMemory>
    ensures { IfOk result (λ s. table_of s ≡ winners_table counts.now.returns.now) }
{
    let mut sheet = Sheet::new(alloc, "winners", Title::Words(WINNERS_TITLE), &WINNERS)?;
    for land in 0..counts.returns.lands() {
        push_winners(alloc, &mut sheet, counts, land)?;
    }
    Ok(sheet)
}

// The conditions of a book, and none without one.
fn conditions_of(book: Option<&Book>) -> &[Cond]
    ensures { result.now ≡ conditions_of (option_map (λ b. b.now) book.entry) }
{
    match book {
        Some(book) => book.eligible.as_slice(),
        None => &[],
    }
}

/// The sheets of the totals: of all returns, by party, by Land, the winners by both, and warnings. With a book, who takes part by it.
pub(crate) fn total_sheets(
    alloc: Global,
    language: Language,
    book: Option<&Book>,
    returns: &Returns,
) -> Result<Vec<Sheet>, NoMemory>
    ensures { IfOk result (λ sheets. AreTotals (option_map (λ b. b.now) book.entry) returns.now (map table_of sheets.items)) }
{
    let conditions = conditions_of(book);
    let counts = WinnerCounts::new(alloc, returns)?;
    let mut sheets: Vec<Sheet> = Vec::new(alloc);
    add_sheet(&mut sheets, totals_sheet(alloc, returns))?;
    add_sheet(&mut sheets, votes_sheet(alloc, conditions, returns))?;
    add_sheet(&mut sheets, lands_sheet(alloc, &counts))?;
    add_sheet(&mut sheets, winners_sheet(alloc, &counts))?;
    add_sheet(&mut sheets, warnings_sheet(alloc, language, book, returns))?;
    Ok(sheets)
}
