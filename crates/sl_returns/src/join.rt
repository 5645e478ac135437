//! The records of each kind, tested and joined to the returns.

ghost use Rattle.std.specs.Prelude.{◌≡◌, ◌<◌, IfErr, OnOk, IsOk, Some, false};
ghost use Rattle.csv.specs.Records.{fields_of};
ghost use Rattle.sl_law_meaning.specs.returns.Votes.{IsListVotes};
ghost use Rattle.sl_law_meaning.specs.returns.Election.{lands_of, parties_of, has_list, with_list};
ghost use Rattle.sl_returns.specs.Faults.{of_record};
ghost use Rattle.sl_returns.specs.Tests.{Pass, Refuse, fills_list, house_tests, land_tests, party_tests, list_tests, win_tests, lot_tests, record_tests};
ghost use Rattle.sl_returns.specs.inner.Indexed.{index_of};
ghost use Rattle.sl_returns.specs.inner.Joining.{with_house_of, with_land_of, with_party_of, with_list_of, with_win_of, with_lot_of, with_record, OwnFault};

use crate::cells::{
    blanks, cell, ensure, ensure_cell, known_name, known_or_none, new_name, number, number_or_none,
};
use crate::fault::{FaultKind, RecordFault};
use crate::header::Version;
use crate::index::{Index, add_name};
use crate::lot::ToldLot;
use crate::near::Near;
use crate::schema::{A, B, C, COLUMNS, KIND, Kind, LAND, PARTY, Quantity};
use csv::ByteRecord;
use sl_base_quotients::NoMemory;
use sl_stages::{ListVotes, MAX_LANDS, MAX_LOTS, MAX_PARTIES, MAX_WINS, Returns};

// What the returns answer to a record that passed its tests.
fn kept(answer: Result<(), NoMemory>) -> Result<(), RecordFault>
    ensures ok { OnOk result (IsOk answer) }
    ensures err { IfErr result (λ f. f ≡ of_record FaultKind.NoMemory) }
{
    answer.or(Err(FaultKind::NoMemory.of_record()))
}

// Joins the house.
#[tactic(auto, using(crate::proofs::TestLemmas::passes, crate::proofs::TestLemmas::fails))]
fn join_house(returns: &mut Returns, fields: &ByteRecord) -> Result<(), RecordFault>
    ensures joined { OnOk result (Pass (house_tests returns.old (fields_of fields.now)) × (returns.new ≡ with_house_of returns.old (fields_of fields.now))) }
    ensures refused { IfErr result (Refuse (house_tests returns.old (fields_of fields.now))) }
    ensures unchanged { OwnFault result (returns.new ≡ returns.old) }
{
    blanks(Kind::House, fields)?;
    let seats = number(A, cell(fields, A), Quantity::House)?;
    ensure(returns.house().is_none(), FaultKind::Twice)?;
    returns.set_house(seats);
    Ok(())
}

// Joins a Land.
#[tactic(auto, using(crate::proofs::TestLemmas::passes, crate::proofs::TestLemmas::fails))]
fn join_land(
    returns: &mut Returns,
    index: &mut Index,
    fields: &ByteRecord,
) -> Result<(), RecordFault>
    requires index { index.old ≡ index_of returns.old }
    ensures joined { OnOk result (Pass (land_tests returns.old (fields_of fields.now)) × (returns.new ≡ with_land_of returns.old (fields_of fields.now))) }
    ensures index { OnOk result (index.new ≡ index_of returns.new) }
    ensures refused { IfErr result (Refuse (land_tests returns.old (fields_of fields.now))) }
    ensures unchanged { OwnFault result ((returns.new ≡ returns.old) × (index.new ≡ index.old)) }
{
    blanks(Kind::Land, fields)?;
    let name = cell(fields, LAND);
    new_name(LAND, name, index.lands.find(name))?;
    let population = number(A, cell(fields, A), Quantity::Population)?;
    ensure(returns.lands() < MAX_LANDS, FaultKind::TooMany)?;
    kept(returns.add_land(name, population))?;
    kept(add_name(&mut index.lands, name))
}

// Joins a party.
#[tactic(auto, using(crate::proofs::TestLemmas::passes))]
fn join_party(
    returns: &mut Returns,
    index: &mut Index,
    fields: &ByteRecord,
) -> Result<(), RecordFault>
    requires index { index.old ≡ index_of returns.old }
    ensures joined { OnOk result (Pass (party_tests returns.old (fields_of fields.now)) × (returns.new ≡ with_party_of returns.old (fields_of fields.now))) }
    ensures index { OnOk result (index.new ≡ index_of returns.new) }
    ensures refused { IfErr result (Refuse (party_tests returns.old (fields_of fields.now))) }
    ensures unchanged { OwnFault result ((returns.new ≡ returns.old) × (index.new ≡ index.old)) }
{
    blanks(Kind::Party, fields)?;
    let name = cell(fields, PARTY);
    new_name(PARTY, name, index.parties.find(name))?;
    let minority = number(A, cell(fields, A), Quantity::Minority)?;
    ensure(returns.parties() < MAX_PARTIES, FaultKind::TooMany)?;
    kept(returns.add_party(name, minority == 1))?;
    kept(add_name(&mut index.parties, name))
}

// Keeps a list, with the names left on it, if they are given.
fn keep_list(
    returns: &mut Returns,
    land: usize,
    party: usize,
    votes: ListVotes,
) -> Result<(), RecordFault>
    requires land { land < lands_of returns.old }
    requires party { party < parties_of returns.old }
    requires new { has_list returns.old land party ≡ false }
    requires votes { IsListVotes votes }
    ensures kept { OnOk result (returns.new ≡ with_list returns.old land party votes) }
    ensures wants { IfErr result (λ f. f ≡ of_record FaultKind.NoMemory) }
{
    kept(returns.add_list(land, party, votes.valid, votes.counted))?;
    if let Some(names) = votes.slate {
        returns.set_slate(land, party, names);
    }
    Ok(())
}

// Whether the cell of the names left on a list is empty where they can't be given.
fn fills_list(version: Version, fields: &ByteRecord) -> bool
    ensures { result ≡ fills_list version (fields_of fields.now) }
{
    version.may_tell_slate() || cell(fields, C).is_empty()
}

// Joins a list.
#[tactic(auto, using(crate::proofs::TestLemmas::passes))]
fn join_list(
    returns: &mut Returns,
    index: &Index,
    near: &mut Near,
    version: Version,
    fields: &ByteRecord,
) -> Result<(), RecordFault>
    requires index { index.now ≡ index_of returns.old }
    ensures joined { OnOk result (Pass (list_tests version returns.old (fields_of fields.now)) × (returns.new ≡ with_list_of returns.old (fields_of fields.now))) }
    ensures refused { IfErr result (Refuse (list_tests version returns.old (fields_of fields.now))) }
    ensures unchanged { OwnFault result (returns.new ≡ returns.old) }
{
    ensure_cell(fills_list(version, fields), FaultKind::Fields, C)?;
    let land_name = cell(fields, LAND);
    let land = near.known_land(&index.lands, land_name)?;
    let party_name = cell(fields, PARTY);
    let party = near.known_party(&index.parties, party_name)?;
    *near = Near::behind(land, party);
    let valid = number(A, cell(fields, A), Quantity::Valid)?;
    let counted = number(B, cell(fields, B), Quantity::Counted)?;
    let slate = number_or_none(C, cell(fields, C), Quantity::Slate)?;
    ensure(counted <= valid, FaultKind::Counted)?;
    ensure(!returns.is_list(land, party), FaultKind::Twice)?;
    let votes = ListVotes {
        valid,
        counted,
        slate,
    };
    keep_list(returns, land, party, votes)
}

// Joins a winner.
#[tactic(auto, using(crate::proofs::TestLemmas::passes))]
fn join_win(
    returns: &mut Returns,
    index: &mut Index,
    fields: &ByteRecord,
) -> Result<(), RecordFault>
    requires index { index.old ≡ index_of returns.old }
    ensures joined { OnOk result (Pass (win_tests returns.old (fields_of fields.now)) × (returns.new ≡ with_win_of returns.old (fields_of fields.now))) }
    ensures index { OnOk result (index.new ≡ index_of returns.new) }
    ensures refused { IfErr result (Refuse (win_tests returns.old (fields_of fields.now))) }
    ensures unchanged { OwnFault result ((returns.new ≡ returns.old) × (index.new ≡ index.old)) }
{
    let land_name = cell(fields, LAND);
    let land = known_name(LAND, land_name, index.lands.find(land_name))?;
    let party_name = cell(fields, PARTY);
    let party = known_or_none(PARTY, party_name, index.parties.find(party_name))?;
    let name = cell(fields, A);
    new_name(A, name, index.winners.find(name))?;
    let first = number(B, cell(fields, B), Quantity::First)?;
    let valid = number(C, cell(fields, C), Quantity::ValidFirst)?;
    ensure(first <= valid, FaultKind::Range)?;
    ensure(returns.wins() < MAX_WINS, FaultKind::TooMany)?;
    kept(returns.add_win(land, party, name, first, valid))?;
    kept(add_name(&mut index.winners, name))
}

// Joins a lot.
#[tactic(auto, using(crate::proofs::TestLemmas::passes))]
fn join_lot(
    returns: &mut Returns,
    index: &mut Index,
    fields: &ByteRecord,
) -> Result<(), RecordFault>
    requires index { index.old ≡ index_of returns.old }
    ensures joined { OnOk result (Pass (lot_tests returns.old (fields_of fields.now)) × (returns.new ≡ with_lot_of returns.old (fields_of fields.now))) }
    ensures index { OnOk result (index.new ≡ index_of returns.new) }
    ensures refused { IfErr result (Refuse (lot_tests returns.old (fields_of fields.now))) }
    ensures unchanged { OwnFault result ((returns.new ≡ returns.old) × (index.new ≡ index.old)) }
{
    let lot = ToldLot::read(index, fields)?;
    ensure(!index.lots.contains(&lot), FaultKind::Twice)?;
    ensure(returns.lots().len() < MAX_LOTS, FaultKind::TooMany)?;
    kept(returns.add_lot(lot.land, lot.party, lot.stage, lot.win))?;
    kept(index.lots.add(&lot))
}

/// Joins a record after a header of that version to the returns, and its name or its lot to their index. `near` is
/// where a list mostly stands.
///
/// # Errors
///
/// The fault of the first test that the record fails; or, where it passes, out of memory.
pub(crate) fn join(
    returns: &mut Returns,
    index: &mut Index,
    near: &mut Near,
    version: Version,
    fields: &ByteRecord,
) -> Result<(), RecordFault>
    requires index { index.old ≡ index_of returns.old }
    ensures joined { OnOk result (Pass (record_tests version returns.old (fields_of fields.now)) × (returns.new ≡ with_record returns.old (fields_of fields.now))) }
    ensures index { OnOk result (index.new ≡ index_of returns.new) }
    ensures refused { IfErr result (Refuse (record_tests version returns.old (fields_of fields.now))) }
    ensures unchanged { OwnFault result ((returns.new ≡ returns.old) × (index.new ≡ index.old)) }
{
    ensure(fields.len() == COLUMNS, FaultKind::Fields)?;
    match Kind::named(cell(fields, KIND)) {
        Some(Kind::House) => join_house(returns, fields),
        Some(Kind::Land) => join_land(returns, index, fields),
        Some(Kind::Party) => join_party(returns, index, fields),
        Some(Kind::List) => join_list(returns, index, near, version, fields),
        Some(Kind::Win) => join_win(returns, index, fields),
        Some(Kind::Lot) => join_lot(returns, index, fields),
        None => Err(FaultKind::Kind.of_cell(KIND)),
    }
}
