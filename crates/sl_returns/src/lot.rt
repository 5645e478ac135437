//! The lot that a record tells.

ghost use Rattle.std.specs.Prelude.{◌≡◌, ◌<◌, IfOk, IfErr, OnOk, None, length, if◌then◌else◌};
ghost use Rattle.std.specs.Option.{ForSome};
ghost use Rattle.csv.specs.Records.{fields_of};
ghost use Rattle.sl_base_quotients.specs.Names.{spelling_fault};
ghost use Rattle.sl_law_meaning.specs.returns.Election.{Election, IsLot};
ghost use Rattle.sl_returns.specs.Cells.{is_blank, number_in};
ghost use Rattle.sl_returns.specs.Records.{lot_of};
ghost use Rattle.sl_returns.specs.Tests.{Pass, FailBy, name_or_none_tests, lot_cell_tests, filled_tests, names_entry, names_winner_of_seats};
ghost use Rattle.sl_returns.specs.inner.Indexed.{index_of};
ghost use Rattle.sl_returns.specs.inner.Lots.{lot_told};

use crate::cells::{blanks, cell, ensure_cell, known_or_none, name};
use crate::fault::{FaultKind, RecordFault};
use crate::index::Index;
use crate::schema::{A, B, Kind, LAND, PARTY};
use csv::ByteRecord;
use sl_ratio::Names;

// What a record tells of a lot, by the numbers of what it names.
#[derive(Clone, Copy, PartialEq, Eq, Hash)]
pub(crate) struct ToldLot<'a> {
    pub(crate) land: Option<usize>,
    pub(crate) party: Option<usize>,
    pub(crate) stage: &'a [u8],
    pub(crate) win: Option<usize>,
}

impl<'a> ToldLot<'a> {
    // The lot that a record tells, whose cells it tests.
    pub(crate) fn read(index: &Index, fields: &'a ByteRecord) -> Result<ToldLot<'a>, RecordFault>
        ensures passed { (e : Election) → index.now ≡ index_of e → OnOk result (Pass (lot_cell_tests e (fields_of fields.now))) }
        ensures told { (e : Election) → index.now ≡ index_of e → IfOk result (λ l. lot_told l ≡ lot_of e.land_names e.party_names e.win_names (fields_of fields.now)) }
        ensures named { IfOk result (λ l. IsLot (length index.now.lands.names) (length index.now.parties.names) (length index.now.winners.names) (lot_told l)) }
        ensures spelled { IfOk result (λ l. spelling_fault l.stage.now ≡ None) }
        ensures failed { (e : Election) → index.now ≡ index_of e → IfErr result (FailBy (lot_cell_tests e (fields_of fields.now))) }
    {
        ensure_filled(fields)?;
        let land_name = cell(fields, LAND);
        let land = known_or_none(LAND, land_name, index.lands.find(land_name))?;
        let party_name = cell(fields, PARTY);
        let party = known_or_none(PARTY, party_name, index.parties.find(party_name))?;
        let stage = cell(fields, A);
        name(A, stage)?;
        let win_name = cell(fields, B);
        let win = win_or_none(&index.winners, win_name)?;
        Ok(ToldLot {
            land,
            party,
            stage,
            win,
        })
    }
}

// The number of the winner of that constituency, which is to be known. Most lots name none, and then none is looked for.
#[tactic(auto, unfolding(crate::specs::Tests::known_or_none_tests))]
fn win_or_none(winners: &Names, name: &[u8]) -> Result<Option<usize>, RecordFault>
    ensures passed { OnOk result (Pass (name_or_none_tests winners.now.names B name.now)) }
    ensures number { IfOk result (λ win. win ≡ (if is_blank name.now then None else number_in winners.now.names name.now)) }
    ensures within { IfOk result (λ win. ForSome win (λ number. number < length winners.now.names)) }
    ensures failed { IfErr result (FailBy (name_or_none_tests winners.now.names B name.now)) }
{
    if name.is_empty() {
        return Ok(None);
    }
    known_or_none(B, name, winners.find(name))
}

// Whether a lot names a Land or a party.
fn names_entry(fields: &ByteRecord) -> bool
    ensures { result ≡ names_entry (fields_of fields.now) }
{
    !cell(fields, LAND).is_empty() || !cell(fields, PARTY).is_empty()
}

// Whether a lot names a constituency exactly where its stage is `seats`.
fn names_winner_of_seats(fields: &ByteRecord) -> bool
    ensures { result ≡ names_winner_of_seats (fields_of fields.now) }
{
    let is_of_seats = cell(fields, A) == b"seats".as_slice();
    is_of_seats != cell(fields, B).is_empty()
}

// The tests that the cells that a lot must fill are filled, and the others are empty.
fn ensure_filled(fields: &ByteRecord) -> Result<(), RecordFault>
    ensures passed { OnOk result (Pass (filled_tests (fields_of fields.now))) }
    ensures failed { IfErr result (FailBy (filled_tests (fields_of fields.now))) }
{
    blanks(Kind::Lot, fields)?;
    ensure_cell(names_entry(fields), FaultKind::Fields, LAND)?;
    ensure_cell(names_winner_of_seats(fields), FaultKind::Fields, B)
}
