//! Warnings of lots that decide nothing.

ghost use Rattle.std.specs.List.{range_with_len};
ghost use Rattle.std.specs.Prelude.{◌≡◌, ◌<◌, ◌++◌, ◌&&◌, OnOk, flat_map, is_some, length, map};
ghost use Rattle.sl_check.specs.inner.Known.{columns};
ghost use Rattle.sl_law_meaning.specs.book.Books.{book_of};
ghost use Rattle.sl_law_meaning.specs.book.Trees.{stage_of};
ghost use Rattle.sl_law_meaning.specs.meaning.Lots.{given_winner};
ghost use Rattle.sl_law_meaning.specs.returns.Facts.{is_in, is_of};
ghost use Rattle.sl_law_meaning.specs.returns.Election.{IsLot, lands_of, parties_of, wins_of};
ghost use Rattle.sl_report_parties.specs.Parts.{parts_of};
ghost use Rattle.sl_report_warnings.specs.Warnings.{has_entry, has_no_seats, has_place, is_last, lot_shape, names_entry, of_lot, of_numbered, of_placed, shape_named};

use crate::returns::warn;
use crate::takers::takes_part;
use crate::warning::Warning;
use sl_base_quotients::NoMemory;
use sl_check::{Columns, types_of};
use sl_report_parties::PartyPart;
use sl_stages::{Book, Lot, Returns, Seating, Shape, Stage, Win};

// The shape of the entries to which the stage of that name distributes seats, if there is such a stage and it distributes any.
fn shape_named(known: &Columns<'_>, stages: &[Stage], name: &[u8]) -> Option<Shape>
    ensures { result ≡ shape_named (columns known.now.stages.now known.now.types.now) name.now (map stage_of stages.now) }
{
    for stage in stages {
        if name == stage.name.as_bytes() {
            return known.given_shape(&stage.expr);
        }
    }
    None
}

// The shape at the stage that a lot names.
fn lot_shape(book: &Book, lot: &Lot) -> Option<Shape>
    ensures { result ≡ lot_shape (book_of book.now) lot.now }
{
    let stages = book.stages.as_slice();
    let types = types_of(stages);
    shape_named(&Columns::of(stages, &types), stages, lot.stage.as_bytes())
}

// Whether a lot names an entry of a column of that shape.
fn names_entry(shape: Option<Shape>, lot: &Lot) -> bool
    ensures { result ≡ names_entry shape lot.now }
{
    match (shape, lot.land, lot.party) {
        (Some(Shape::Party), None, Some(_)) => true,
        (Some(Shape::Land), Some(_), None) => true,
        (Some(Shape::List), Some(_), Some(_)) => true,
        _ => false,
    }
}

// Whether a winner is of that Land and that party.
fn is_winner_of(win: Win, land: usize, party: usize) -> bool
    ensures { result ≡ (is_in land win && is_of party win) }
{
    match win.party {
        Some(of) => win.land == land && of == party,
        None => false,
    }
}

// Whether a lot names the winner of a constituency with the winner's Land and party.
fn names_winner(returns: &Returns, lot: &Lot) -> bool
    requires { IsLot (lands_of returns.now) (parties_of returns.now) (wins_of returns.now) lot.now }
    ensures { result ≡ is_some (given_winner returns.now lot.now) }
{
    match (lot.land, lot.party, lot.win) {
        (Some(land), Some(party), Some(win)) => is_winner_of(returns.win(win), land, party),
        _ => false,
    }
}

// Whether a lot is of the last clause.
fn is_last(lot: &Lot) -> bool
    ensures { result ≡ is_last lot.now }
{
    lot.stage.as_bytes() == b"seats".as_slice()
}

// Whether the rulebook may draw a lot where this one is.
fn has_place(book: &Book, lot: &Lot) -> bool
    ensures { result ≡ has_place (book_of book.now) lot.now }
{
    if is_last(lot) {
        matches!(book.last.seating, Seating::Cover)
    } else {
        lot_shape(book, lot).is_some()
    }
}

// Whether a lot names one of those among whom it would be drawn.
fn has_entry(book: &Book, returns: &Returns, lot: &Lot) -> bool
    requires { IsLot (lands_of returns.now) (parties_of returns.now) (wins_of returns.now) lot.now }
    ensures { result ≡ has_entry (book_of book.now) returns.now lot.now }
{
    if is_last(lot) {
        names_winner(returns, lot)
    } else {
        names_entry(lot_shape(book, lot), lot)
    }
}

// Whether a lot names a party that takes no part, or a list that does not exist.
fn has_no_seats(book: &Book, returns: &Returns, parts: &[PartyPart], lot: &Lot) -> bool
    requires parts { parts.now ≡ parts_of book.now.eligible.items returns.now }
    requires lot { IsLot (lands_of returns.now) (parties_of returns.now) (wins_of returns.now) lot.now }
    ensures { result ≡ has_no_seats (book_of book.now) returns.now lot.now }
{
    match (lot.land, lot.party) {
        (_, None) => false,
        (None, Some(party)) => !takes_part(book, returns, parts, party),
        (Some(land), Some(party)) => {
            !(takes_part(book, returns, parts, party) && returns.is_list(land, party))
        }
    }
}

// Warns of a lot that has a place, and decides nothing.
fn warn_of_placed(
    found: &mut Vec<Warning>,
    book: &Book,
    returns: &Returns,
    parts: &[PartyPart],
    number: usize,
    lot: &Lot,
) -> Result<(), NoMemory>
    requires parts { parts.now ≡ parts_of book.now.eligible.items returns.now }
    requires lot { IsLot (lands_of returns.now) (parties_of returns.now) (wins_of returns.now) lot.now }
    ensures { OnOk result (found.new.items ≡ found.old.items ++ of_placed (book_of book.now) returns.now number lot.now) }
{
    if has_entry(book, returns, lot) {
        let has_none = has_no_seats(book, returns, parts, lot);
        return warn(found, has_none, Warning::LotOfNoSeats { lot: number });
    }
    let shape = lot_shape(book, lot);
    found.push(Warning::LotOfNoEntry { lot: number, shape })?;
    Ok(())
}

// Warns of a lot that decides nothing.
fn warn_of_lot(
    found: &mut Vec<Warning>,
    book: &Book,
    returns: &Returns,
    parts: &[PartyPart],
    number: usize,
    lot: &Lot,
) -> Result<(), NoMemory>
    requires parts { parts.now ≡ parts_of book.now.eligible.items returns.now }
    requires lot { IsLot (lands_of returns.now) (parties_of returns.now) (wins_of returns.now) lot.now }
    ensures { OnOk result (found.new.items ≡ found.old.items ++ of_lot (book_of book.now) returns.now number lot.now) }
{
    if has_place(book, lot) {
        return warn_of_placed(found, book, returns, parts, number, lot);
    }
    found.push(Warning::LotUnused { lot: number })?;
    Ok(())
}

/// Warns of lots that decide nothing, by what each party has.
pub(crate) fn warn_of_lots(
    found: &mut Vec<Warning>,
    book: &Book,
    returns: &Returns,
    parts: &[PartyPart],
) -> Result<(), NoMemory>
    requires { parts.now ≡ parts_of book.now.eligible.items returns.now }
    ensures { OnOk result (found.new.items ≡ found.old.items ++ flat_map (of_numbered (book_of book.now) returns.now) (range_with_len 0 (length returns.now.lots))) }
{
    let lots = returns.lots();
    for number in 0..lots.len() {
        warn_of_lot(found, book, returns, parts, number, &lots[number])?;
    }
    Ok(())
}
