//! The lots that decide a tie, and those of the returns that have no effect on it.

ghost use Rattle.std.specs.Prelude.{◌≡◌, IfOk, map};
ghost use Rattle.sl_explain_faults.specs.Legal.{lot_land, lot_party, lot_record, lot_win, party_of_win};
ghost use Rattle.sl_explain_texts.specs.Explainers.{Keeps, KeepsWith};
ghost use Rattle.sl_explain_texts.specs.Messages.{IsFilledBy};
ghost use Rattle.sl_explain_texts.specs.Pages.{texts_in};

use crate::texts::lots as texts;
use crate::words::{land_name, names_of, party_name, stage_words, win_name};
use sl_base_quotients::NoMemory;
use sl_explain_texts::{Explainer, Message, append, nearest};
use sl_stages::{Item, Lot, Returns, Win};
use std::alloc::Global;

// Whether a lot gives a winner by the Land and the party of the winner.
fn gives_winner(returns: &Returns, lot: &Lot, win: usize) -> bool {
    if win >= returns.wins() || lot.win != Some(win) {
        return false;
    }
    let winner = returns.win(win);
    lot.land == Some(winner.land) && lot.party.is_some() && lot.party == winner.party
}

// Whether a lot gives an item.
fn gives(returns: &Returns, lot: &Lot, item: Item) -> bool {
    match item {
        Item::Party(party) => lot.land.is_none() && lot.party == Some(party),
        Item::Land(land) => lot.land == Some(land) && lot.party.is_none(),
        Item::List(land, party) => lot.land == Some(land) && lot.party == Some(party),
        Item::Win(win) => gives_winner(returns, lot, win),
    }
}

// Whether a lot gives something of the shape of an item.
fn is_of_shape(returns: &Returns, lot: &Lot, item: Item) -> bool {
    match item {
        Item::Party(_) => lot.land.is_none() && lot.party.is_some(),
        Item::Land(_) => lot.land.is_some() && lot.party.is_none(),
        Item::List(_, _) => lot.land.is_some() && lot.party.is_some(),
        Item::Win(_) => lot.win.is_some_and(|win| gives_winner(returns, lot, win)),
    }
}

// Whether a lot of a stage gives an item.
fn is_named(returns: &Returns, stage: &[u8], item: Item) -> bool {
    let names = |lot: &Lot| lot.stage.as_bytes() == stage && gives(returns, lot, item);
    returns.lots().iter().any(names)
}

// The name of the party of a winner, or nothing where it has none.
fn party_of(returns: &Returns, winner: Win) -> &[u8]
    ensures { result.now ≡ party_of_win returns.now winner }
{
    match winner.party {
        Some(party) => party_name(returns, party),
        None => b"",
    }
}

// The Land, the party and the constituency of a lot for a winner.
fn winner_fields(returns: &Returns, win: usize) -> (&[u8], &[u8], &[u8])
    ensures land { result.0.now ≡ lot_land returns.now (Item.Win win) }
    ensures party { result.1.now ≡ lot_party returns.now (Item.Win win) }
    ensures win { result.2.now ≡ lot_win returns.now (Item.Win win) }
{
    if win >= returns.wins() {
        return (b"", b"", b"");
    }
    let winner = returns.win(win);
    let land = land_name(returns, winner.land);
    (land, party_of(returns, winner), win_name(returns, win))
}

// The Land, the party and the constituency of a lot for an item.
fn fields_of(returns: &Returns, item: Item) -> (&[u8], &[u8], &[u8])
    ensures land { result.0.now ≡ lot_land returns.now item }
    ensures party { result.1.now ≡ lot_party returns.now item }
    ensures win { result.2.now ≡ lot_win returns.now item }
{
    match item {
        Item::Party(party) => (b"", party_name(returns, party), b""),
        Item::Land(land) => (land_name(returns, land), b"", b""),
        Item::List(land, party) => (land_name(returns, land), party_name(returns, party), b""),
        Item::Win(win) => winner_fields(returns, win),
    }
}

// The record of a lot for an item.
fn record(alloc: Global, returns: &Returns, stage: &[u8], item: Item) -> Result<Vec<u8>, NoMemory>
    ensures { IfOk result (λ text. text.items ≡ lot_record returns.now stage.now item) }
{
    let (land, party, win) = fields_of(returns, item);
    let mut record = Vec::new(alloc);
    append(&mut record, &[b"lot,", land, b",", party, b","])?;
    append(&mut record, &[stage, b",", win, b","])?;
    Ok(record)
}

// The records of the lots that decide a tie of these items.
fn records_of(
    alloc: Global,
    returns: &Returns,
    stage: &[u8],
    items: &[Item],
) -> Result<Vec<Vec<u8>>, NoMemory>
    ensures { IfOk result (λ records. texts_in records.items ≡ map (lot_record returns.now stage.now) items.now) }
{
    let mut records = Vec::new(alloc);
    for item in items {
        records.push(record(alloc, returns, stage, *item)?)?;
    }
    Ok(records)
}

// How many lots name a stage.
fn lots_of(lots: &[Lot], stage: &[u8]) -> usize {
    let is_of = |lot: &&Lot| lot.stage.as_bytes() == stage;
    lots.iter().filter(is_of).count()
}

// Adds what is said of the lots of a stage that the book does not have.
fn help_unknown(
    explainer: &mut Explainer,
    stages: &[&[u8]],
    lots: &[Lot],
    stage: &[u8],
) -> Result<(), NoMemory>
    ensures { Keeps explainer.old explainer.new }
{
    let speaker = explainer.speaker();
    let number = speaker.number(lots_of(lots, stage))?;
    if let Some(near) = nearest(speaker.alloc, stage, stages)? {
        explainer.helps(&texts::NEAR_STAGE, &[number.as_slice(), stage, near]);
    } else {
        let words = stage_words(speaker, stages)?;
        let values = [number.as_slice(), stage, words.as_slice()];
        explainer.helps(&texts::NO_STAGE, &values);
    }
    Ok(())
}

// Adds the lots of stages that the book does not have, each such stage once.
fn help_stages(explainer: &mut Explainer, stages: &[&[u8]], lots: &[Lot]) -> Result<(), NoMemory>
    ensures { Keeps explainer.old explainer.new }
{
    for (place, lot) in lots.iter().enumerate() {
        let stage = lot.stage.as_bytes();
        let before = lots.get(..place).unwrap_or(&[]);
        let is_known = stage == b"seats".as_slice() || stages.iter().any(|own| *own == stage);
        if !is_known && lots_of(before, stage) == 0 {
            help_unknown(explainer, stages, lots, stage)?;
        }
    }
    Ok(())
}

// How many lots of a stage give nothing of the shape of an item.
fn lots_of_other_shape(returns: &Returns, stage: &[u8], item: Item) -> usize {
    let is_other = |lot: &&Lot| lot.stage.as_bytes() == stage && !is_of_shape(returns, lot, item);
    returns.lots().iter().filter(is_other).count()
}

// What is said of lots that give nothing of the shape of an item.
fn shape_message(item: Item) -> &'static Message
    ensures { IsFilledBy result.now 1 }
{
    match item {
        Item::Party(_) => &texts::NOT_PARTIES,
        Item::Land(_) => &texts::NOT_LANDS,
        Item::List(_, _) => &texts::NOT_LISTS,
        Item::Win(_) => &texts::NOT_WINNERS,
    }
}

// Adds the lots of the stage of a tie that have another shape than the tied items.
fn help_shapes(explainer: &mut Explainer, returns: &Returns, stage: &[u8], items: &[Item])
    ensures { Keeps explainer.old explainer.new }
{
    let Some(item) = items.first() else {
        return;
    };
    let number = lots_of_other_shape(returns, stage, *item);
    if number > 0 {
        let digits = explainer.speaker().number(number);
        explainer.helps_with(shape_message(*item), digits);
    }
}

// Adds the tied items that the lots lack, where they name others of them.
fn help_missing(
    explainer: &mut Explainer,
    returns: &Returns,
    stage: &[u8],
    items: &[Item],
) -> Result<(), NoMemory>
    ensures { Keeps explainer.old explainer.new }
{
    let speaker = explainer.speaker();
    let mut lacking = Vec::new(speaker.alloc);
    for item in items {
        if !is_named(returns, stage, *item) {
            lacking.push(*item)?;
        }
    }
    if !lacking.is_empty() && lacking.len() < items.len() {
        let names = names_of(speaker, returns, lacking.as_slice());
        explainer.helps_with(&texts::MISSING, names);
    }
    Ok(())
}

// Adds the lots that decide a tie of these items, and those of the returns that have no effect on it.
pub fn help_lots(
    explainer: &mut Explainer,
    stages: &[&[u8]],
    returns: &Returns,
    stage: &[u8],
    items: &[Item],
) -> Result<(), NoMemory>
    ensures fault { KeepsWith explainer.old explainer.new explainer.new.records }
    ensures records { IfOk explainer.new.records (λ rs. texts_in rs.items ≡ map (lot_record returns.now stage.now) items.now) }
{
    explainer.helps(&texts::DRAW, &[]);
    let alloc = explainer.speaker().alloc;
    explainer.gives_records(records_of(alloc, returns, stage, items));
    help_missing(explainer, returns, stage, items)?;
    help_shapes(explainer, returns, stage, items);
    help_stages(explainer, stages, returns.lots())
}
