//! The names of what a legal fault speaks of.

ghost use Rattle.std.specs.Prelude.{◌≡◌, ◌++◌, IfOk, OnOk, codes, flat_map};
ghost use Rattle.sl_explain_faults.specs.Legal.{item_name, item_names, name_at, scope_words, stage_at};
ghost use Rattle.sl_explain_texts.specs.Messages.{texts_of};

use crate::texts::words::{ALL, LAND, LIST_OF, PARTY};
use sl_base_quotients::NoMemory;
use sl_explain_texts::{Speaker, append};
use sl_stages::{Item, Returns, Scope};

// How many names a sentence has at most behind the first.
const MORE: usize = 11;

// What stands for a name that is not there.
const NOBODY: &[u8] = b"?";

// The name of a Land.
pub fn land_name(returns: &Returns, land: usize) -> &[u8]
    ensures { result.now ≡ name_at returns.now.land_names land }
{
    if land < returns.lands() {
        returns.land_name(land)
    } else {
        NOBODY
    }
}

// The name of a party.
pub fn party_name(returns: &Returns, party: usize) -> &[u8]
    ensures { result.now ≡ name_at returns.now.party_names party }
{
    if party < returns.parties() {
        returns.party_name(party)
    } else {
        NOBODY
    }
}

// The constituency of a winner.
pub fn win_name(returns: &Returns, win: usize) -> &[u8]
    ensures { result.now ≡ name_at returns.now.win_names win }
{
    if win < returns.wins() {
        returns.win_name(win)
    } else {
        NOBODY
    }
}

// A scope in words.
pub fn scope_words(speaker: Speaker, returns: &Returns, scope: Scope) -> Result<Vec<u8>, NoMemory>
    ensures { IfOk result (λ text. text.items ≡ scope_words returns.now speaker.language scope) }
{
    match scope {
        Scope::All => speaker.text(&ALL, &[]),
        Scope::Land(land) => speaker.text(&LAND, &[land_name(returns, land)]),
        Scope::Party(party) => speaker.text(&PARTY, &[party_name(returns, party)]),
        Scope::List(land, party) => {
            let names = [party_name(returns, party), land_name(returns, land)];
            speaker.text(&LIST_OF, &names)
        }
    }
}

// Adds the name of an item, that of a list with its Land first.
fn push_item(text: &mut Vec<u8>, returns: &Returns, item: Item) -> Result<(), NoMemory>
    ensures { OnOk result (text.new.items ≡ text.old.items ++ item_name returns.now item) }
{
    match item {
        Item::Party(party) => append(text, &[party_name(returns, party)]),
        Item::Land(land) => append(text, &[land_name(returns, land)]),
        Item::Win(win) => append(text, &[win_name(returns, win)]),
        Item::List(land, party) => {
            let (land, party) = (land_name(returns, land), party_name(returns, party));
            append(text, &[land, b"/", party])
        }
    }
}

// Adds the names of further items, each after a comma.
fn push_items(text: &mut Vec<u8>, returns: &Returns, items: &[Item]) -> Result<(), NoMemory>
    ensures { OnOk result (text.new.items ≡ text.old.items ++ flat_map (λ i. codes ", " ++ item_name returns.now i) items.now) }
{
    for item in items {
        append(text, &[b", "])?;
        push_item(text, returns, *item)?;
    }
    Ok(())
}

// The names of some items, the first ones where they are many.
pub fn names_of(speaker: Speaker, returns: &Returns, items: &[Item]) -> Result<Vec<u8>, NoMemory>
    ensures { IfOk result (λ text. text.items ≡ item_names returns.now items.now) }
{
    let mut text = Vec::new(speaker.alloc);
    let Some((first, others)) = items.split_first() else {
        return Ok(text);
    };
    push_item(&mut text, returns, *first)?;
    push_items(&mut text, returns, others.get(..MORE).unwrap_or(others))?;
    if others.len() > MORE {
        append(&mut text, &[b", .."])?;
    }
    Ok(text)
}

// The names of stages, in quotes.
pub fn stage_words(speaker: Speaker, stages: &[&[u8]]) -> Result<Vec<u8>, NoMemory> {
    let mut text = Vec::new(speaker.alloc);
    for stage in stages {
        append(&mut text, &[b"`", stage, b"`, "])?;
    }
    append(&mut text, &[b"`seats`"])?;
    Ok(text)
}

// The name of a stage, or `seats` for the last clause.
pub fn stage_name<'a>(stages: &[&'a [u8]], stage: usize) -> &'a [u8]
    ensures { result.now ≡ stage_at (texts_of stages.now) stage }
{
    stages.get(stage).copied().unwrap_or(b"seats")
}
