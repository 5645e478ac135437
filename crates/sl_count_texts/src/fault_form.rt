//! The text of a legal fault: the stage, the scope, and what is wrong there.

ghost use Rattle.std.specs.Prelude.{◌≡◌, All, IfOk, OnOk, length, map};
ghost use Rattle.sl_code_semantics.specs.Fits.{HasItem, HasScope, FitsKind, FitsFault};
ghost use Rattle.sl_count_texts.specs.Faults.{stage_word, scope_words, item_word, kind_words, fault_text};
ghost use Rattle.sl_count_texts.specs.Lines.{with_word, with_words};

use crate::line::Text;
use sl_base_quotients::NoMemory;
use sl_code_instructions::Code;
use sl_stages::{FaultKind, Item, LegalFault, Returns, Scope};
use std::alloc::Global;

/// The text of a legal fault that fits the code and the returns (docs/output.md, section 2).
pub fn fault_text(
    alloc: Global,
    fault: &LegalFault,
    returns: &Returns,
    code: &Code,
) -> Result<Vec<u8>, NoMemory>
    requires { FitsFault (length code.now.stages) returns.now fault.now }
    ensures { IfOk result (λ text. text.items ≡ fault_text (map (λ s. s.name) code.now.stages) returns.now fault.now) }
{
    let mut text = Text::new(alloc);
    text.word(b"fault")?;
    stage_word(&mut text, fault.stage, code)?;
    scope_words(&mut text, fault.scope, returns)?;
    kind_words(&mut text, &fault.kind, returns)?;
    text.end_line()?;
    Ok(text.into_bytes())
}

// ---- words, each added to the last line of a text

// The name of a stage, or `seats` for the last clause.
pub(crate) fn stage_word(text: &mut Text, stage: usize, code: &Code) -> Result<(), NoMemory>
    ensures { OnOk result (text.new ≡ with_word text.old (stage_word (map (λ s. s.name) code.now.stages) stage)) }
{
    match code.stages().get(stage) {
        Some(stage) => text.word(stage.name.as_bytes()),
        None => text.word(b"seats"),
    }
}

pub(crate) fn scope_words(text: &mut Text, scope: Scope, returns: &Returns) -> Result<(), NoMemory>
    requires { HasScope returns.now scope }
    ensures { OnOk result (text.new ≡ with_words text.old (scope_words returns.now scope)) }
{
    match scope {
        Scope::All => text.word(b"all"),
        Scope::Land(land) => {
            text.word(b"land")?;
            text.word(returns.land_name(land))
        }
        Scope::Party(party) => {
            text.word(b"party")?;
            text.word(returns.party_name(party))
        }
        Scope::List(land, party) => {
            text.word(b"list")?;
            text.word(returns.land_name(land))?;
            text.word(returns.party_name(party))
        }
    }
}

pub(crate) fn item_word(text: &mut Text, item: Item, returns: &Returns) -> Result<(), NoMemory>
    requires { HasItem returns.now item }
    ensures { OnOk result (text.new ≡ with_word text.old (item_word returns.now item)) }
{
    match item {
        Item::Party(party) => text.word(returns.party_name(party)),
        Item::Land(land) => text.word(returns.land_name(land)),
        Item::List(land, party) => text.pair(returns.land_name(land), returns.party_name(party)),
        Item::Win(win) => text.word(returns.win_name(win)),
    }
}

// The names of items.
fn item_words(text: &mut Text, items: &[Item], returns: &Returns) -> Result<(), NoMemory>
    requires { All (HasItem returns.now) items.now }
    ensures { OnOk result (text.new ≡ with_words text.old (map (item_word returns.now) items.now)) }
{
    for item in items {
        item_word(text, *item, returns)?;
    }
    Ok(())
}

fn kind_words(text: &mut Text, kind: &FaultKind, returns: &Returns) -> Result<(), NoMemory>
    requires { FitsKind returns.now kind.now }
    ensures { OnOk result (text.new ≡ with_words text.old (kind_words returns.now kind.now)) }
{
    match kind {
        FaultKind::Limit => text.word(b"limit"),
        FaultKind::Short => text.word(b"short"),
        FaultKind::NoList => text.word(b"nolist"),
        FaultKind::Tie { seats, names } => {
            text.word(b"tie")?;
            text.number(*seats)?;
            item_words(text, names.as_slice(), returns)
        }
        FaultKind::Majority => text.word(b"majority"),
        FaultKind::Cap => text.word(b"cap"),
    }
}
