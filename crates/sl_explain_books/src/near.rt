//! What to say of a name that does not exist: which name may be meant, and which names there are.

ghost use Rattle.sl_explain_texts.specs.Explainers.{Keeps};
ghost use Rattle.sl_explain_texts.specs.Messages.{IsFilledBy};

use crate::keywords::fact_keyword;
use sl_base_quotients::NoMemory;
use sl_explain_texts::{Explainer, Message, Speaker};
use sl_law_meaning::{FACTS, Stage};
use std::alloc::Global;

/// The columns of the returns, as an expression names them.
pub fn columns_of_returns(alloc: Global) -> Result<Vec<&'static [u8]>, NoMemory> {
    let words = FACTS.iter().map(|fact| fact_keyword(*fact).spelling());
    Ok(words.map(str::as_bytes).collect(alloc)?)
}

// The names of stages.
fn names_of(alloc: Global, stages: &[Stage]) -> Result<Vec<&[u8]>, NoMemory> {
    let names = stages.iter().map(|stage| stage.name.as_bytes());
    Ok(names.collect(alloc)?)
}

// The names of stages in a row.
fn listed_stages(speaker: Speaker, stages: &[Stage]) -> Result<Vec<u8>, NoMemory> {
    speaker.all_quoted(names_of(speaker.alloc, stages)?.as_slice())
}

/// Adds the question whether a name is meant that is near to a word, and where none is near, what else to do.
pub fn help_nearest_or(
    explainer: &mut Explainer,
    word: &[u8],
    names: &[&[u8]],
    remedy: &Message,
) -> Result<(), NoMemory>
    requires { IsFilledBy remedy.now 0 }
    ensures { Keeps explainer.old explainer.new }
{
    if !explainer.helps_nearest(word, names)? {
        explainer.helps(remedy, &[]);
    }
    Ok(())
}

/// Adds the question whether a name that is near to a word is meant: that of one of the stages, or one of some others.
pub fn help_nearest_stage(
    explainer: &mut Explainer,
    word: &[u8],
    stages: &[Stage],
    others: &[&'static [u8]],
) -> Result<(), NoMemory>
    ensures { Keeps explainer.old explainer.new }
{
    let mut names = names_of(explainer.speaker().alloc, stages)?;
    names.extend_from_slice(others)?;
    explainer.helps_nearest(word, names.as_slice())?;
    Ok(())
}

/// Adds a sentence with the names of stages, or where there are none, another one.
pub fn help_stages(explainer: &mut Explainer, stages: &[Stage], some: &Message, none: &Message)
    requires some { IsFilledBy some.now 1 }
    requires none { IsFilledBy none.now 0 }
    ensures { Keeps explainer.old explainer.new }
{
    if stages.is_empty() {
        explainer.helps(none, &[]);
    } else {
        explainer.helps_with(some, listed_stages(explainer.speaker(), stages));
    }
}
