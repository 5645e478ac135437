//! Explains unknown names on the command line: a statute the library lacks, a stage the rulebook does not define.

ghost use Rattle.std.specs.Prelude.{◌≡◌, IfOk, Some};
ghost use Rattle.sl_explain_texts.specs.Explainers.{Keeps};
ghost use Rattle.sl_explain_texts.specs.declared.code.FaultCode.TheVariants.{B01, B22};

use crate::near::{columns_of_returns, help_nearest_stage, help_stages};
use crate::texts::unknown as texts;
use sl_base_quotients::NoMemory;
use sl_explain_texts::{Explainer, Explanation, Language, Speaker};
use sl_law_meaning::{Book, Stage};
use sl_laws::{ELECTIONS, STATUTES, law};
use std::alloc::Global;

// The election of a year, with its statute.
fn election(year: &str) -> Option<(&'static str, Option<&'static str>)> {
    ELECTIONS
        .iter()
        .copied()
        .find(|election| election.0 == year)
}

// What to say of a name that is a year, if it is that of an election: its statute.
fn help_year(explainer: &mut Explainer, year: &str)
    ensures { Keeps explainer.old explainer.new }
{
    match election(year) {
        Some((year, Some(statute))) => {
            explainer.helps(&texts::ELECTION, &[year.as_bytes(), statute.as_bytes()])
        }
        Some((_, None)) => explainer.helps(&texts::NO_ELECTION, &[year.as_bytes()]),
        None => {}
    }
}

// The name without an `@` before it and the ending of a file.
fn bare(name: &str) -> &str {
    let name = name.strip_prefix("@").unwrap_or(name);
    name.strip_suffix(".law").unwrap_or(name)
}

// The names of the statutes of the library.
fn statutes(alloc: Global) -> Result<Vec<&'static [u8]>, NoMemory> {
    let names = STATUTES.iter().map(|statute| statute.name.as_bytes());
    Ok(names.collect(alloc)?)
}

// What to say of a bare name: that it is one of the library, or a year, or near to one of the library.
fn help_statute(
    explainer: &mut Explainer,
    name: &str,
    statutes: &[&'static [u8]],
) -> Result<(), NoMemory>
    ensures { Keeps explainer.old explainer.new }
{
    let word = name.as_bytes();
    if law(name).is_some() {
        explainer.helps(&texts::NAME_ALONE, &[word]);
    } else if name == "2020" {
        explainer.helps(&texts::NO_STATUTE, &[]);
    } else if word.iter().all(u8::is_ascii_digit) {
        help_year(explainer, name);
    } else {
        explainer.helps_nearest(word, statutes)?;
    }
    Ok(())
}

/// Explains a name of no statute of the library, as it stands after `@` or `law`.
pub fn explain_unknown_statute(
    alloc: Global,
    language: Language,
    name: &str,
) -> Result<Explanation, NoMemory>
    ensures { IfOk result (λ x. x.code ≡ Some B01) }
{
    let speaker = Speaker { alloc, language };
    let statutes = statutes(alloc)?;
    let mut explainer = speaker.says(&texts::UNKNOWN_STATUTE, &[name.as_bytes()]);
    help_statute(&mut explainer, bare(name), statutes.as_slice())?;
    explainer.helps_with(&texts::LIBRARY, speaker.all_quoted(statutes.as_slice()));
    explainer.finished()
}

// What to say of a name that no stage of the book has.
fn help_stage(explainer: &mut Explainer, stages: &[Stage], name: &str) -> Result<(), NoMemory>
    ensures { Keeps explainer.old explainer.new }
{
    let word = name.as_bytes();
    let columns = columns_of_returns(explainer.speaker().alloc)?;
    if name == "seats" {
        explainer.helps(&texts::SEATS_NO_STAGE, &[]);
    } else if columns.contains(&word) {
        explainer.helps(&texts::COLUMN, &[word, word]);
    } else {
        help_nearest_stage(explainer, word, stages, &[])?;
    }
    Ok(())
}

/// Explains a name of no stage of a rulebook.
pub fn explain_unknown_stage(
    alloc: Global,
    language: Language,
    book: &Book,
    name: &str,
) -> Result<Explanation, NoMemory>
    ensures { IfOk result (λ x. x.code ≡ Some B22) }
{
    let speaker = Speaker { alloc, language };
    let stages = book.stages.as_slice();
    let mut explainer = speaker.says(&texts::NO_STAGE, &[name.as_bytes()]);
    help_stage(&mut explainer, stages, name)?;
    help_stages(
        &mut explainer,
        stages,
        &texts::ITS_STAGES,
        &texts::NO_STAGES,
    );
    explainer.finished()
}
