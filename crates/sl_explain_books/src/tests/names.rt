//! Names of stages: one that two have, one that none has, and the one that the last clause asks for.

ghost use Rattle.std.specs.Prelude.{◌≡◌, IfOk, None, Some, map, option_map};
ghost use Rattle.sl_explain_books.specs.Further.{stage_at};
ghost use Rattle.sl_explain_texts.specs.Messages.{IsSaidBy};
ghost use Rattle.sl_explain_texts.specs.declared.code.FaultCode.TheVariants.{B14, B15, B21};
ghost use Rattle.sl_law_meaning.specs.book.Trees.{stage_of};

use super::Written;
use super::columns::{column_words, types_of};
use crate::near::{columns_of_returns, help_nearest_stage, help_stages};
use crate::texts::tests as texts;
use sl_base_quotients::NoMemory;
use sl_check::Columns;
use sl_explain_texts::{Explainer, Sentence, Speaker};
use sl_law_meaning::{Base, Book, ColumnType, Shape, Stage, Unit};

/// The stages above the one in which an offset lies.
pub fn above(stages: &[Stage], at: usize) -> &[Stage] {
    let begun = stages.iter().take_while(|stage| stage.at <= at).count();
    stages.get(..begun.saturating_sub(1)).unwrap_or(&[])
}

/// The stage in which an offset lies: the last of those that begin no later.
pub fn around(stages: &[Stage], at: usize) -> Option<&Stage>
    ensures { option_map (λ s. s.now.at) result ≡ stage_at at None (map stage_of stages.now) }
{
    let mut found = None;
    for stage in stages {
        if stage.at <= at {
            found = Some(stage);
        }
    }
    found
}

/// The first stage of a name.
pub fn named<'a>(stages: &'a [Stage], name: &[u8]) -> Option<&'a Stage> {
    stages.iter().find(|stage| stage.name.as_bytes() == name)
}

/// Two stages of one name, the second of them at an offset.
pub fn explain_twice(written: &Written<'_>, at: usize) -> Result<Explainer, NoMemory>
    ensures { IfOk result (λ x. x.code ≡ Some B14) }
{
    let name = written.token(at);
    let first = named(written.stages(), name).map_or(at, |stage| stage.at);
    let line = written.line(first)?;
    let explainer = written.says(&texts::TWICE, &[name, line.as_slice()], at);
    Ok(explainer.helped(&texts::TWICE_REMEDY, &[]))
}

// A name that none of these stages and of these columns has. Asks whether one that is near is meant, and says which stages there are.
fn explain_no_name(
    written: &Written<'_>,
    at: usize,
    sentence: &Sentence,
    stages: &[Stage],
    columns: &[&'static [u8]],
) -> Result<Explainer, NoMemory>
    requires { IsSaidBy sentence.now 1 }
    ensures { IfOk result (λ x. x.code ≡ Some sentence.now.0) }
{
    let name = written.token(at);
    let mut explainer = written.says(sentence, &[name], at);
    help_nearest_stage(&mut explainer, name, stages, columns)?;
    help_stages(&mut explainer, stages, &texts::EARLIER, &texts::NO_EARLIER);
    Ok(explainer)
}

// A name that is no stage above and no column. Says which columns there are, too.
fn explain_no_column(written: &Written<'_>, at: usize) -> Result<Explainer, NoMemory>
    ensures { IfOk result (λ x. x.code ≡ Some B15) }
{
    let columns = columns_of_returns(written.speaker.alloc)?;
    let columns = columns.as_slice();
    let stages = above(written.stages(), at);
    let mut explainer = explain_no_name(written, at, &texts::UNKNOWN, stages, columns)?;
    explainer.helps_with(&texts::FACTS, written.speaker.all_quoted(columns));
    Ok(explainer)
}

// A stage is named that stands further down, or is the one in whose expression it is named.
fn explain_order(written: &Written<'_>, stage: &Stage, at: usize) -> Result<Explainer, NoMemory>
    ensures { IfOk result (λ x. x.code ≡ Some B15) }
{
    let name = stage.name.as_bytes();
    if stage.at < at {
        let explainer = written.says(&texts::ITSELF, &[name], at);
        return Ok(explainer.helped(&texts::ITSELF_REMEDY, &[]));
    }
    let line = written.line(stage.at)?;
    let explainer = written.says(&texts::LATER, &[name, line.as_slice()], at);
    Ok(explainer.helped(&texts::LATER_REMEDY, &[]))
}

/// A stage is named that does not exist, or that does not stand above.
pub fn explain_unknown(written: &Written<'_>, at: usize) -> Result<Explainer, NoMemory>
    ensures { IfOk result (λ x. x.code ≡ Some B15) }
{
    let stages = written.stages();
    if at == written.book.last.at {
        return explain_no_name(written, at, &texts::UNKNOWN_BASE, stages, &[]);
    }
    match named(stages, written.token(at)) {
        Some(stage) => explain_order(written, stage, at),
        None => explain_no_column(written, at),
    }
}

// The names of the stages that have seats for each list, in a row; empty where there is none.
fn fitting(speaker: Speaker, stages: &[Stage], types: &[ColumnType]) -> Result<Vec<u8>, NoMemory> {
    let mut names: Vec<&[u8]> = Vec::new(speaker.alloc);
    for (stage, column) in stages.iter().zip(types) {
        if *column == ColumnType::seats(Shape::List) {
            names.push(stage.name.as_bytes())?;
        }
    }
    speaker.all_quoted(names.as_slice())
}

// What the column of the stage that the last clause names has.
fn base_column(book: &Book, types: &[ColumnType]) -> Option<ColumnType> {
    match &book.last.base {
        Base::Stage(name) => Columns::of(book.stages.as_slice(), types).find(name),
        Base::Winners => None,
    }
}

/// The last clause names a stage that has no seats for each list. Says which stages have them, or how to make one.
pub fn explain_seats(written: &Written<'_>, at: usize) -> Result<Explainer, NoMemory>
    ensures { IfOk result (λ x. x.code ≡ Some B21) }
{
    let speaker = written.speaker;
    let name = written.token(at);
    let types = types_of(speaker.alloc, written.stages())?;
    let fitting = fitting(speaker, written.stages(), types.as_slice())?;
    let Some(column) = base_column(written.book, types.as_slice()) else {
        return Ok(written.says(&texts::NO_SEATS, &[name], at));
    };
    let values = [name, column_words(speaker, column)];
    let explainer = written.says(&texts::LAST_CLAUSE_SEATS, &values, at);
    Ok(match column.unit {
        _ if !fitting.is_empty() => explainer.helped(&texts::SEATS_FITTING, &[fitting.as_slice()]),
        Unit::Seats => explainer.helped(&texts::SEATS_SPLIT, &[name]),
        Unit::Votes => explainer.helped(&texts::SEATS_VOTES, &[]),
    })
}
