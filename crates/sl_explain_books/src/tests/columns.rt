//! What the columns of stages and of expressions have.

use crate::texts::tests as texts;
use sl_base_quotients::NoMemory;
use sl_check::Columns;
use sl_explain_texts::Speaker;
use sl_law_meaning::{ColumnType, Shape, Stage, Unit};
use std::alloc::Global;

/// What a column has, in words.
pub fn column_words<'a>(speaker: Speaker, column: ColumnType) -> &'a [u8] {
    speaker.word(match (column.unit, column.shape) {
        (Unit::Seats, Shape::One) => &texts::ONE_SEATS,
        (Unit::Seats, Shape::Party) => &texts::PARTY_SEATS,
        (Unit::Seats, Shape::Land) => &texts::LAND_SEATS,
        (Unit::Seats, Shape::List) => &texts::LIST_SEATS,
        (Unit::Votes, Shape::One) => &texts::ONE_VOTES,
        (Unit::Votes, Shape::Party) => &texts::PARTY_VOTES,
        (Unit::Votes, Shape::Land) => &texts::LAND_VOTES,
        (Unit::Votes, Shape::List) => &texts::LIST_VOTES,
    })
}

/// What the columns of these stages have, up to the first whose expression has no type.
pub fn types_of(alloc: Global, stages: &[Stage]) -> Result<Vec<ColumnType>, NoMemory> {
    let mut types = Vec::new(alloc);
    for stage in stages {
        match Columns::of(stages, types.as_slice()).expr_type(&stage.expr) {
            Ok(column) => types.push(column)?,
            Err(_) => return Ok(types),
        }
    }
    Ok(types)
}
