//! The slots of a compiled rulebook (docs/compiler.md, section 3).

ghost use Rattle.std.specs.Prelude.{◌≡◌, ◌<◌, ◌≤◌, ◌++◌, IfOk, map};
ghost use Rattle.sl_compile_pieces.specs.exprs.Slots.{fact_slots, passing, stage_slot};
ghost use Rattle.sl_compile.specs.inner.Slots.{low_shapes};

use sl_base_quotients::NoMemory;
use sl_compile_pieces::slots::{FIRST_FACT, FIRST_PASSING_SLOT, FIRST_STAGE_SLOT, LEVELS};
use sl_law_meaning::Shape::{Land, List, One, Party};
use sl_law_meaning::{ColumnType, FACTS, Fact, MAX_DEPTH, MAX_STAGES, Shape};
use std::alloc::Global;

pub const WINNERS: u8 = FIRST_FACT + Fact::Winners as u8;

/// The seats of the lists in the end: the scratch column of lists on the first level.
pub const FINAL_SEATS: u8 = FIRST_PASSING_SLOT + 3;

/// The shapes of the scratch columns of a level.
const LEVEL: [Shape; 4] = [One, Party, Land, List];

/// Those of the slots after the facts: two to work in, and three for the last clause.
const BEHIND_FACTS: [Shape; 5] = [List, Party, List, List, List];

/// The column of a fact.
#[tactic(auto, using(sl_compile_pieces::proofs::exprs::Places::fact_low))]
pub fn fact_slot(fact: Fact) -> u8
    ensures { result ≡ fact_slots.of fact }
{
    FIRST_FACT + fact.number()
}

/// The scratch column of that shape on that level.
#[tactic(auto, using(sl_compile_pieces::proofs::exprs::Places::number_few))]
pub fn passing(level: u8, shape: Shape) -> u8
    requires { level ≤ MAX_DEPTH }
    ensures { result ≡ passing level shape }
{
    FIRST_PASSING_SLOT + 4 * level + shape.number()
}

/// The column of the stage of that number.
pub fn stage_slot(stage: u8) -> u8
    requires { stage < MAX_STAGES }
    ensures { result ≡ stage_slot stage }
{
    FIRST_STAGE_SLOT + stage
}

/// The shapes of the slots below those of the stages.
///
/// # Errors
/// No memory was found.
pub fn low_slots(alloc: Global) -> Result<Vec<Shape>, NoMemory>
    ensures { IfOk result (λ slots. slots.items ≡ low_shapes) }
{
    let mut slots = Vec::from_slice(alloc, &[Party])?;
    for fact in &FACTS {
        slots.push(fact.column_type().shape)?;
    }
    slots.extend_from_slice(&BEHIND_FACTS)?;
    for _level in 0..LEVELS {
        slots.extend_from_slice(&LEVEL)?;
    }
    Ok(slots)
}

/// Appends the shapes of the stages' columns.
///
/// # Errors
/// No memory was found.
pub fn add_columns(slots: &mut Vec<Shape>, types: &[ColumnType]) -> Result<(), NoMemory>
    ensures { IfOk result (λ _. slots.new.items ≡ slots.old.items ++ map (λ t. t.shape) types.now) }
{
    for column in types {
        slots.push(column.shape)?;
    }
    Ok(())
}
