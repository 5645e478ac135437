//! The columns of the stages in what the run of a code holds.

ghost use Rattle.std.specs.Prelude.{◌≡◌, ◌<◌, IfOk, length, map};
ghost use Rattle.sl_code_semantics.specs.Fits.{FitsMemory};
ghost use Rattle.sl_count_calls.specs.inner.Held.{HasSlots, held_column, plain};

use sl_base_quotients::NoMemory;
use sl_code_instructions::Code;
use sl_machine::Memory;
use sl_stages::{Column, Returns};
use std::alloc::Global;

// The column in a slot.
fn column_in(
    alloc: Global,
    code: &Code,
    memory: &Memory,
    returns: &Returns,
    slot: usize,
) -> Result<Column, NoMemory>
    requires fits { FitsMemory code.now returns.now memory.now }
    requires slot { slot < length code.now.slots }
    ensures { IfOk result (λ column. plain column ≡ held_column code.now memory.now slot) }
{
    // (for what it says of the returns)
    let _lands = returns.lands();
    Ok(Column {
        shape: code.slots()[slot],
        cells: Vec::from_slice(alloc, memory.column(slot))?,
    })
}

/// The columns of the stages of a code, in their order.
pub(crate) fn columns_of(
    alloc: Global,
    code: &Code,
    memory: &Memory,
    returns: &Returns,
) -> Result<Vec<Column>, NoMemory>
    requires fits { FitsMemory code.now returns.now memory.now }
    requires slots { HasSlots code.now }
    ensures { IfOk result (λ columns. map plain columns.items ≡ map (λ s. held_column code.now memory.now s.slot) code.now.stages) }
{
    let mut columns = Vec::new(alloc);
    for stage in code.stages() {
        let slot = usize::from(stage.slot);
        columns.push(column_in(alloc, code, memory, returns, slot)?)?;
    }
    Ok(columns)
}
