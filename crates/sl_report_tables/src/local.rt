//! A rulebook beside the lines of its table in one Land.

ghost use Rattle.std.specs.Prelude.{◌≡◌, IfOk};
ghost use Rattle.sl_report_tables.specs.inner.Local.{lines_in};

use crate::compare::Judged;
use sl_base_quotients::NoMemory;
use sl_stages::ListSeats;
use std::alloc::Global;

/// A rulebook beside the lines of its table in one Land.
#[derive(Drop)]
pub(crate) struct Local<'a> {
    pub(crate) judged: &'a Judged,
    pub(crate) land: usize,
    pub(crate) lines: Vec<ListSeats>,
    pub(crate) ghost kept: { lines.items ≡ lines_in land judged.now.counted },
}

/// The lines of a Land by a book, if there is a count.
pub(crate) fn lines_in(
    alloc: Global,
    judged: &Judged,
    land: usize,
) -> Result<Vec<ListSeats>, NoMemory>
    ensures { IfOk result (λ found. found.items ≡ lines_in land judged.now.counted) }
{
    let Some(counted) = &judged.counted else {
        return Ok(Vec::new(alloc));
    };
    let lines = counted.table.lists().iter().copied();
    Ok(lines.filter(|line| line.land == land).collect(alloc)?)
}
