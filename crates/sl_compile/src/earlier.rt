//! The columns of earlier stages.

ghost use Rattle.std.specs.Prelude.{◌≡◌, ◌≤◌, length, find, position, unwrap_or};
ghost use Rattle.std.specs.Str.{bytes_eq};
ghost use Rattle.sl_base_terms.specs.declared.limits.TheConstants.{MAX_STAGES};
ghost use Rattle.sl_law_meaning.specs.book.Typing.{is_named, type_or_one};
ghost use Rattle.sl_compile_pieces.specs.exprs.Slots.{stage_slot};
ghost use Rattle.sl_compile.specs.inner.Earlier.{columns};

use crate::slots::stage_slot;
use sl_law_meaning::{ColumnType, Shape, Stage, Word};

/// The stages before some place of a book, and what the column of each has.
#[derive(Clone, Copy)]
pub struct Earlier<'a> {
    pub stages: &'a [Stage],
    pub types: &'a [ColumnType],
    ghost paired: { length stages.now ≤ length types.now },
    ghost few: { length stages.now ≤ MAX_STAGES },
}

impl<'a> Earlier<'a> {
    /// The number of the first stage of that name.
    fn find(&self, name: &Word) -> Option<usize>
        ensures { result ≡ position (λ s. bytes_eq name.now s.name) self.now.stages.now }
    {
        self.stages
            .iter()
            .position(|stage| name.as_bytes() == stage.name.as_bytes())
    }

    /// The slot of the column of the stage of that name, and what the column has.
    pub fn column(&self, name: &Word) -> (u8, ColumnType)
        ensures slot { let known = columns self.now.stages.now self.now.types.now
            in result.0 ≡ stage_slot (unwrap_or (position (is_named name.now) known) 0) }
        ensures has { let known = columns self.now.stages.now self.now.types.now
            in result.1 ≡ type_or_one (find (is_named name.now) known) }
    {
        match self.find(name) {
            Some(i) => (stage_slot(i as u8), self.types[i]),
            None => (stage_slot(0), ColumnType::seats(Shape::One)),
        }
    }
}
