//! The texts of a count that ends with a table.

ghost use Rattle.std.specs.Prelude.{IfOk, length};
ghost use Rattle.sl_count_calls.specs.Outcomes.{FitsCounted};

use sl_base_quotients::NoMemory;
use sl_code_instructions::Code;
use sl_stages::{Counted, Returns};
use sl_table::{column_text, short_text, steps_text};
use std::alloc::Global;

/// What is reported of a count that ends with a table.
#[derive(Clone, Copy)]
pub enum Report {
    /// The seats.
    Seats,
    /// Each seat with the step that won it, and the seats.
    Steps,
    /// The column of the stage of that number.
    Stage(usize),
}

impl Report {
    ghost use Rattle.sl_count_calls.specs.inner.Texts.{HasColumn, IsCountedText};

    /// The text, of a table and columns that fit the code and the returns.
    pub(crate) fn text(
        self,
        alloc: Global,
        counted: &Counted,
        returns: &Returns,
        code: &Code,
    ) -> Result<Vec<u8>, NoMemory>
        requires fits { FitsCounted (length code.now.stages) returns.now counted.now }
        requires asked { HasColumn self counted.now }
        ensures { IfOk result (λ text. IsCountedText self code.now returns.now counted.now text.items) }
    {
        match self {
            Report::Seats => short_text(alloc, &counted.table, returns),
            Report::Steps => steps_text(alloc, &counted.table, returns, code),
            Report::Stage(stage) => {
                let column = &counted.columns[stage];
                column_text(alloc, column.shape, column.cells.as_slice(), returns)
            }
        }
    }
}
