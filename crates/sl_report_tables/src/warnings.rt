//! The sheet of warnings of what is likely a mistake in returns.

ghost use Rattle.std.specs.Prelude.{◌≡◌, IfOk, option_map};
ghost use Rattle.sl_report_forms.specs.Tables.{contents_of, table_of};
ghost use Rattle.sl_report_tables.specs.Totals.{warning_row, warnings_table};
ghost use Rattle.sl_report_warnings.specs.Warnings.{warnings_of};
ghost use Rattle.sl_law_meaning.specs.book.Books.{book_of};

use crate::naming::{owned, text_of};
use crate::rows::keyword;
use crate::texts::WARNINGS_TITLE;
use sl_base_quotients::NoMemory;
use sl_explain_texts::Language;
use sl_report_forms::{Cell, ColumnForm, Look, Sheet, Title};
use sl_report_warnings::{Warning, sentence, warnings_of};
use sl_stages::{Book, Returns};
use std::alloc::Global;

const WARNINGS: [ColumnForm; 3] = [
    ("code", "code", "Code", Look::Text(4)),
    ("warning", "", "", Look::Hidden),
    ("text", "warning", "Warnung", Look::Text(93)),
];

// The row of a warning: its code, its kind, and its sentence.
fn warning_row(
    alloc: Global,
    language: Language,
    returns: &Returns,
    warning: Warning,
) -> Result<Vec<Cell>, NoMemory>
    ensures { IfOk result (λ row. contents_of row.items ≡ warning_row warning) }
{
    let text = sentence(alloc, language, returns, warning)?;
    let text = owned(alloc, text_of(text.as_slice()))?;
    let code = keyword(warning.code().word());
    Ok(vec![in alloc; code, keyword(warning.key()), Cell::Prose(text)]?)
}

/// What is likely a mistake in the returns, and with a book, in the two together.
#[tactic(auto, using(crate::proofs::MoreRows::rows_next))]
pub(crate) fn warnings_sheet(
    alloc: Global,
    language: Language,
    book: Option<&Book>,
    returns: &Returns,
) -> Result<Sheet, NoMemory>
    ensures { IfOk result (λ s. table_of s ≡ warnings_table (warnings_of (option_map (λ b. book_of b.now) book.entry) returns.now)) }
{
    let warnings = warnings_of(alloc, book, returns)?;
    let mut sheet = Sheet::new(alloc, "warnings", Title::Words(WARNINGS_TITLE), &WARNINGS)?;
    for warning in warnings.as_slice() {
        sheet.push(warning_row(alloc, language, returns, *warning)?)?;
    }
    Ok(sheet)
}
