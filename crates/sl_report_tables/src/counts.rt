//! The answers that show one count: those of `report` and of `stages`, and of `count` and `steps` as tables.

ghost use Rattle.std.specs.Prelude.{◌≡◌, IfOk, map};
ghost use Rattle.sl_report_forms.specs.Tables.{table_of};
ghost use Rattle.sl_report_tables.specs.Naming.{AreNames};
ghost use Rattle.sl_report_tables.specs.Reports.{IsFaultReport, Shows, beside};
ghost use Rattle.sl_report_tables.specs.Ends.{HoldsEnd, end_status};
ghost use Rattle.sl_law_meaning.specs.book.Books.{book_of};

use crate::answer::Answer;
use crate::counted::{first_sheets, report_sheets};
use crate::faults::fault_sheets;
use crate::full_names::FullNames;
use crate::naming::names_of;
use crate::press::press_sheets;
use crate::stages::stage_sheets;
use crate::steps::{seat_sheets, step_sheets};
use sl_base_quotients::NoMemory;
use sl_count_inputs::Status;
use sl_explain_texts::Language;
use sl_report_forms::Sheet;
use sl_report_parties::{EarlierParty, Setting, parts_of};
use sl_stages::{CheckedBook, End, LegalFault, Returns};
use std::alloc::Global;

/// What a command shows of a count.
#[derive(Clone, Copy)]
pub enum Show<'a> {
    /// Its seat table, as `count` does.
    Seats,
    /// All seat steps with the bounds of scopes, and its seat table, as `steps` does.
    Steps,
    /// All of it, as `report` does.
    Report,
    /// What the press needs of it, as `report --short` does, beside the parties of an earlier seat table, where one is given.
    Short(Option<&'a [EarlierParty<'a>]>),
    /// The columns of all stages, as `stages` does.
    Stages,
}

impl Show<'_> {
    /// The same, beside the parties of an earlier seat table where one is given and shown.
    pub fn beside<'a>(self, earlier: Option<&'a [EarlierParty<'a>]>) -> Show<'a>
        ensures { result ≡ beside earlier.entry self.entry }
    {
        match self {
            Show::Seats => Show::Seats,
            Show::Steps => Show::Steps,
            Show::Report => Show::Report,
            Show::Short(_) => Show::Short(earlier),
            Show::Stages => Show::Stages,
        }
    }
}

// The sheets of a legal fault, and who takes part.
fn sheets_of_fault(
    alloc: Global,
    setting: &Setting<'_>,
    fault: &LegalFault,
    language: Language,
) -> Result<Vec<Sheet>, NoMemory>
    ensures { IfOk result (λ sheets. IsFaultReport setting.now.book.now setting.now.returns.now fault.now (map table_of sheets.items)) }
{
    let mut sheets = fault_sheets(alloc, setting.book, setting.returns, fault, language)?;
    let mut first = first_sheets(alloc, setting, None)?;
    sheets.append(&mut first)?;
    Ok(sheets)
}

// The sheets that show how a count ends.
fn sheets_of(
    alloc: Global,
    show: Show<'_>,
    setting: &Setting<'_>,
    full: &FullNames,
    end: &End,
    language: Language,
) -> Result<Vec<Sheet>, NoMemory>
    requires { HoldsEnd (book_of setting.now.book.now) setting.now.returns.now end.now }
    ensures { IfOk result (λ sheets. Shows setting.now.book.now setting.now.returns.now show.entry end.now (map table_of sheets.items)) }
{
    match (show, end) {
        (Show::Seats, End::Counted(counted)) => { seat_sheets(alloc, setting, &counted.table) }
        (Show::Steps, End::Counted(counted)) => { step_sheets(alloc, setting, &counted.table) }
        (Show::Report, End::Counted(counted)) => report_sheets(alloc, setting, counted),
        (Show::Short(earlier), End::Counted(counted)) => {
            press_sheets(alloc, setting, full, counted, earlier)
        }
        (Show::Stages, End::Counted(counted)) => stage_sheets(alloc, setting, counted),
        (_, End::Fault(fault)) => sheets_of_fault(alloc, setting, fault, language),
    }
}

// The status of how a count ends.
fn status_of(end: &End) -> Status
    ensures { result ≡ end_status end.now }
{
    match end {
        End::Counted(_) => Status::Done,
        End::Fault(_) => Status::Legal,
    }
}

/// The answer that shows how the count of a good book on good returns ends, with the line with which counting tells of a legal fault.
pub fn count_answer(
    alloc: Global,
    show: Show<'_>,
    book: &CheckedBook,
    returns: &Returns,
    full: &FullNames,
    end: &End,
    line: Vec<u8>,
    language: Language,
) -> Result<Answer, NoMemory>
    requires { HoldsEnd (book_of book.now.book) returns.now end.now }
    ensures status { IfOk result (λ a. a.status ≡ end_status end.now) }
    ensures line { IfOk result (λ a. a.line ≡ line) }
    ensures names { IfOk result (λ a. AreNames book.now.book.stages.items returns.now a.names) }
    ensures shows { IfOk result (λ a. Shows book.now.book returns.now show.entry end.now (map table_of a.sheets.items)) }
{
    let names = names_of(alloc, Some(&book.book), returns, full)?;
    let parts = parts_of(alloc, book.book.eligible.as_slice(), returns)?;
    let setting = Setting::new(&book.book, returns, parts);
    let sheets = sheets_of(alloc, show, &setting, full, end, language)?;
    Ok(Answer {
        status: status_of(end),
        line,
        names,
        sheets,
    })
}
