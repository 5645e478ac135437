//! The fault of what the inputs of a command came to, explained.

ghost use Rattle.std.specs.Prelude.{◌≡◌, IfOk, Some, option_map};
ghost use Rattle.sl_explain_calls.specs.Codes.{check_subject, end_subject, ending_subject, judged_subject, run_subject, subject, subject_of};
ghost use Rattle.sl_explain_texts.specs.declared.code.FaultCode.TheVariants.{B22, C15};
ghost use Rattle.sl_explain_faults.specs.Codes.{legal_code};
ghost use Rattle.sl_count_inputs.specs.declared.status.Input.TheVariants as input;

use crate::explained::Explained;
use crate::refusals::{explain_book, explain_code, explain_election};
use sl_base_quotients::NoMemory;
use sl_code_instructions::Code;
use sl_count_calls::{End, Judged, Outcome, Read};
use sl_count_inputs::{Input, ReadBook, RefusedBook, Verdict};
use sl_desk::{JudgedRun, ReadRun, Run};
use sl_explain_books::explain_unknown_stage;
use sl_explain_faults::{explain_budget, explain_legal};
use sl_explain_texts::Language;
use sl_machine::Ending;
use sl_stages::{Book, CheckedBook, LegalFault, Returns};
use std::alloc::Global;

// The names of a code's stages, in order.
fn names_of<'a>(alloc: Global, code: &'a Code) -> Result<Vec<&'a [u8]>, NoMemory> {
    let mut names = Vec::new(alloc);
    for stage in code.stages() {
        names.push(stage.name.as_bytes())?;
    }
    Ok(names)
}

// The legal fault to which a code comes on returns.
fn explain_fault(
    alloc: Global,
    language: Language,
    code: &Code,
    returns: &Returns,
    fault: &LegalFault,
) -> Result<Explained, NoMemory>
    ensures { IfOk result (λ told. subject_of told ≡ subject input.Returns (Some (legal_code fault.now))) }
{
    let names = names_of(alloc, code)?;
    Ok(Explained {
        input: Input::Returns,
        explanation: explain_legal(alloc, language, names.as_slice(), returns, fault)?,
    })
}

// A name that no stage of a rulebook has.
fn explain_stage(
    alloc: Global,
    language: Language,
    book: &Book,
    name: &str,
) -> Result<Explained, NoMemory>
    ensures { IfOk result (λ told. subject_of told ≡ subject input.Book (Some B22)) }
{
    Ok(Explained {
        input: Input::Book,
        explanation: explain_unknown_stage(alloc, language, book, name)?,
    })
}

/// Why a judged rulebook of this text is refused, or `None` where it is good.
pub fn explain_verdict(
    alloc: Global,
    language: Language,
    text: &[u8],
    verdict: &Verdict<CheckedBook, RefusedBook<'_>>,
) -> Result<Option<Explained>, NoMemory>
    ensures { IfOk result (λ told. option_map subject_of told ≡ check_subject verdict.now) }
{
    match verdict {
        Verdict::Good(_) => Ok(None),
        Verdict::Refused(refused) => {
            let told = explain_book(alloc, language, text, refused)?;
            Ok(Some(told))
        }
    }
}

/// Why a rulebook that was read is refused, or `None` where it is good.
pub fn explain_check(
    alloc: Global,
    language: Language,
    read: &ReadBook<'_>,
) -> Result<Option<Explained>, NoMemory>
    ensures { IfOk result (λ told. option_map subject_of told ≡ check_subject read.now.verdict) }
{
    explain_verdict(alloc, language, read.text.as_slice(), &read.verdict)
}

/// Why a count on returns came to no table, or `None` where it came to one.
pub fn explain_outcome(
    alloc: Global,
    language: Language,
    returns: &Returns,
    outcome: &Outcome,
) -> Result<Option<Explained>, NoMemory>
    ensures { IfOk result (λ told. option_map subject_of told ≡ end_subject outcome.now.end) }
{
    match &outcome.end {
        End::Counted(_) => Ok(None),
        End::Fault(fault) => {
            let told = explain_fault(alloc, language, outcome.code.code(), returns, fault)?;
            Ok(Some(told))
        }
    }
}

/// Why a rulebook and returns of these texts yield no table, or `None` where they yield one.
pub fn explain_judged(
    alloc: Global,
    language: Language,
    judged: &Judged<'_>,
    book: &[u8],
    returns: &[u8],
) -> Result<Option<Explained>, NoMemory>
    ensures { IfOk result (λ told. option_map subject_of told ≡ judged_subject judged.now) }
{
    match judged {
        Judged::BookRefused(refused) => {
            let told = explain_book(alloc, language, book, refused)?;
            Ok(Some(told))
        }
        Judged::StageUnknown(book, name) => {
            Ok(Some(explain_stage(alloc, language, &book.book, name)?))
        }
        Judged::ReturnsRefused(refused) => {
            let told = explain_election(alloc, language, returns, refused)?;
            Ok(Some(told))
        }
        Judged::Counted(counting) => {
            explain_outcome(alloc, language, &counting.returns, &counting.outcome)
        }
    }
}

/// Why a rulebook and returns that were read came to no table, or `None` where they came to one.
pub fn explain_read(
    alloc: Global,
    language: Language,
    read: &Read<'_>,
) -> Result<Option<Explained>, NoMemory>
    ensures { IfOk result (λ told. option_map subject_of told ≡ judged_subject read.now.judged) }
{
    explain_judged(
        alloc,
        language,
        &read.judged,
        read.book.as_slice(),
        read.returns.as_slice(),
    )
}

// A run that takes more steps than it may.
fn explain_steps(alloc: Global, language: Language) -> Result<Explained, NoMemory>
    ensures { IfOk result (λ told. subject_of told ≡ subject input.Code (Some C15)) }
{
    Ok(Explained {
        input: Input::Code,
        explanation: explain_budget(alloc, language)?,
    })
}

// Why the run of a good code on good returns ended without a table.
fn explain_ending(
    alloc: Global,
    language: Language,
    run: &Run,
) -> Result<Option<Explained>, NoMemory>
    ensures { IfOk result (λ told. option_map subject_of told ≡ ending_subject run.now.ending) }
{
    match &run.ending {
        Ending::Done(_) => Ok(None),
        Ending::Fault(fault) => {
            let told = explain_fault(alloc, language, run.code.code(), &run.returns, fault)?;
            Ok(Some(told))
        }
        Ending::OutOfBudget => Ok(Some(explain_steps(alloc, language)?)),
    }
}

/// Why the run of a code file on returns came to no table, or `None` where it came to one.
pub fn explain_run(
    alloc: Global,
    language: Language,
    read: &ReadRun,
) -> Result<Option<Explained>, NoMemory>
    ensures { IfOk result (λ told. option_map subject_of told ≡ run_subject read.now.judged) }
{
    match &read.judged {
        JudgedRun::CodeRefused(refused) => {
            let told = explain_code(alloc, language, read.file.as_slice(), *refused)?;
            Ok(Some(told))
        }
        JudgedRun::ReturnsRefused(refused) => {
            let told = explain_election(alloc, language, read.returns.as_slice(), refused)?;
            Ok(Some(told))
        }
        JudgedRun::Ran(run) => explain_ending(alloc, language, run),
    }
}
