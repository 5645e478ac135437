//! The explanation of a fault of returns.

ghost use Rattle.std.specs.Prelude.{◌≡◌, IfOk, IfSome, None, Some};
ghost use Rattle.sl_explain_returns.specs.Places.{Explains, IsInRecord};
ghost use Rattle.sl_explain_texts.specs.declared.code.FaultCode.TheVariants.{R12};
ghost use Rattle.sl_explain_returns.specs.Codes.{returns_code};

use crate::case::Case;
use crate::fields::explain_fields;
use crate::further::add_further;
use crate::header::explain_header;
use crate::kinds::{explain_kind, explain_no_land};
use crate::names::explain_name;
use crate::numbers::{explain_number, explain_range};
use crate::quotes::explain_quote;
use crate::texts::faults as texts;
use crate::twice::{explain_counted, explain_too_many, explain_twice};
use crate::unknown::explain_unknown;
use sl_base_quotients::NoMemory;
use sl_explain_texts::{Explainer, Explanation, FaultCode, Language, Speaker};
use sl_returns::{FaultKind, RefusedReturns, ReturnsFault};
use sl_returns_places::RecordAtFault;
use std::alloc::Global;

// The code of a fault of returns, if it is one.
fn code_of(kind: FaultKind) -> Option<FaultCode>
    ensures { result ≡ returns_code kind }
{
    match kind {
        FaultKind::Header => Some(FaultCode::R01),
        FaultKind::Fields => Some(FaultCode::R02),
        FaultKind::Kind => Some(FaultCode::R03),
        FaultKind::Name => Some(FaultCode::R04),
        FaultKind::Number => Some(FaultCode::R05),
        FaultKind::Range => Some(FaultCode::R06),
        FaultKind::Unknown => Some(FaultCode::R07),
        FaultKind::Twice => Some(FaultCode::R08),
        FaultKind::Counted => Some(FaultCode::R09),
        FaultKind::TooMany => Some(FaultCode::R10),
        FaultKind::NoLand => Some(FaultCode::R11),
        FaultKind::NoMemory => None,
    }
}

// Out of memory, which is no fault of the returns.
fn explain_no_memory(speaker: Speaker) -> Explainer
    ensures { (result.code ≡ None) × (result.span ≡ None) }
{
    speaker
        .tells(&texts::OUT_OF_MEMORY, &[])
        .helped(&texts::END_OTHERS, &[])
}

// A fault, in a record whose quotes are closed.
fn explain_fault(case: &Case<'_>, fault: ReturnsFault) -> Result<Explainer, NoMemory>
    ensures { IfOk result (Explains case.now (returns_code fault.kind)) }
{
    match fault.kind {
        FaultKind::Header => explain_header(case),
        FaultKind::Fields => explain_fields(case, fault.column),
        FaultKind::Kind => explain_kind(case),
        FaultKind::Name => explain_name(case),
        FaultKind::Number => explain_number(case),
        FaultKind::Range => explain_range(case),
        FaultKind::Unknown => explain_unknown(case),
        FaultKind::Twice => explain_twice(case, fault.column),
        FaultKind::Counted => Ok(explain_counted(case)),
        FaultKind::TooMany => explain_too_many(case),
        FaultKind::NoLand => Ok(explain_no_land(case)),
        FaultKind::NoMemory => Ok(explain_no_memory(case.speaker)),
    }
}

// A quote that is not closed in a record after the header. Of the first record it is looked first what the file is.
fn explain_open_quote(case: &Case<'_>, kind: FaultKind) -> Option<Explainer>
    ensures { IfSome result (Explains case.now (returns_code kind)) }
{
    match code_of(kind) {
        Some(FaultCode::R01) | None => None,
        Some(code) => explain_quote(case, code),
    }
}

// A record that is refused.
pub(crate) fn explain_record(case: &Case<'_>) -> Result<Explainer, NoMemory>
    ensures { IfOk result (Explains case.now (returns_code case.now.refused.fault.kind)) }
{
    let fault = case.refused.fault;
    match explain_open_quote(case, fault.kind) {
        Some(explainer) => Ok(explainer),
        None => explain_fault(case, fault),
    }
}

/// The explanation of why the returns in these bytes are refused: of the first record that is, and in a line each of the further ones.
pub fn explain_returns(
    alloc: Global,
    language: Language,
    bytes: &[u8],
    refused: &RefusedReturns,
) -> Result<Explanation, NoMemory>
    ensures code { IfOk result (λ x. x.code ≡ returns_code refused.now.fault.kind) }
    ensures place { IfOk result (λ x. IsInRecord bytes.now refused.now.fault.row x.span) }
{
    let case = Case {
        speaker: Speaker { alloc, language },
        bytes,
        refused: RecordAtFault::first_of(refused),
        taken: &refused.taken,
    };
    let mut explainer = explain_record(&case)?;
    add_further(&case, refused, &mut explainer);
    explainer.finished()
}

/// The explanation of returns that are longer than they may be.
pub fn explain_long_returns(alloc: Global, language: Language) -> Result<Explanation, NoMemory>
    ensures { IfOk result (λ x. (x.code ≡ Some R12) × (x.span ≡ None)) }
{
    let speaker = Speaker { alloc, language };
    speaker
        .says(&texts::TOO_LONG, &[])
        .helped(&texts::RIGHT_FILE, &[])
        .finished()
}
