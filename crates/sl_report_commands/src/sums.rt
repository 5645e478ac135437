//! The command that adds up returns: `totals`.

ghost use Rattle.std.specs.Prelude.{◌≡◌, IfOk, codes, is_err, option_map};
ghost use Rattle.sl_report_commands.specs.Digests.{digests};
ghost use Rattle.sl_report_commands.specs.Summaries.{IsNamedTotals, IsTotalsBy, IsTotalsOn};
ghost use Rattle.sl_report_commands.specs.Written.{IsWritten, json_digests, returns_subject, totals_subject};
ghost use Rattle.sl_explain_calls.specs.Codes.{subject_of};
ghost use Rattle.sl_report_commands.specs.inner.Digested.{totals_digested};

use crate::counts::again;
use crate::forms::Forms;
use crate::written::{
    Reasoned, Style, Texts, Written, digested_book, digested_returns, push_digested, refusal_of,
};
use sl_base_quotients::NoMemory;
use sl_count_inputs::{RefusedBook, RefusedElection, Verdict};
use sl_explain_texts::Language;
use sl_report_forms::DigestedInput;
use sl_report_tables::{Answer, FullNames, totals_answer};
use sl_stages::{Book, CheckedBook, Returns};
use std::alloc::Global;

/// What a rulebook comes to.
pub type BookVerdict<'a> = Verdict<CheckedBook, RefusedBook<'a>>;

/// What returns come to.
pub type ReturnsVerdict = Verdict<Returns, RefusedElection>;

// The totals of good returns, with a good book if one is given, and with full names; or the answer that refuses these.
fn named_totals(
    alloc: Global,
    book: Option<&Book>,
    returns: &Returns,
    names: &Result<FullNames, Answer>,
    language: Language,
) -> Result<Answer, NoMemory>
    ensures { IfOk result (IsNamedTotals (is_err names.now) (option_map (λ b. b.now) book.entry) returns.now) }
{
    match names {
        Ok(full) => totals_answer(alloc, book, returns, full, language),
        Err(refusal) => again(alloc, refusal),
    }
}

// The totals of returns of these bytes, with a good book if one is given.
fn totals_on<'a>(
    alloc: Global,
    book: Option<&Book>,
    returns: &ReturnsVerdict,
    bytes: &'a [u8],
    names: &Result<FullNames, Answer>,
    language: Language,
) -> Result<Reasoned<'a>, NoMemory>
    ensures totals { IfOk result (λ r. IsTotalsOn (is_err names.now) (option_map (λ b. b.now) book.entry) returns.now r.answer) }
    ensures told { IfOk result (λ r. option_map (λ r. subject_of r.explained) r.reason ≡ returns_subject returns.now) }
{
    match returns {
        Verdict::Good(returns) => Ok(Reasoned {
            answer: named_totals(alloc, book, returns, names, language)?,
            reason: None,
        }),
        Verdict::Refused(refused) => Reasoned::refused_returns(alloc, language, bytes, refused),
    }
}

// The totals of returns, with a book if one is given, of these texts.
fn totals_by<'a>(
    alloc: Global,
    book: Option<&BookVerdict<'_>>,
    returns: &ReturnsVerdict,
    texts: Texts<'a>,
    names: &Result<FullNames, Answer>,
    language: Language,
) -> Result<Reasoned<'a>, NoMemory>
    ensures totals { IfOk result (λ r. IsTotalsBy (is_err names.now) (option_map (λ v. v.now) book.entry) returns.now r.answer) }
    ensures told { IfOk result (λ r. option_map (λ r. subject_of r.explained) r.reason ≡ totals_subject (option_map (λ v. v.now) book.entry) returns.now) }
{
    match book {
        None => totals_on(alloc, None, returns, texts.returns, names, language),
        Some(Verdict::Good(checked)) => {
            totals_on(
                alloc,
                Some(&checked.book),
                returns,
                texts.returns,
                names,
                language,
            )
        }
        Some(Verdict::Refused(refused)) => {
            Reasoned::refused_book(alloc, language, texts.book, refused)
        }
    }
}

// The digests of a book, if one is given, and of returns, as far as they have bytes.
fn digested_totals(
    alloc: Global,
    book: Option<&BookVerdict<'_>>,
    returns: &ReturnsVerdict,
    texts: Texts<'_>,
) -> Result<Vec<DigestedInput>, NoMemory>
    ensures { IfOk result (λ inputs. digests inputs.items ≡ totals_digested (option_map (λ v. v.now) book.entry) returns.now texts.entry.book.now texts.entry.returns.now) }
{
    let mut inputs = Vec::new(alloc);
    if let Some(verdict) = book {
        push_digested(
            &mut inputs,
            digested_book(None, texts.book, refusal_of(verdict)),
        )?;
    }
    push_digested(
        &mut inputs,
        digested_returns(texts.returns, refusal_of(returns)),
    )?;
    Ok(inputs)
}

// The digests that JSON has of the inputs of totals.
fn digested_in(
    alloc: Global,
    book: Option<&BookVerdict<'_>>,
    returns: &ReturnsVerdict,
    texts: Texts<'_>,
    style: Style,
) -> Result<Vec<DigestedInput>, NoMemory>
    ensures { IfOk result (λ inputs. digests inputs.items ≡ json_digests style (totals_digested (option_map (λ v. v.now) book.entry) returns.now texts.entry.book.now texts.entry.returns.now)) }
{
    if style.is_json() {
        digested_totals(alloc, book, returns, texts)
    } else {
        Ok(Vec::new(alloc))
    }
}

/// The totals of returns that were judged, with a rulebook if one is given, of these texts and with full names: with their text, and with why there are none,
/// if an input is refused.
pub fn total_judged<F: Forms>(
    forms: &F,
    alloc: Global,
    book: Option<&BookVerdict<'_>>,
    returns: &ReturnsVerdict,
    names: &Result<FullNames, Answer>,
    texts: Texts<'_>,
    style: Style,
) -> Result<Written, NoMemory>
    ensures totals { IfOk result (λ w. IsTotalsBy (is_err names.now) (option_map (λ v. v.now) book.entry) returns.now w.answer) }
    ensures text { IfOk result (λ w. IsWritten (F.is_text forms.now) (codes "totals") style
        (json_digests style (totals_digested (option_map (λ v. v.now) book.entry) returns.now texts.entry.book.now texts.entry.returns.now)) w.answer w.text.items) }
    ensures told { IfOk result (λ w. option_map subject_of w.told ≡ totals_subject (option_map (λ v. v.now) book.entry) returns.now) }
{
    let inputs = digested_in(alloc, book, returns, texts, style)?;
    let written = match totals_by(alloc, book, returns, texts, names, style.language) {
        Ok(totals) => totals.written(forms, alloc, "totals", style, inputs.as_slice()),
        Err(NoMemory) => Err(NoMemory),
    };
    drop(inputs);
    written
}
