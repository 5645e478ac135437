//! Judging returns.

ghost use Rattle.std.specs.Prelude.{◌≡◌, ◌+◌, IfOk, IfSome};
ghost use Rattle.sl_count_inputs.specs.Failures.{counts, counts_after};
ghost use Rattle.sl_count_inputs.specs.Holding.{HoldsReturns, IfRefused};
ghost use Rattle.sl_count_inputs.specs.Judging.{election_verdict};
ghost use Rattle.sl_count_inputs.specs.Reading.{TakesAtMost};
ghost use Rattle.sl_count_inputs.specs.Returns.{IsReturnsVerdict};
ghost use Rattle.sl_count_inputs.specs.Texts.{IsReadText};

use crate::input::{Bytes, read_all};
use crate::limits::MAX_RETURNS_BYTES;
use crate::refused_election::RefusedElection;
use crate::source::Source;
use crate::status::{DeskError, Input};
use crate::verdict::Verdict;
use sl_base_quotients::NoMemory;
use sl_returns::{FaultKind, read_or_refuse};
use sl_stages::Returns;
use std::alloc::Global;

/// What bytes come to as returns.
pub fn judge_returns(
    alloc: Global,
    bytes: &[u8],
) -> Result<Verdict<Returns, RefusedElection>, NoMemory>
    ensures verdict { IfOk result (λ v. IsReturnsVerdict bytes.now (election_verdict v)) }
    // With a refusal stand the record that is refused and the further ones.
    ensures holds { IfOk result (λ v. IfRefused v (HoldsReturns bytes.now)) }
{
    if bytes.len() > MAX_RETURNS_BYTES {
        return Ok(Verdict::Refused(RefusedElection::TooLong));
    }
    match read_or_refuse(alloc, bytes) {
        Ok(returns) => Ok(Verdict::Good(returns)),
        Err(refused) if refused.fault.kind == FaultKind::NoMemory => Err(NoMemory),
        Err(refused) => Ok(Verdict::Refused(RefusedElection::Records(refused))),
    }
}

/// Returns that were read: their bytes, and what they come to.
#[derive(Drop)]
pub struct ReadReturns {
    pub text: Vec<u8>,
    pub verdict: Verdict<Returns, RefusedElection>,
}

/// Reads returns and judges them.
///
/// # Errors
///
/// `Read` where the source failed, and `NoMemory`.
pub fn read_election<S: Source>(alloc: Global, source: &mut S) -> Result<ReadReturns, DeskError>
    ensures verdict { IfOk result (λ r. IfSome (S.remaining source.old) (λ bytes. IsReturnsVerdict bytes (election_verdict r.verdict))) }
    // With a refusal stand the record that is refused and the further ones, and the bytes are those that were read.
    ensures holds { IfOk result (λ r. IfSome (S.remaining source.old) (λ bytes. IfRefused r.verdict (HoldsReturns bytes))) }
    ensures text { IfOk result (λ r. IfSome (S.remaining source.old) (λ bytes. IsReadText MAX_RETURNS_BYTES bytes r.text.items)) }
    ensures failures { counts 0 (S.failed source.new) 0 0 ≡ counts_after (counts 0 (S.failed source.old) 0 0) result }
    ensures limited { TakesAtMost (MAX_RETURNS_BYTES + 1) (S.remaining source.old) (S.remaining source.new) }
{
    match read_all(alloc, source, Input::Returns, MAX_RETURNS_BYTES)? {
        Bytes::Whole(text) => {
            let verdict = judge_returns(alloc, text.as_slice())?;
            Ok(ReadReturns { text, verdict })
        }
        Bytes::TooLong => Ok(ReadReturns {
            text: Vec::new(alloc),
            verdict: Verdict::Refused(RefusedElection::TooLong),
        }),
    }
}
