//! Judging a code file.

ghost use Rattle.std.specs.Prelude.{◌≡◌, ◌+◌, IfOk, IfSome};
ghost use Rattle.sl_count_inputs.specs.Failures.{counts, counts_after};
ghost use Rattle.sl_count_inputs.specs.Reading.{TakesAtMost};
ghost use Rattle.sl_count_inputs.specs.Texts.{IsReadText};
ghost use Rattle.sl_count_code_files.specs.CodeFiles.{IsCodeVerdict};

use crate::refusal::CodeRefusal;
use sl_base_quotients::NoMemory;
use sl_code::{CodeFault, from_bytes};
use sl_code_semantics::Verified;
use sl_count_inputs::{Bytes, DeskError, Input, MAX_CODE_BYTES, Source, Verdict, read_all};
use sl_verify::verify;
use std::alloc::Global;

/// What bytes come to as a code file: the code that they spell, and the tests of the verifier.
pub fn judge_code(alloc: Global, bytes: &[u8]) -> Result<Verdict<Verified, CodeRefusal>, NoMemory>
    ensures { IfOk result (IsCodeVerdict bytes.now) }
{
    if bytes.len() > MAX_CODE_BYTES {
        return Ok(Verdict::Refused(CodeRefusal::TooLong));
    }
    let code = match from_bytes(alloc, bytes) {
        Ok(code) => code,
        Err(CodeFault::NoMemory) => return Err(NoMemory),
        Err(fault) => return Ok(Verdict::Refused(CodeRefusal::File(fault))),
    };
    match verify(code) {
        Ok(code) => Ok(Verdict::Good(code)),
        Err((_, fault)) => Ok(Verdict::Refused(CodeRefusal::Kinds(fault))),
    }
}

/// A code file that was read: its bytes, and what they come to.
#[derive(Drop)]
pub struct ReadCode {
    pub file: Vec<u8>,
    pub verdict: Verdict<Verified, CodeRefusal>,
}

/// Reads a code file and judges it.
///
/// # Errors
///
/// `Read` where the source failed, and `NoMemory`.
pub fn read_code<S: Source>(alloc: Global, source: &mut S) -> Result<ReadCode, DeskError>
    ensures verdict { IfOk result (λ r. IfSome (S.remaining source.old) (λ bytes. IsCodeVerdict bytes r.verdict)) }
    // The bytes are those that were read.
    ensures text { IfOk result (λ r. IfSome (S.remaining source.old) (λ bytes. IsReadText MAX_CODE_BYTES bytes r.file.items)) }
    ensures failures { counts 0 0 (S.failed source.new) 0 ≡ counts_after (counts 0 0 (S.failed source.old) 0) result }
    ensures limited { TakesAtMost (MAX_CODE_BYTES + 1) (S.remaining source.old) (S.remaining source.new) }
{
    match read_all(alloc, source, Input::Code, MAX_CODE_BYTES)? {
        Bytes::Whole(file) => {
            let verdict = judge_code(alloc, file.as_slice())?;
            Ok(ReadCode { file, verdict })
        }
        Bytes::TooLong => Ok(ReadCode {
            file: Vec::new(alloc),
            verdict: Verdict::Refused(CodeRefusal::TooLong),
        }),
    }
}
