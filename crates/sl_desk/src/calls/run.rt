//! Running a code file: from its bytes and returns to the text of how the run ends.

ghost use Rattle.std.specs.Prelude.{◌⊎◌, ◌≡◌, ◌+◌, IfOk, IfErr, IfSome};
ghost use Rattle.sl_desk.specs.JudgedRuns.{FitsJudged, HasRunTexts, IsJudged, IsJudgedOn, IsReturnsText, IsRunAnswer, IsTable, RunsInto};
ghost use Rattle.sl_desk.specs.Running.{IsRunCode, ReadsBehindCode};
ghost use Rattle.sl_count_inputs.specs.Failures.{counts, counts_after};
ghost use Rattle.sl_count_inputs.specs.Reading.{ForKnown, TakesAtMost};
ghost use Rattle.sl_count_inputs.specs.Writing.{Delivers};
ghost use Rattle.sl_count_inputs.specs.declared.limits.TheConstants.{MAX_CODE_BYTES, MAX_RETURNS_BYTES};
ghost use Rattle.sl_machine.specs.Fits.{Fits};

use crate::runs::run_text;
use sl_base_quotients::NoMemory;
use sl_code_semantics::Verified;
use sl_count_calls::Answer;
use sl_count_code_files::{CodeRefusal, ReadCode, read_code};
use sl_count_inputs::{
    DeskError, ReadReturns, RefusedElection, Sink, Source, Status, Verdict, read_election,
};
use sl_machine::{Ending, budget, run_unrecorded};
use sl_stages::Returns;
use std::alloc::Global;

/// Good code on good returns, and how its run ends, with the budget of its stages and without its records.
#[derive(Drop)]
pub struct Run {
    pub code: Verified,
    pub returns: Returns,
    pub ending: Ending,
}

/// What a code file and returns come to.
#[derive(Drop)]
pub enum JudgedRun {
    /// The code file is refused.
    CodeRefused(CodeRefusal),
    /// The returns are refused, after a good code file.
    ReturnsRefused(RefusedElection),
    /// Both are good.
    Ran(Run),
}

/// What a code file and returns come to, and the bytes of both as far as they were read: none of an input that is too long, and of returns that were
/// not read.
#[derive(Drop)]
pub struct ReadRun {
    pub judged: JudgedRun,
    pub file: Vec<u8>,
    pub returns: Vec<u8>,
}

// How the run of good code on good returns ends.
fn ending_of(alloc: Global, code: &Verified, returns: &Returns) -> Result<Ending, DeskError>
    ensures memory { IfErr result (λ e. e ≡ DeskError.NoMemory) }
    ensures ending { IfOk result (RunsInto code.now returns.now) }
    ensures fits { IfOk result (Fits code.now returns.now) }
{
    let steps = budget(code.code().stages().len(), returns);
    Ok(run_unrecorded(alloc, code, returns, steps)?)
}

// What good code and the returns of a source come to.
fn read_on<S: Source>(
    alloc: Global,
    code: Verified,
    file: Vec<u8>,
    returns: &mut S,
) -> Result<ReadRun, DeskError>
    ensures judged { IfOk result (λ r. IfSome (S.remaining returns.old) (λ bytes. IsJudgedOn code bytes r.judged)) }
    ensures fits { IfOk result (λ r. FitsJudged r.judged) }
    ensures file { IfOk result (λ r. r.file.items ≡ file.items) }
    ensures text { IfOk result (λ r. IsReturnsText r.judged (S.remaining returns.old) r.returns.items) }
    ensures failures { counts 0 (S.failed returns.new) 0 0 ≡ counts_after (counts 0 (S.failed returns.old) 0 0) result }
    ensures limited { TakesAtMost (MAX_RETURNS_BYTES + 1) (S.remaining returns.old) (S.remaining returns.new) }
{
    let ReadReturns { text, verdict } = read_election(alloc, returns)?;
    match verdict {
        Verdict::Good(returns) => {
            let ending = ending_of(alloc, &code, &returns)?;
            Ok(ReadRun {
                judged: JudgedRun::Ran(Run {
                    code,
                    returns,
                    ending,
                }),
                file,
                returns: text,
            })
        }
        Verdict::Refused(refused) => Ok(ReadRun {
            judged: JudgedRun::ReturnsRefused(refused),
            file,
            returns: text,
        }),
    }
}

/// Reads a code file and returns, and answers what they come to. The code is read and judged before the returns.
///
/// # Errors
///
/// `Read` where a source failed, and `NoMemory`.
pub fn judge_run<C: Source, R: Source>(
    alloc: Global,
    code: &mut C,
    returns: &mut R,
) -> Result<ReadRun, DeskError>
    // It is what the two inputs come to, where their bytes are known.
    ensures judged { IfOk result (λ r. ForKnown (C.remaining code.old) (R.remaining returns.old) (λ file bytes. IsJudged file bytes r.judged)) }
    ensures fits { IfOk result (λ r. FitsJudged r.judged) }

    // The bytes are those that were read of the two.
    ensures text { IfOk result (HasRunTexts (C.remaining code.old) (R.remaining returns.old)) }

    // No call of a source failed, or that one of which the error speaks.
    ensures failures { counts 0 (R.failed returns.new) (C.failed code.new) 0
        ≡ counts_after (counts 0 (R.failed returns.old) (C.failed code.old) 0) result }

    // What is taken of the inputs, the returns only after good code.
    ensures code { TakesAtMost (MAX_CODE_BYTES + 1) (C.remaining code.old) (C.remaining code.new) }
    ensures returns { ReadsBehindCode R.remaining (C.remaining code.old) returns.old returns.new result }
{
    let ReadCode { file, verdict } = read_code(alloc, code)?;
    match verdict {
        Verdict::Good(code) => read_on(alloc, code, file, returns),
        Verdict::Refused(refused) => Ok(ReadRun {
            judged: JudgedRun::CodeRefused(refused),
            file,
            returns: Vec::new(alloc),
        }),
    }
}

/// What is written of what a code file and returns come to.
pub fn run_answer(alloc: Global, judged: &JudgedRun) -> Result<Answer, NoMemory>
    requires { FitsJudged judged.now }
    // Whatever two inputs came to it, it is the output of running the one on the other.
    ensures output { IfOk result (λ a. IsRunAnswer judged.now a.status a.text.items) }
    // Only a table has the status `Done`.
    ensures done { IfOk result (λ a. a.status ≡ Status.Done → IsTable judged.now) }
{
    match judged {
        JudgedRun::CodeRefused(code) => Ok(Answer::refused(code.line(alloc)?)),
        JudgedRun::ReturnsRefused(returns) => Ok(Answer::refused(returns.why().line(alloc)?)),
        JudgedRun::Ran(run) => run_text(alloc, run.code.code(), &run.returns, &run.ending),
    }
}

// Writes what a code file and returns come to.
fn written<W: Sink>(alloc: Global, judged: &JudgedRun, out: &mut W) -> Result<Status, DeskError>
    requires { FitsJudged judged.now }
    ensures delivers { Delivers (IsRunAnswer judged.now) (W.contents out.old) (W.contents out.new) result }
    ensures failures { counts 0 0 0 (W.failed out.new) ≡ counts_after (counts 0 0 0 (W.failed out.old)) result }
    ensures error { IfErr result (λ e. (e ≡ DeskError.NoMemory) ⊎ (e ≡ DeskError.Write)) }
{
    let answer = run_answer(alloc, judged)?;
    answer.deliver(out)
}

/// Runs a code file on returns: reads both, and writes the table or the legal fault with which the run of the code ends, or that it is out of
/// its budget, or the line that refuses one of the inputs. The code is read and judged before the returns (docs/output.md).
///
/// # Errors
///
/// `Read` where a source failed, `Write` where the sink did, and `NoMemory`.
pub fn run_code<C: Source, R: Source, W: Sink>(
    alloc: Global,
    code: &mut C,
    returns: &mut R,
    out: &mut W,
) -> Result<Status, DeskError>
    // The text that is delivered is the output of the two inputs, where their bytes are known.
    ensures delivers { Delivers (λ status text. ForKnown (C.remaining code.old) (R.remaining returns.old) (λ file bytes.
        IsRunCode file bytes status text)) (W.contents out.old) (W.contents out.new) result }

    // No call of a source or of the sink failed, or that one of which the error speaks.
    ensures failures { counts 0 (R.failed returns.new) (C.failed code.new) (W.failed out.new)
        ≡ counts_after (counts 0 (R.failed returns.old) (C.failed code.old) (W.failed out.old)) result }

    // What is taken of the inputs, the returns only after good code.
    ensures code { TakesAtMost (MAX_CODE_BYTES + 1) (C.remaining code.old) (C.remaining code.new) }
    ensures returns { ReadsBehindCode R.remaining (C.remaining code.old) returns.old returns.new result }
{
    match judge_run(alloc, code, returns) {
        Ok(read) => {
            let ended = written(alloc, &read.judged, out);
            drop(read);
            ended
        }
        Err(error) => Err(error),
    }
}
