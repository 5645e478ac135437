//! Explains code files that are refused, and runs that take too long.

ghost use Rattle.std.specs.Prelude.{◌≡◌, IfOk, Some};
ghost use Rattle.sl_explain_texts.specs.declared.code.FaultCode.TheVariants.{C14, C15};
ghost use Rattle.sl_explain_texts.specs.Messages.{IsFilledBy, IsSaidBy};
ghost use Rattle.sl_explain_faults.specs.Codes.{file_code, verifier_code};

use crate::texts::code_files as texts;
use sl_base_quotients::NoMemory;
use sl_code::CodeFault;
use sl_code_semantics::VerifyFault;
use sl_explain_texts::{
    Explanation, FaultCode, Language, Message, Sentence, Span, Speaker, first_line,
};
use std::alloc::Global;

// What is said of bytes that do not begin as a code file, and what to do.
fn magic_messages(bytes: &[u8]) -> (&'static Message, &'static Message)
    ensures { IsFilledBy result.0.now 0 × IsFilledBy result.1.now 0 }
{
    let text = bytes.trim_ascii();
    if text.is_empty() {
        (&texts::EMPTY, &texts::AGAIN)
    } else if text.starts_with(b"rulebook") || text.starts_with(b"#") {
        (&texts::BOOK, &texts::COUNT)
    } else if text.starts_with(b"kind") || text.starts_with(b"\xEF\xBB\xBFkind") {
        (&texts::RETURNS, &texts::ORDER)
    } else {
        (&texts::MAGIC, &texts::AGAIN)
    }
}

// A file that does not begin as a code file, with the code of the fault that was met in it.
fn explain_magic(speaker: Speaker, bytes: &[u8], code: FaultCode) -> Result<Explanation, NoMemory>
    ensures { IfOk result (λ x. x.code ≡ Some code) }
{
    let (message, remedy) = magic_messages(bytes);
    let sentence = (code, message.0, message.1);
    let explainer = if bytes.is_empty() || std::str::from_utf8(bytes).is_err() {
        speaker.says(&sentence, &[])
    } else {
        let end = first_line(bytes).len();
        speaker.says_at(&sentence, &[], Span { start: 0, end })
    };
    explainer.helped(remedy, &[]).finished()
}

// A fault at an offset, or at an instruction.
fn explain_at(speaker: Speaker, sentence: &Sentence, at: usize) -> Result<Explanation, NoMemory>
    requires { IsSaidBy sentence.now 1 }
    ensures { IfOk result (λ x. x.code ≡ Some sentence.now.0) }
{
    let number = speaker.number(at)?;
    let mut explainer = speaker.says(sentence, &[number.as_slice()]);
    explainer.helps(&texts::AGAIN, &[]);
    explainer.helps(&texts::CHANGED, &[]);
    explainer.finished()
}

/// Explains the fault that bytes have as a code file.
pub fn explain_code_bytes(
    alloc: Global,
    language: Language,
    bytes: &[u8],
    fault: CodeFault,
) -> Result<Explanation, NoMemory>
    ensures { IfOk result (λ x. x.code ≡ file_code fault) }
{
    let speaker = Speaker { alloc, language };
    match fault {
        CodeFault::Magic(_) => explain_magic(speaker, bytes, FaultCode::C01),
        CodeFault::Version(at) => explain_at(speaker, &texts::VERSION, at),
        CodeFault::Op(at) => explain_at(speaker, &texts::OP, at),
        CodeFault::Short(_) if bytes.is_empty() => explain_magic(speaker, bytes, FaultCode::C04),
        CodeFault::Short(at) => explain_at(speaker, &texts::SHORT_CODE, at),
        CodeFault::Trailing(at) => explain_at(speaker, &texts::TRAILING, at),
        CodeFault::Limit(at) => explain_at(speaker, &texts::CODE_LIMIT, at),
        CodeFault::NoMemory => Err(NoMemory),
    }
}

/// Explains the fault that the verifier finds in a code.
pub fn explain_code_kinds(
    alloc: Global,
    language: Language,
    fault: VerifyFault,
) -> Result<Explanation, NoMemory>
    ensures { IfOk result (λ x. x.code ≡ Some (verifier_code fault)) }
{
    let speaker = Speaker { alloc, language };
    match fault {
        VerifyFault::Jump(at) => explain_at(speaker, &texts::JUMP, at),
        VerifyFault::Register(at) => explain_at(speaker, &texts::REGISTER, at),
        VerifyFault::Kind(at) => explain_at(speaker, &texts::KIND, at),
        VerifyFault::Slot(at) => explain_at(speaker, &texts::SLOT, at),
        VerifyFault::TableKind(at) => explain_at(speaker, &texts::TABLE, at),
        VerifyFault::Meet(at) => explain_at(speaker, &texts::MEET, at),
        VerifyFault::RunsOff(at) => explain_at(speaker, &texts::RUNS_OFF, at),
    }
}

/// Explains a code file that is longer than it may be.
pub fn explain_long_code(alloc: Global, language: Language) -> Result<Explanation, NoMemory>
    ensures { IfOk result (λ x. x.code ≡ Some C14) }
{
    let speaker = Speaker { alloc, language };
    let explainer = speaker.says(&texts::LONG, &[]);
    explainer.helped(&texts::AGAIN, &[]).finished()
}

/// Explains a run that takes more steps than it may.
pub fn explain_budget(alloc: Global, language: Language) -> Result<Explanation, NoMemory>
    ensures { IfOk result (λ x. x.code ≡ Some C15) }
{
    let speaker = Speaker { alloc, language };
    let explainer = speaker.says(&texts::BUDGET, &[]);
    explainer.helped(&texts::AGAIN, &[]).finished()
}
