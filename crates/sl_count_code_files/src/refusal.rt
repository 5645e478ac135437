//! Why code files are refused, and the lines that say so.

ghost use Rattle.std.specs.Prelude.{◌≡◌, IfOk};
ghost use Rattle.sl_count_code_files.specs.CodeFiles.{code_fault, kinds_fault};

use sl_base_quotients::NoMemory;
use sl_code::CodeFault;
use sl_code_semantics::VerifyFault;
use sl_count_inputs::{Numbered, refused, refused_by};
use std::alloc::Global;

/// Why a code file is refused.
#[derive(Clone, Copy)]
pub enum CodeRefusal {
    /// It has too many bytes.
    TooLong,
    /// The bytes spell no code.
    File(CodeFault),
    /// The code fails a test of the verifier.
    Kinds(VerifyFault),
}

impl CodeRefusal {
    ghost use Rattle.sl_count_code_files.specs.CodeFiles.{code_line};

    /// The line that refuses the code file.
    pub fn line(self, alloc: Global) -> Result<Vec<u8>, NoMemory>
        ensures { IfOk result (λ line. line.items ≡ code_line self) }
    {
        match self {
            CodeRefusal::TooLong => refused(alloc, b"code", b"toolong"),
            CodeRefusal::File(fault) => refused_by(alloc, b"code", b"file", code_fault(fault)),
            CodeRefusal::Kinds(fault) => refused_by(alloc, b"code", b"verify", kinds_fault(fault)),
        }
    }
}

// The number of a fault of a code file, and its offset.
fn code_fault(fault: CodeFault) -> Numbered
    ensures { result ≡ code_fault fault }
{
    let (number, at) = match fault {
        CodeFault::Magic(at) => (1, at),
        CodeFault::Version(at) => (2, at),
        CodeFault::Op(at) => (3, at),
        CodeFault::Short(at) => (4, at),
        CodeFault::Trailing(at) => (5, at),
        CodeFault::Limit(at) => (6, at),
        CodeFault::NoMemory => (7, 0),
    };
    Numbered {
        number,
        at: at as u64,
    }
}

// The number of a test of the verifier that a code fails, and the number of the instruction.
fn kinds_fault(fault: VerifyFault) -> Numbered
    ensures { result ≡ kinds_fault fault }
{
    let (number, at) = match fault {
        VerifyFault::Jump(at) => (1, at),
        VerifyFault::Register(at) => (2, at),
        VerifyFault::Kind(at) => (3, at),
        VerifyFault::Slot(at) => (4, at),
        VerifyFault::TableKind(at) => (5, at),
        VerifyFault::Meet(at) => (6, at),
        VerifyFault::RunsOff(at) => (7, at),
    };
    Numbered {
        number,
        at: at as u64,
    }
}
