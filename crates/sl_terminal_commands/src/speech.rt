//! What there is to say of a code, as a trait.

ghost use Rattle.std.specs.Prelude.{IfOk, List, ⊤, ℕ};
ghost use Rattle.sl_explain_texts.specs.declared.code.FaultCode.{FaultCode as Code};
ghost use Rattle.sl_explain_texts.specs.declared.language.Language.{Language as Spoken};

use sl_base_quotients::NoMemory;
use sl_explain_codes::text_about;
use sl_explain_texts::{FaultCode, Language};
use std::alloc::Global;

/// What there is to say of a code. A proof knows of it what the relation of this trait says and no more, so that whoever writes a text about a code has it
/// from here.
pub trait Speech {
    // That it is the text about a code in a language.
    ghost is_about: { Self → Spoken → Code → List ℕ → Type 0 } = { λ _ _ _ _. ⊤ };

    /// What there is to say of a code.
    fn about(&self, alloc: Global, language: Language, code: FaultCode) -> Result<Vec<u8>, NoMemory>
        ensures { IfOk result (λ text. is_about self.now language code text.items) };
}

/// The codes of the documentation (docs/faults.md).
#[derive(Clone, Copy)]
pub struct Documented;

impl Speech for Documented {
    fn about(
        &self,
        alloc: Global,
        language: Language,
        code: FaultCode,
    ) -> Result<Vec<u8>, NoMemory> {
        text_about(alloc, language, code)
    }
}
