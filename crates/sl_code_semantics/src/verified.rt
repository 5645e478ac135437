//! Codes that are well kinded.

ghost use Rattle.std.specs.Prelude.{◌≡◌, None};
ghost use Rattle.sl_code_semantics.specs.Faults.{verify_fault};
ghost use Rattle.sl_code_semantics.specs.WellKinded.{IsWellKinded};

use sl_code_instructions::Code;
use std::marker::Model;

/// A code that is well kinded (docs/verifier.md, section 3).
#[derive(Drop)]
pub struct Verified {
    code: Code,
}

impl Model for Verified {
    ghost use Rattle.sl_code_instructions.specs.Codes.{CountingCode};
    ghost use Rattle.sl_code_semantics.specs.WellKinded.{IsWellKinded};

    ghost Value = { CountingCode };

    ghost view = { λ v. v.code };

    ghost invariant = { λ v. IsWellKinded v.code };
}

impl Verified {
    /// A code that is known to be well kinded, without a test.
    pub fn known(code: Code) -> Verified
        requires { IsWellKinded code }
        ensures { result ≡ code }
    {
        Verified { code }
    }

    /// The code.
    pub fn code(&self) -> &Code
        ensures code { result.now ≡ self.now }
        ensures kinds { IsWellKinded self.now }
        ensures accepted { verify_fault self.now ≡ None }
    {
        &self.code
    }

    /// The code, on its own.
    pub fn into_code(self) -> Code
        ensures { result ≡ self }
    {
        let Verified { code } = self;
        code
    }
}
