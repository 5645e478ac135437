//! The call that decides whether a code is well kinded.

ghost use Rattle.std.specs.Prelude.{◌≡◌, ◌↔◌, Some, IfOk, IfErr, IsOk};
ghost use Rattle.sl_code_semantics.specs.WellKinded.{IsWellKinded};
ghost use Rattle.sl_code_semantics.specs.Faults.{verify_fault};

use crate::pass::check_code;
use sl_code_instructions::Code;
use sl_code_semantics::{Verified, VerifyFault};

/// The code itself, as one that is well kinded; else the code, with the first test that it fails
/// (docs/verifier.md, section 4). It takes no memory.
pub fn verify(code: Code) -> Result<Verified, (Code, VerifyFault)>
    ensures ok { IfOk result (λ v. v ≡ code) }
    ensures err { IfErr result (λ e. (e.0 ≡ code) × (verify_fault code ≡ Some e.1)) }
    ensures exact { IsOk result ↔ IsWellKinded code }
{
    match check_code(&code) {
        Ok(()) => Ok(Verified::known(code)),
        Err(fault) => Err((code, fault)),
    }
}
