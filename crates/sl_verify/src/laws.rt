//! What the definitions of the verifier imply.

ghost use Rattle.std.specs.Prelude.{◌≡◌, ◌↔◌, ℕ, ◌<◌, ◌^◌, Bool, ◌==◌, if◌then◌else◌, IsTrue, None};
ghost use Rattle.sl_code_instructions.specs.Codes.{CountingCode};
ghost use Rattle.sl_code_instructions.specs.declared.kinds.Registers.{Registers};
ghost use Rattle.sl_code_semantics.specs.Kinds.{is_register, contains, with_register, includes};
ghost use Rattle.sl_code_semantics.specs.WellKinded.{IsWellKinded};
ghost use Rattle.sl_code_semantics.specs.Faults.{verify_fault};
ghost use Rattle.sl_verify.specs.Laws.{Limits, ComesInRow, PassedInRow, TestsInRow, PassedTests, KindedByPass, PassedWithin, PieceWithin, DeclaredFromFirst, NothingAsked};

/// A code is well kinded exactly where it fails no test.
pub fn fault_or_kinds()
    ensures { (code : CountingCode) → IsWellKinded code ↔ (verify_fault code ≡ None) }
{}

/// Masks are sets of registers.
pub fn register_sets()
    // A register that is put in or taken out is so, and no other changes.
    ensures one { (is_in : Bool) (r q : ℕ) (rs : Registers) → IsTrue (is_register r) → IsTrue (is_register q)
        → contains (with_register is_in r rs) q ≡ (if q == r then is_in else contains rs q) }
    // A set includes another where it has each of its registers.
    ensures all { (have need : Registers) → need.mask < 2 ^ 16 → IsTrue (includes have need)
        ↔ ((q : ℕ) → IsTrue (is_register q) → IsTrue (contains need q) → IsTrue (contains have q)) }
{}

/// The registers of the machine, and the stage number of the last clause.
pub fn limits()
    ensures { Limits }
{}

/// The kinds that come after one list of instructions and then another, and the tests of both, are those of the one and then,
/// from what comes after it, those of the other.
pub fn in_row()
    ensures comes { ComesInRow }
    ensures passed { PassedInRow }
    ensures tests { TestsInRow }
{}

/// A code is well kinded exactly where its stages' slots are there, each instruction passes, and nothing comes after the last one.
pub fn kinded_by_pass()
    ensures tests { PassedTests }
    ensures kinded { KindedByPass }
{}

/// A piece of code that passes by itself passes in each code where it stands, and which has the slots and the stages.
pub fn pieces()
    ensures within { PassedWithin }
    ensures context { PieceWithin }
    ensures declared { DeclaredFromFirst }
{}

/// What is declared at a place after which nothing is known is implied by all kinds.
pub fn nothing_asked()
    ensures { NothingAsked }
{}
