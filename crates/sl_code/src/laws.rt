//! Laws of code files, over their definitions alone. Each function does nothing: its contract is the law.

ghost use Rattle.sl_code.specs.Laws.{Limits, OneCode, OneFault, SpellingOrFault, CodeOrFault, ReadsBack};

/// The limits of codes.
pub fn limits()
    ensures { Limits }
{}

/// Bytes spell at most one code.
pub fn one_code()
    ensures { OneCode }
{}

/// Bytes have at most one fault.
pub fn one_fault()
    ensures { OneFault }
{}

/// The spelling of a code has no fault.
pub fn spelling_or_fault()
    ensures { SpellingOrFault }
{}

/// Bytes spell a code, or they have a fault.
pub fn code_or_fault()
    ensures { CodeOrFault }
{}

/// What is written reads back: from the spelling of a code, reading gives that code alone, or memory runs out.
pub fn reads_back()
    ensures { ReadsBack }
{}
