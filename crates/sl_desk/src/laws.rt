//! Laws of verdicts, and of what is written.

ghost use Rattle.std.specs.Prelude.{◌≡◌};
ghost use Rattle.sl_count_inputs.specs.declared.limits.TheConstants.{MAX_BOOK_BYTES, MAX_CODE_BYTES, MAX_RETURNS_BYTES};
ghost use Rattle.sl_desk.specs.Laws.{OneBookVerdict, OneReturnsVerdict, OneCodeVerdict, NoOtherCodeVerdict, HasOneOutput, HasOneStage, HasOneCheck, OneRun, HasOneRun, RunsItsCode, RunIsCount};

/// How many bytes a book, a code file and returns may have.
pub fn limits()
    ensures { (MAX_BOOK_BYTES ≡ 65536) × (MAX_CODE_BYTES ≡ 4194304) × (MAX_RETURNS_BYTES ≡ 4194304) }
{}

/// Each text of a book yields exactly one verdict: a good book, or one refusal.
pub fn books_have_one_verdict()
    ensures { OneBookVerdict }
{
    sl_lex::laws::one_list();
    sl_lex::laws::one_fault();
    sl_lex::laws::no_fault_of_tokens();
    sl_lex::laws::tokens_or_fault();
    sl_parse::laws::one_tree();
    sl_parse::laws::one_fault();
    sl_parse::laws::no_fault_of_a_book();
    sl_parse::laws::book_or_fault();
}

/// The bytes of returns yield exactly one verdict: an election, or one refusal.
pub fn returns_have_one_verdict()
    ensures { OneReturnsVerdict }
{}

/// The bytes of a book and of returns have at most one output: a status and a text.
pub fn inputs_have_one_output()
    ensures { HasOneOutput }
{
    sl_lex::laws::one_list();
    sl_lex::laws::one_fault();
    sl_lex::laws::no_fault_of_tokens();
    sl_parse::laws::one_tree();
    sl_parse::laws::one_fault();
    sl_parse::laws::no_fault_of_a_book();
}

/// The bytes of a book and of returns, and the name of a stage, have at most one output: a status and a text.
pub fn stages_have_one_output()
    ensures { HasOneStage }
{
    sl_lex::laws::one_list();
    sl_lex::laws::one_fault();
    sl_lex::laws::no_fault_of_tokens();
    sl_parse::laws::one_tree();
    sl_parse::laws::one_fault();
    sl_parse::laws::no_fault_of_a_book();
}

/// The bytes of a book have at most one line that checking writes: a status and a text.
pub fn books_have_one_check()
    ensures { HasOneCheck }
{
    sl_lex::laws::one_list();
    sl_lex::laws::one_fault();
    sl_lex::laws::no_fault_of_tokens();
    sl_parse::laws::one_tree();
    sl_parse::laws::one_fault();
    sl_parse::laws::no_fault_of_a_book();
}

/// The bytes of a code file yield exactly one verdict: a good code, or one refusal.
pub fn code_files_have_one_verdict()
    ensures one { OneCodeVerdict }
    ensures no_other { NoOtherCodeVerdict }
{
    sl_code::laws::code_or_fault();
    sl_code::laws::one_code();
    sl_code::laws::one_fault();
    sl_code::laws::spelling_or_fault();
    sl_verify::laws::fault_or_kinds();
}

/// The bytes of a code file and of returns have exactly one output: a status and a text.
pub fn runs_have_one_output()
    ensures one { OneRun }
    ensures no_other { HasOneRun }
{
    code_files_have_one_verdict();
    sl_code_semantics::laws::never_stuck();
}

/// Running the file of a code writes how the run of that code ends; and of a code that counts as a book means, what counting by the book writes.
pub fn run_is_count()
    ensures code { RunsItsCode }
    ensures book { RunIsCount }
{
    code_files_have_one_verdict();
}
