//! Codes of rulebooks and their runs. Tests have well-formed rulebooks and ample memory here; what else comes is reported as a text.

ghost use Rattle.std.specs.Prelude.{IfOk};
ghost use Rattle.sl_machine.specs.Fits.{Fits};

use sl_base_quotients::NoMemory;
use sl_check::check;
use sl_code_semantics::Verified;
use sl_compile::compile;
use sl_lex::lex;
use sl_machine::{Ending, budget, run};
use sl_parse::parse;
use sl_stages::{CheckedBook, Returns};
use std::alloc::Global;

/// The checked book of a text.
pub fn checked(alloc: Global, text: &[u8]) -> Result<CheckedBook, &'static str> {
    let Ok(tokens) = lex(alloc, text) else {
        return Err("no tokens");
    };
    let Ok(book) = parse(alloc, text, tokens.as_slice()) else {
        return Err("no book");
    };
    match check(book) {
        Ok(book) => Ok(book),
        Err(_) => Err("no checked book"),
    }
}

/// The code of the book of a text.
pub fn compiled(alloc: Global, text: &[u8]) -> Result<Verified, &'static str> {
    match compile(alloc, &checked(alloc, text)?) {
        Ok(code) => Ok(code),
        Err(_) => Err("no memory"),
    }
}

/// How a run ends that has as many steps as its budget.
pub fn ending(alloc: Global, code: &Verified, returns: &Returns) -> Result<Ending, NoMemory>
    ensures { IfOk result (Fits code.now returns.now) }
{
    let steps = budget(code.code().stages().len(), returns);
    run(alloc, code, returns, steps)
}
