//! What the end of a run writes.

ghost use Rattle.std.specs.Prelude.{◌≡◌, IfOk};
ghost use Rattle.sl_desk.specs.Endings.{IsEndingOutput, out_of_budget};
ghost use Rattle.sl_desk.specs.JudgedRuns.{IsTableEnd};
ghost use Rattle.sl_machine.specs.Fits.{Fits};

use sl_base_quotients::NoMemory;
use sl_code_instructions::Code;
use sl_count_calls::Answer;
use sl_count_inputs::Status;
use sl_machine::Ending;
use sl_stages::Returns;
use sl_table::{Text, fault_text, short_text, table_of};
use std::alloc::Global;

// The line of a run that needs more steps than it may take.
fn out_of_budget(alloc: Global) -> Result<Vec<u8>, NoMemory>
    ensures { IfOk result (λ text. text.items ≡ out_of_budget) }
{
    let mut text = Text::new(alloc);
    text.word(b"out")?;
    text.word(b"of")?;
    text.word(b"budget")?;
    text.end_line()?;
    Ok(text.into_bytes())
}

/// What the end of a run of a code on returns writes: the seats, the legal fault, or that the steps ran out.
pub(crate) fn run_text(
    alloc: Global,
    code: &Code,
    returns: &Returns,
    ending: &Ending,
) -> Result<Answer, NoMemory>
    requires fits { Fits code.now returns.now ending.now }
    ensures done { IfOk result (λ a. a.status ≡ Status.Done → IsTableEnd ending.now) }
    ensures output { IfOk result (λ a. IsEndingOutput code.now returns.now ending.now a.status a.text.items) }
{
    match ending {
        Ending::Done(memory) => {
            let table = table_of(alloc, memory, returns)?;
            Ok(Answer::done(short_text(alloc, &table, returns)?))
        }
        Ending::Fault(fault) => Ok(Answer::legal(fault_text(alloc, fault, returns, code)?)),
        Ending::OutOfBudget => Ok(Answer::out_of_budget(out_of_budget(alloc)?)),
    }
}
