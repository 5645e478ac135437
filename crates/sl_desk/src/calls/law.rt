//! The text of a rulebook of the library.

ghost use Rattle.std.specs.Prelude.{◌≡◌, IfErr};
ghost use Rattle.sl_count_inputs.specs.Failures.{counts, counts_after, failures_after};
ghost use Rattle.sl_count_inputs.specs.Library.{IsLawOutput, unknown_law};
ghost use Rattle.sl_count_inputs.specs.Writing.{Delivers, Writes};

use sl_count_inputs::{DeskError, Failed, Sink, Status, write_all};
use sl_laws::law;

// Writes the line that refuses a name, without memory.
fn write_refusal<W: Sink>(name: &str, out: &mut W) -> Result<(), Failed>
    ensures written { Writes (unknown_law name.now) (W.contents out.old) (W.contents out.new) result }
    ensures failures { W.failed out.new ≡ failures_after (W.failed out.old) result }
{
    write_all(out, b"refused law ")?;
    write_all(out, name.as_bytes())?;
    write_all(out, b"\n")
}

/// Writes the text of the library's rulebook of that name, or the line that refuses the name (docs/laws.md). Takes no memory.
///
/// # Errors
///
/// `Write` where the sink failed.
pub fn law_text<W: Sink>(name: &str, out: &mut W) -> Result<Status, DeskError>
    // The text that is delivered is that of the name.
    ensures delivers { Delivers (IsLawOutput name.now) (W.contents out.old) (W.contents out.new) result }

    // No call of the sink failed, or one.
    ensures failures { counts 0 0 0 (W.failed out.new) ≡ counts_after (counts 0 0 0 (W.failed out.old)) result }

    // Nothing else goes wrong.
    ensures error { IfErr result (λ e. e ≡ DeskError.Write) }
{
    let (status, written) = match law(name) {
        Some(text) => (Status::Done, write_all(out, text.as_bytes())),
        None => (Status::Refused, write_refusal(name, out)),
    };
    match written {
        Ok(()) => Ok(status),
        Err(_) => Err(DeskError::Write),
    }
}
