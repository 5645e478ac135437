//! What a call writes, and how it ends.

ghost use Rattle.std.specs.Prelude.{◌≡◌, IfErr};
ghost use Rattle.sl_count_inputs.specs.Failures.{counts, counts_after};
ghost use Rattle.sl_count_inputs.specs.Writing.{Delivers};

use sl_count_inputs::{DeskError, Sink, Status, write_all};

/// A text to be written, and the status that stands for it.
#[derive(Drop)]
pub struct Answer {
    pub status: Status,
    pub text: Vec<u8>,
}

impl Answer {
    /// The table to which a book comes, or the line of a good book.
    pub fn done(text: Vec<u8>) -> Answer
        ensures status { result.status ≡ Status.Done }
        ensures text { result.text ≡ text }
    {
        Answer {
            status: Status::Done,
            text,
        }
    }

    /// The line of a legal fault to which a book comes.
    pub fn legal(text: Vec<u8>) -> Answer
        ensures status { result.status ≡ Status.Legal }
        ensures text { result.text ≡ text }
    {
        Answer {
            status: Status::Legal,
            text,
        }
    }

    /// The line of a run that needs more steps than it may take.
    pub fn out_of_budget(text: Vec<u8>) -> Answer
        ensures status { result.status ≡ Status.Budget }
        ensures text { result.text ≡ text }
    {
        Answer {
            status: Status::Budget,
            text,
        }
    }

    /// The line that refuses an input.
    pub fn refused(text: Vec<u8>) -> Answer
        ensures status { result.status ≡ Status.Refused }
        ensures text { result.text ≡ text }
    {
        Answer {
            status: Status::Refused,
            text,
        }
    }

    /// Writes the text, and answers its status.
    ///
    /// # Errors
    ///
    /// `Write` where the sink failed.
    pub fn deliver<W: Sink>(&self, out: &mut W) -> Result<Status, DeskError>
        ensures delivers { Delivers (λ status text. (status ≡ self.now.status) × (text ≡ self.now.text.items)) (W.contents out.old) (W.contents out.new) result }
        ensures failures { counts 0 0 0 (W.failed out.new) ≡ counts_after (counts 0 0 0 (W.failed out.old)) result }
        ensures error { IfErr result (λ e. e ≡ DeskError.Write) }
    {
        match write_all(out, self.text.as_slice()) {
            Ok(()) => Ok(self.status),
            Err(_) => Err(DeskError::Write),
        }
    }
}
