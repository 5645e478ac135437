//! How answers are written, as a trait.

ghost use Rattle.std.specs.Prelude.{IfOk, List, ⊤, ℕ};
ghost use Rattle.sl_report_forms.specs.declared.heading.Heading.{Heading as Headed};
ghost use Rattle.sl_report_tables.specs.Answers.{IsAnswerText};
ghost use Rattle.sl_report_tables.specs.declared.answer.Answer.{Answer as Answered};
ghost use Rattle.sl_report_forms.specs.declared.shape.Shape.{Shape as Shaped};

use sl_base_quotients::NoMemory;
use sl_report_forms::{Heading, Shape};
use sl_report_tables::Answer;
use std::alloc::Global;

/// How answers are written. What text an answer has is known to a proof by this trait's relation alone. So whoever writes the text of an answer, whatever
/// the forms are, has called `text` on this answer.
pub trait Forms {
    // That it is the text of an answer in a form, with what a heading says in addition.
    ghost is_text: { Self → Shaped → Headed → Answered → List ℕ → Type 0 } = { λ _ _ _ _ _. ⊤ };

    /// The text of an answer.
    fn text(
        &self,
        alloc: Global,
        shape: Shape,
        heading: &Heading<'_>,
        answer: &Answer,
    ) -> Result<Vec<u8>, NoMemory>
        ensures { IfOk result (λ text. is_text self.now shape heading.now answer.now text.items) };
}

/// The forms of the commands: aligned text, Markdown, HTML, JSON and CSV (docs/report.md).
#[derive(Clone, Copy)]
pub struct AllForms;

impl Forms for AllForms {
    ghost is_text = { λ forms shape heading answer text. IsAnswerText shape heading answer text };

    fn text(
        &self,
        alloc: Global,
        shape: Shape,
        heading: &Heading<'_>,
        answer: &Answer,
    ) -> Result<Vec<u8>, NoMemory> {
        answer.text(alloc, shape, heading)
    }
}
