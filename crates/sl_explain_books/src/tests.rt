//! Explains the tests that a rulebook fails.

ghost use Rattle.std.specs.Prelude.{◌≡◌, IfOk, Some, length};
ghost use Rattle.sl_explain_texts.specs.Messages.{IsSaidBy};
ghost use Rattle.sl_explain_books.specs.Codes.{test_code};

mod columns;
mod divisions;
mod forms;
mod names;
mod node;
mod numbers;

use crate::pieces::{line_number, piece, token_span};
use crate::texts::tests::{CAP, CAP_REMEDY, HOUSE, HOUSE_REMEDY};
use divisions::explain_option;
use forms::{explain_shape, explain_two_splits};
pub use names::around;
use names::{explain_seats, explain_twice, explain_unknown};
use numbers::{explain_seat_number, explain_share, explain_version};
use sl_base_quotients::NoMemory;
use sl_explain_texts::{Explainer, FaultCode, Sentence, Speaker};
use sl_law_meaning::{Book, CheckFault, Stage};

/// A refused rulebook, as it was written, and who is told of it.
#[derive(Clone, Copy)]
pub struct Written<'a> {
    pub speaker: Speaker,
    pub text: &'a [u8],
    pub book: &'a Book,
}

impl<'a> Written<'a> {
    /// The stages of the rulebook.
    pub fn stages(&self) -> &'a [Stage] {
        self.book.stages.as_slice()
    }

    /// The token at an offset.
    pub fn token(&self, at: usize) -> &'a [u8] {
        piece(self.text, token_span(self.text, at))
    }

    /// The number of the line in which an offset lies.
    pub fn line(&self, at: usize) -> Result<Vec<u8>, NoMemory> {
        self.speaker.number(line_number(self.text, at))
    }

    /// An explanation of one sentence, on the token at an offset.
    pub fn says(&self, sentence: &Sentence, values: &[&[u8]], at: usize) -> Explainer
        requires { IsSaidBy sentence.now (length values.now) }
        ensures { result.code ≡ Some sentence.now.0 }
    {
        let span = token_span(self.text, at);
        self.speaker.says_at(sentence, values, span)
    }

    /// Explains a test that the rulebook fails.
    pub fn explain(&self, fault: CheckFault) -> Result<Explainer, NoMemory>
        ensures { IfOk result (λ x. x.code ≡ Some (test_code fault)) }
    {
        match fault {
            CheckFault::Version(at) => Ok(explain_version(self, at)),
            CheckFault::HouseRange(at) => explain_seat_number(self, at, &HOUSE, &HOUSE_REMEDY),
            CheckFault::PerRange(at) => explain_share(self, at),
            CheckFault::StageTwice(at) => explain_twice(self, at),
            CheckFault::StageUnknown(at) => explain_unknown(self, at),
            CheckFault::Shape(at) => explain_shape(self, FaultCode::B16, at),
            CheckFault::Unit(at) => explain_shape(self, FaultCode::B17, at),
            CheckFault::TwoSplits(at) => Ok(explain_two_splits(self, at)),
            CheckFault::MethodOption(at) => explain_option(self, at),
            CheckFault::CapRange(at) => explain_seat_number(self, at, &CAP, &CAP_REMEDY),
            CheckFault::SeatsShape(at) => explain_seats(self, at),
        }
    }
}
