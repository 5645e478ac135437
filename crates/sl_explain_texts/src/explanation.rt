//! What is wrong, where, and what to do.

ghost use Rattle.std.specs.Prelude.{◌≡◌, ◌++◌, IfOk, OnOk, map};
ghost use Rattle.sl_explain_texts.specs.Explainers.{IsOf};
ghost use Rattle.sl_explain_texts.specs.Pages.{advice, texts_in};

use crate::code::FaultCode;
use sl_base_quotients::NoMemory;
use std::alloc::Global;

/// Bytes of an input, by the offset of the first and that after the last, both from 0.
#[derive(Clone, Copy)]
pub struct Span {
    pub start: usize,
    pub end: usize,
}

// Adds texts to those that are lent.
#[tactic(auto, using(crate::proofs::Holes::lent_more))]
fn push_texts<'a>(lent: &mut Vec<&'a [u8]>, texts: &'a [Vec<u8>]) -> Result<(), NoMemory>
    ensures { OnOk result (map (λ x. x.now) lent.new.items ≡ map (λ x. x.now) lent.old.items ++ texts_in texts.now) }
{
    for text in texts {
        lent.push(text.as_slice())?;
    }
    Ok(())
}

/// An explanation: the code of the fault that it is about, a sentence on what is wrong, the bytes of the input that it speaks of, if it speaks of
/// any, what to do, records that may be added to the returns, of which the first remedy speaks, and lines on what else there is to say of the input.
/// An explanation of no fault of an input, as of a file that cannot be opened, has no code. An `Explainer` makes one.
#[derive(Drop)]
pub struct Explanation {
    pub(crate) code: Option<FaultCode>,
    pub(crate) span: Option<Span>,
    pub(crate) sentence: Vec<u8>,
    pub(crate) remedies: Vec<Vec<u8>>,
    pub(crate) records: Vec<Vec<u8>>,
    pub(crate) lines: Vec<Vec<u8>>,
}

impl Explanation {
    /// The code of the fault.
    pub fn code(&self) -> Option<FaultCode>
        ensures { result ≡ self.now.code }
    {
        self.code
    }

    /// What is wrong.
    pub fn sentence(&self) -> &[u8]
        ensures { result.now ≡ self.now.sentence.items }
    {
        self.sentence.as_slice()
    }

    /// Where it is.
    pub fn span(&self) -> Option<Span>
        ensures { result ≡ self.now.span }
    {
        self.span
    }

    /// What to do, a sentence each.
    pub fn remedies(&self) -> &[Vec<u8>]
        ensures { result.now ≡ self.now.remedies.items }
    {
        self.remedies.as_slice()
    }

    /// The records that may be added to the returns.
    pub fn records(&self) -> &[Vec<u8>]
        ensures { result.now ≡ self.now.records.items }
    {
        self.records.as_slice()
    }

    /// What to do, in the order in which it is read: the first remedy, the records that it speaks of, and the other remedies.
    pub fn advice(&self, alloc: Global) -> Result<Vec<&[u8]>, NoMemory>
        ensures { IfOk result (λ texts. map (λ x. x.now) texts.items ≡ advice self.now) }
    {
        let remedies = self.remedies();
        let (first, others) = remedies.split_at(remedies.len().min(1));
        let mut texts = Vec::new(alloc);
        push_texts(&mut texts, first)?;
        push_texts(&mut texts, self.records())?;
        push_texts(&mut texts, others)?;
        Ok(texts)
    }

    /// Adds what to do.
    pub fn add_remedy(&mut self, text: Vec<u8>) -> Result<(), NoMemory>
        ensures { IsOf self.old self.new }
    {
        self.remedies.push(text)?;
        Ok(())
    }

    /// Adds a line that stands after all else.
    pub fn add_line(&mut self, text: Vec<u8>) -> Result<(), NoMemory>
        ensures { IsOf self.old self.new }
    {
        self.lines.push(text)?;
        Ok(())
    }

    /// The lines after that.
    pub fn lines(&self) -> &[Vec<u8>]
        ensures { result.now ≡ self.now.lines.items }
    {
        self.lines.as_slice()
    }
}
