//! Explanations as they are put together: first the sentence, then what to do.

ghost use Rattle.std.specs.Prelude.{◌≡◌, IfOk, length};
ghost use Rattle.sl_explain_texts.specs.Explainers.{Keeps, KeepsWith, Makes};
ghost use Rattle.sl_explain_texts.specs.Messages.{IsFilledBy};

use crate::code::FaultCode;
use crate::explanation::{Explanation, Span};
use crate::filled::Filled;
use crate::message::Message;
use crate::names::nearest;
use crate::speaker::Speaker;
use crate::texts::MEANT;
use sl_base_quotients::NoMemory;

/// An explanation that is being put together. What finds no memory is missing in it, and then `finished` gives the error in its place.
#[derive(Drop)]
pub struct Explainer {
    pub(crate) speaker: Speaker,
    pub(crate) code: Option<FaultCode>,
    pub(crate) span: Option<Span>,
    pub(crate) sentence: Result<Vec<u8>, NoMemory>,
    pub(crate) remedies: Filled<Vec<u8>>,
    pub(crate) records: Result<Vec<Vec<u8>>, NoMemory>,
    pub(crate) lines: Filled<Vec<u8>>,
}

impl Explainer {
    /// Who is spoken to.
    pub fn speaker(&self) -> Speaker
        ensures { result ≡ self.now.speaker }
    {
        self.speaker
    }

    /// Adds what to do.
    pub fn helps(&mut self, message: &Message, values: &[&[u8]])
        requires { IsFilledBy message.now (length values.now) }
        ensures { Keeps self.old self.new }
    {
        let text = self.speaker.text(message, values);
        self.remedies.push(text);
    }

    /// Adds what to do, by a value that was made, unless making it found no memory.
    pub fn helps_with(&mut self, message: &Message, value: Result<Vec<u8>, NoMemory>)
        requires { IsFilledBy message.now 1 }
        ensures { Keeps self.old self.new }
    {
        let text = self.speaker.text_with(message, value);
        self.remedies.push(text);
    }

    /// The explanation with one sentence more on what to do.
    pub fn helped(self, message: &Message, values: &[&[u8]]) -> Explainer
        requires { IsFilledBy message.now (length values.now) }
        ensures { Keeps self result }
    {
        let mut explainer = self;
        explainer.helps(message, values);
        explainer
    }

    /// Gives the records that may be added to the returns, of which the first remedy speaks.
    pub fn gives_records(&mut self, records: Result<Vec<Vec<u8>>, NoMemory>)
        ensures { KeepsWith self.old self.new records }
    {
        self.records = records;
    }

    /// Adds a line that stands after all else.
    pub fn line(&mut self, text: Result<Vec<u8>, NoMemory>)
        ensures { Keeps self.old self.new }
    {
        self.lines.push(text);
    }

    /// Adds the question whether a name is meant.
    pub fn helps_meant(&mut self, name: &[u8])
        ensures { Keeps self.old self.new }
    {
        self.helps(&MEANT, &[name]);
    }

    /// Adds the question whether one of these names is meant by a word that is near to it. Answers whether there is one.
    pub fn helps_nearest(&mut self, word: &[u8], names: &[&[u8]]) -> Result<bool, NoMemory>
        ensures { Keeps self.old self.new }
    {
        let near = nearest(self.speaker.alloc, word, names)?;
        if let Some(name) = near {
            self.helps_meant(name);
        }
        Ok(near.is_some())
    }

    /// The explanation, if all of it found memory.
    pub fn finished(self) -> Result<Explanation, NoMemory>
        ensures { IfOk result (Makes self) }
    {
        Ok(Explanation {
            code: self.code,
            span: self.span,
            sentence: self.sentence?,
            remedies: self.remedies.finished()?,
            records: self.records?,
            lines: self.lines.finished()?,
        })
    }
}
