//! Who is spoken to, and texts in that language.

ghost use Rattle.std.specs.Fmt.{decimal};
ghost use Rattle.std.specs.Prelude.{◌≡◌, ◌++◌, ◌∷◌, [], IfOk, IsOkAnd, None, Some, codes, length};
ghost use Rattle.sl_explain_texts.specs.Explainers.{Begins};
ghost use Rattle.sl_explain_texts.specs.Languages.{in_language, lent, lent_of_fault};
ghost use Rattle.sl_explain_texts.specs.Messages.{IsFilledBy, IsSaidBy, counted, says, texts_of};
ghost use Rattle.sl_explain_texts.specs.Shown.{repeated};

use crate::explainer::Explainer;
use crate::explanation::Span;
use crate::filled::Filled;
use crate::language::Language;
use crate::message::{Message, Sentence, filled};
use crate::shown::push_repeated;
use crate::texts::{AND, OR};
use sl_base_quotients::NoMemory;
use std::alloc::Global;

/// The language in which a person is spoken to, and the memory for what is said.
#[derive(Clone, Copy)]
pub struct Speaker {
    pub alloc: Global,
    pub language: Language,
}

impl Speaker {
    // An explanation of one sentence, without a code and a place.
    fn begins(self, sentence: Result<Vec<u8>, NoMemory>) -> Explainer
        ensures none { (result.code ≡ None) × (result.span ≡ None) }
        ensures sentence { result.sentence ≡ sentence }
        ensures records { IfOk result.records (λ rs. rs.items ≡ []) }
    {
        Explainer {
            speaker: self,
            code: None,
            span: None,
            sentence,
            remedies: Filled::new(self.alloc),
            records: Ok(Vec::new(self.alloc)),
            lines: Filled::new(self.alloc),
        }
    }

    /// An explanation of no fault of an input, without a place.
    pub fn tells(self, message: &Message, values: &[&[u8]]) -> Explainer
        requires { IsFilledBy message.now (length values.now) }
        ensures none { (result.code ≡ None) × (result.span ≡ None) }
        ensures said { Begins result (says self.language (lent message.now) (texts_of values.now)) }
    {
        self.begins(self.text(message, values))
    }

    /// An explanation of one sentence, without a place.
    pub fn says(self, sentence: &Sentence, values: &[&[u8]]) -> Explainer
        requires { IsSaidBy sentence.now (length values.now) }
        ensures fault { (result.code ≡ Some sentence.now.0) × (result.span ≡ None) }
        ensures said { Begins result (says self.language (lent_of_fault sentence.now) (texts_of values.now)) }
    {
        let mut explainer = self.tells(&(sentence.1, sentence.2), values);
        explainer.code = Some(sentence.0);
        explainer
    }

    /// An explanation of one sentence, on some bytes.
    pub fn says_at(self, sentence: &Sentence, values: &[&[u8]], span: Span) -> Explainer
        requires { IsSaidBy sentence.now (length values.now) }
        ensures fault { (result.code ≡ Some sentence.now.0) × (result.span ≡ Some span) }
        ensures said { Begins result (says self.language (lent_of_fault sentence.now) (texts_of values.now)) }
    {
        let mut explainer = self.says(sentence, values);
        explainer.span = Some(span);
        explainer
    }

    /// A text in the language.
    pub fn text(self, message: &Message, values: &[&[u8]]) -> Result<Vec<u8>, NoMemory>
        requires { IsFilledBy message.now (length values.now) }
        ensures { IfOk result (λ text. text.items ≡ says self.language (lent message.now) (texts_of values.now)) }
    {
        self.filled(message, values)
    }

    /// The same with values whose number only a run tells. A hole without one is left empty.
    pub fn filled(self, message: &Message, values: &[&[u8]]) -> Result<Vec<u8>, NoMemory>
        ensures { IfOk result (λ text. text.items ≡ says self.language (lent message.now) (texts_of values.now)) }
    {
        filled(self.alloc, self.language, message, values)
    }

    /// A text in the language, by a value that was made, unless making it found no memory.
    pub fn text_with(
        self,
        message: &Message,
        value: Result<Vec<u8>, NoMemory>,
    ) -> Result<Vec<u8>, NoMemory>
        requires { IsFilledBy message.now 1 }
        ensures { IfOk result (λ text. IsOkAnd value (λ v. text.items ≡ says self.language (lent message.now) (v.items ∷ []))) }
    {
        self.text(message, &[value?.as_slice()])
    }

    /// A number in digits.
    pub fn number(self, number: usize) -> Result<Vec<u8>, NoMemory>
        ensures { IfOk result (λ text. text.items ≡ decimal number) }
    {
        Ok(number.to_string(self.alloc)?.into_bytes())
    }

    /// So many things, as `1 cell` or `7 cells`: the message for one of them or that for more, whose value is the number.
    pub fn counted(self, number: usize, one: &Message, more: &Message) -> Result<Vec<u8>, NoMemory>
        requires { IsFilledBy one.now 1 × IsFilledBy more.now 1 }
        ensures { IfOk result (λ text. text.items ≡ counted self.language number (lent one.now) (lent more.now)) }
    {
        let message = if number == 1 { one } else { more };
        self.text_with(message, self.number(number))
    }

    /// Some bytes of an input as a sentence repeats them: the first of them, without control characters.
    pub fn shown(self, text: &[u8]) -> Result<Vec<u8>, NoMemory>
        ensures { IfOk result (λ shown. shown.items ≡ repeated text.now) }
    {
        let mut shown = Vec::new(self.alloc);
        push_repeated(&mut shown, text)?;
        Ok(shown)
    }

    /// A message without values.
    pub fn word(self, message: &Message) -> &'static [u8]
        requires { IsFilledBy message.now 0 }
        ensures { result.now ≡ in_language self.language message.now }
    {
        self.language.text(message).as_bytes()
    }

    /// Words in a row, with an `or` before the last.
    pub fn one_of(self, words: &[Vec<u8>]) -> Result<Vec<u8>, NoMemory> {
        self.listed(words, &OR)
    }

    /// Words in a row, with an `and` before the last.
    pub fn all_of(self, words: &[Vec<u8>]) -> Result<Vec<u8>, NoMemory> {
        self.listed(words, &AND)
    }

    // What stands before a word in a row, after which so many are left.
    fn separator(self, is_first: bool, behind: usize, joint: &Message) -> &'static [u8]
        requires { IsFilledBy joint.now 0 }
    {
        if is_first {
            b""
        } else if behind == 0 {
            self.word(joint)
        } else {
            b", "
        }
    }

    // Words in a row, with a word before the last.
    fn listed(self, words: &[Vec<u8>], joint: &Message) -> Result<Vec<u8>, NoMemory>
        requires { IsFilledBy joint.now 0 }
    {
        let mut text = Vec::new(self.alloc);
        let mut behind = words.len();
        for word in words {
            let is_first = behind == words.len();
            behind = behind.saturating_sub(1);
            text.extend_from_slice(self.separator(is_first, behind, joint))?;
            text.extend_from_slice(word.as_slice())?;
        }
        Ok(text)
    }

    /// A word between backquotes.
    pub fn quoted(self, word: &[u8]) -> Result<Vec<u8>, NoMemory>
        ensures { IfOk result (λ text. text.items ≡ codes "`" ++ word.now ++ codes "`") }
    {
        Ok([b"`".as_slice(), word, b"`"].concat(self.alloc)?)
    }
    /// Words in a row, each between backquotes, with an `and` before the last.
    pub fn all_quoted(self, words: &[&[u8]]) -> Result<Vec<u8>, NoMemory> {
        let mut quoted = Vec::new(self.alloc);
        for word in words {
            quoted.push(self.quoted(word)?)?;
        }
        self.all_of(quoted.as_slice())
    }
}
