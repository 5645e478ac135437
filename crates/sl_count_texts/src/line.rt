//! Texts of lines, written word by word.

ghost use Rattle.std.specs.Prelude.{◌≡◌, ◌<◌, ◌≤◌, ◌+◌, ◌-◌, ◌^◌, ◌++◌, ◌∷◌, [], OnOk, OnErr, codes, if◌then◌else◌, length, vec_len, vec_capacity};
ghost use Rattle.std.specs.Fmt.{decimal};
ghost use Rattle.sl_count_texts.specs.Lines.{ratio_word, no_text, with_word, with_end};

use itoa::Buffer;
use sl_base_quotients::{NoMemory, Ratio};
use std::alloc::Global;
use std::marker::Model;

/// A text that is written word by word. A line is words separated by one blank, with LF after the last of them (docs/output.md, section 1).
#[derive(Drop)]
pub struct Text {
    alloc: Global,
    bytes: Vec<u8>,
    // whether the last line has a word and no end yet
    begun: bool,
}

impl Model for Text {
    ghost use Rattle.sl_count_texts.specs.Lines.{Draft};

    ghost Value = { Draft };

    ghost view = { λ t. record { bytes = t.bytes.items; begun = t.begun } };
}

// The most bytes that are added one by one: a call that copies so few costs more.
const FEW: usize = 8;

// Makes room for a word of so many bytes, and adds the blank before it, if the line has begun.
#[inline]
fn begin(bytes: &mut Vec<u8>, begun: bool, length: usize) -> Result<(), NoMemory>
    requires { length < 2 ^ 64 - 1 }
    ensures parted { OnOk result (bytes.new.items ≡ bytes.old.items ++ (if begun then 32 ∷ [] else [])) }
    ensures room { OnOk result (vec_len bytes.new + length ≤ vec_capacity bytes.new) }
    ensures unchanged { OnErr result (bytes.new.items ≡ bytes.old.items) }
{
    bytes.reserve(length + 1)?;
    if begun {
        bytes.push_reserved(b' ');
    }
    Ok(())
}

// Adds bytes for which there is room.
#[inline]
fn add(bytes: &mut Vec<u8>, more: &[u8])
    requires { vec_len bytes.old + length more.now ≤ vec_capacity bytes.old }
    ensures { bytes.new.items ≡ bytes.old.items ++ more.now }
{
    if more.len() > FEW {
        let _ = bytes.extend_from_slice(more);
        return;
    }
    for byte in more {
        bytes.push_reserved(*byte);
    }
}

impl Text {
    /// A text without a byte. Takes no memory.
    pub fn new(alloc: Global) -> Text
        ensures { result ≡ no_text }
    {
        Text {
            alloc,
            bytes: Vec::new(alloc),
            begun: false,
        }
    }

    /// Where the text takes its memory.
    pub(crate) fn alloc(&self) -> Global {
        self.alloc
    }

    /// Adds a word to the line, after a blank if it is not the line's first.
    ///
    /// # Errors
    ///
    /// Out of memory. The text is then unchanged.
    pub fn word(&mut self, word: &[u8]) -> Result<(), NoMemory>
        ensures added { OnOk result (self.new ≡ with_word self.old word.now) }
        ensures unchanged { OnErr result (self.new ≡ self.old) }
    {
        begin(&mut self.bytes, self.begun, word.len())?;
        add(&mut self.bytes, word);
        self.begun = true;
        Ok(())
    }

    /// Adds two names to the line as one word, separated by a slash.
    ///
    /// # Errors
    ///
    /// Out of memory. The text is then unchanged.
    pub fn pair(&mut self, first: &[u8], second: &[u8]) -> Result<(), NoMemory>
        ensures added { OnOk result (self.new ≡ with_word self.old (first.now ++ (codes "/" ++ second.now))) }
        ensures unchanged { OnErr result (self.new ≡ self.old) }
    {
        let length = self.bytes.len();
        let begun = self.begun;
        self.word(first)?;
        if self.bytes.push(b'/').is_err() || self.bytes.extend_from_slice(second).is_err() {
            self.bytes.truncate(length);
            self.begun = begun;
            return Err(NoMemory);
        }
        Ok(())
    }

    /// Adds a number to the line, in plain decimal, as a word of its own.
    ///
    /// # Errors
    ///
    /// Out of memory. The text is then unchanged.
    pub fn number(&mut self, number: u64) -> Result<(), NoMemory>
        ensures added { OnOk result (self.new ≡ with_word self.old (decimal number)) }
        ensures unchanged { OnErr result (self.new ≡ self.old) }
    {
        let mut digits = Buffer::new();
        self.word(digits.format(number).as_bytes())
    }

    /// Adds a number of up to 128 bits, as `number` does.
    ///
    /// # Errors
    ///
    /// Out of memory. The text is then unchanged.
    pub fn wide_number(&mut self, number: u128) -> Result<(), NoMemory>
        ensures added { OnOk result (self.new ≡ with_word self.old (decimal number)) }
        ensures unchanged { OnErr result (self.new ≡ self.old) }
    {
        let mut digits = Buffer::new();
        self.word(digits.format(number).as_bytes())
    }

    /// Adds two numbers to the line as one word, separated by a slash.
    ///
    /// # Errors
    ///
    /// Out of memory. The text is then unchanged.
    pub fn number_pair(&mut self, first: u128, second: u128) -> Result<(), NoMemory>
        ensures added { OnOk result (self.new ≡ with_word self.old (decimal first ++ (codes "/" ++ decimal second))) }
        ensures unchanged { OnErr result (self.new ≡ self.old) }
    {
        let mut left = Buffer::new();
        let mut right = Buffer::new();
        self.pair(
            left.format(first).as_bytes(),
            right.format(second).as_bytes(),
        )
    }

    /// Adds a quotient to the line as a word, not reduced.
    ///
    /// # Errors
    ///
    /// Out of memory. The text is then unchanged.
    pub fn ratio(&mut self, ratio: Ratio) -> Result<(), NoMemory>
        ensures added { OnOk result (self.new ≡ with_word self.old (ratio_word ratio)) }
        ensures unchanged { OnErr result (self.new ≡ self.old) }
    {
        if ratio.is_infinite() {
            self.word(b"inf")
        } else {
            self.number_pair(ratio.num(), ratio.den())
        }
    }

    /// Ends the line.
    ///
    /// # Errors
    ///
    /// Out of memory. The text is then unchanged.
    pub fn end_line(&mut self) -> Result<(), NoMemory>
        ensures ended { OnOk result (self.new ≡ with_end self.old) }
        ensures unchanged { OnErr result (self.new ≡ self.old) }
    {
        self.bytes.push(b'\n')?;
        self.begun = false;
        Ok(())
    }

    /// The bytes of the text.
    pub fn into_bytes(self) -> Vec<u8>
        ensures { result.items ≡ self.bytes }
    {
        let Text { bytes, .. } = self;
        bytes
    }
}
