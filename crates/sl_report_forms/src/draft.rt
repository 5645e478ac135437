//! Texts that are written from the begin to the end. Where memory runs out, they say so at their end.

ghost use Rattle.std.specs.Prelude.{◌≡◌, [], Some, None, IfOk, IfSome, OnErr, length, nat_eq, string_bytes};
ghost use Rattle.std.specs.Char.{encode_utf8};
ghost use Rattle.sl_report_forms.specs.Drafts.{Grows};

use sl_base_quotients::NoMemory;
use std::alloc::Global;
use std::marker::Model;

/// A copy of a text.
pub(crate) fn copied(alloc: Global, text: &str) -> Result<String, NoMemory>
    ensures { IfOk result (λ t. string_bytes t ≡ text.now) }
{
    Ok(String::from_str(alloc, text)?)
}

/// A text that is being written. What finds no memory is missing in it, and then `finished` gives the error in place of the text.
#[derive(Drop)]
pub(crate) struct Draft {
    text: String,
    is_whole: bool,
}

impl Model for Draft {
    ghost use Rattle.std.specs.Prelude.{ℕ, List, Option, Some, None, string_bytes, if◌then◌else◌};

    ghost Value = { Option (List ℕ) };

    ghost view = { λ d. if d.is_whole then Some (string_bytes d.text) else None };
}

impl Draft {
    /// A text of which nothing is written. Takes no memory.
    pub(crate) fn new(alloc: Global) -> Draft
        ensures { result ≡ Some [] }
    {
        Draft {
            text: String::new(alloc),
            is_whole: true,
        }
    }

    /// The same, with room for so many bytes where there is memory for it.
    pub(crate) fn with_room(alloc: Global, bytes: usize) -> Draft
        ensures { result ≡ Some [] }
    {
        match String::with_capacity(alloc, bytes) {
            Ok(text) => Draft {
                text,
                is_whole: true,
            },
            Err(_) => Draft::new(alloc),
        }
    }

    pub(crate) fn is_empty(&self) -> bool
        ensures { IfSome self.now (λ text. result ≡ nat_eq (length text) 0) }
    {
        self.text.is_empty()
    }

    /// Adds a character.
    pub(crate) fn push(&mut self, character: char)
        ensures { Grows self.old self.new (encode_utf8 character) }
    {
        let is_added = self.text.push(character).is_ok();
        self.is_whole = self.is_whole && is_added;
    }

    /// Adds a text.
    pub(crate) fn push_str(&mut self, text: &str)
        ensures { Grows self.old self.new text.now }
    {
        let is_added = self.text.push_str(text).is_ok();
        self.is_whole = self.is_whole && is_added;
    }

    /// The text, if all of it found memory.
    pub(crate) fn finished(self) -> Result<String, NoMemory>
        ensures ok { IfOk result (λ t. self ≡ Some (string_bytes t)) }
        ensures err { OnErr result (self ≡ None) }
    {
        if self.is_whole {
            Ok(self.text)
        } else {
            Err(NoMemory)
        }
    }
}
