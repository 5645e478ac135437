//! The name of a stage.

ghost use Rattle.std.specs.Prelude.{◌≡◌, ◌<◌, ℕ, List, IsTrue, IfOk};
ghost use Rattle.sl_base_terms.specs.Words.{is_word};

use sl_base_quotients::NoMemory;
use std::alloc::Global;
use std::marker::Model;

/// A word of 1 to `MAX_NAME_BYTES` bytes: a letter, and then letters, digits and underscores.
#[derive(Drop)]
pub struct Word {
    bytes: Vec<u8>,
}

impl Model for Word {
    ghost Value = { List ℕ };

    ghost view = { λ w. w.bytes.items };

    ghost invariant = { λ w. IsTrue (is_word w.bytes.items) };
}

impl Word {
    /// The word of these bytes.
    pub fn new(alloc: Global, bytes: &[u8]) -> Result<Word, NoMemory>
        requires { IsTrue (is_word bytes.now) }
        ensures { IfOk result (λ w. w ≡ bytes.now) }
    {
        let bytes = Vec::from_slice(alloc, bytes)?;
        Ok(Word { bytes })
    }

    /// Its bytes.
    pub fn as_bytes(&self) -> &[u8]
        ensures bytes { result.now ≡ self.now }
        ensures word { IsTrue (is_word self.now) }
    {
        self.bytes.as_slice()
    }
}
