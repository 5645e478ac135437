//! What an answer says in addition to its tables: the command, its inputs, and why there is no table.

ghost use Rattle.std.specs.Prelude.{◌≡◌};
ghost use Rattle.sha2.specs.Sha256.{sha256};

use sha2::{Digest, Sha256};
use sl_explain_texts::{Explanation, Language};

/// An input of a command: its kind, of one of several rulebooks the word that names it, and the SHA-256 of its bytes.
#[derive(Drop)]
pub struct DigestedInput {
    pub input: &'static str,
    pub word: Option<String>,
    pub digest: [u8; 32],
}

impl DigestedInput {
    /// An input of these bytes.
    pub fn new(input: &'static str, word: Option<String>, bytes: &[u8]) -> DigestedInput
        ensures { result.digest ≡ sha256 bytes.now }
    {
        DigestedInput {
            input,
            word,
            digest: Sha256::digest(bytes),
        }
    }
}

/// Why there is no table: an explanation, with the kind and the bytes of the input that it speaks of.
#[derive(Clone, Copy)]
pub struct Told<'a> {
    pub input: &'static str,
    pub bytes: &'a [u8],
    pub explanation: &'a Explanation,
}

/// What an answer says in addition to its tables, whatever they are: the command, its language, its inputs, and why there is no table.
#[derive(Clone, Copy)]
pub struct Heading<'a> {
    pub command: &'static str,
    pub language: Language,
    pub inputs: &'a [DigestedInput],
    pub told: Option<Told<'a>>,
}
