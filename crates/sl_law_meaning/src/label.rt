//! A name that the returns keep: of a Land, a party or a winner, or of the stage that a lot names.

ghost use Rattle.std.specs.Prelude.{◌≡◌, None};
ghost use Rattle.sl_base_quotients.specs.Names.{spelling_fault};

use sl_base_quotients::MAX_NAME_BYTES;
use std::marker::Model;

/// A name as returns write it: 1 to `MAX_NAME_BYTES` bytes, each a letter, a digit, `_` or `-`. There is one for each
/// Land, party, winner and lot, so it takes no memory of its own.
#[derive(Drop)]
pub struct Label {
    // the name, and zeros after it
    bytes: [u8; MAX_NAME_BYTES],
    length: u8,
}

impl Model for Label {
    ghost use Rattle.std.specs.Prelude.{◌≡◌, ◌≤◌, ℕ, List, None, take};
    ghost use Rattle.sl_base_quotients.specs.Names.{spelling_fault};
    ghost use Rattle.sl_base_quotients.specs.declared.spelling.TheConstants.{MAX_NAME_BYTES};

    ghost Value = { List ℕ };

    ghost view = { λ l. take l.length l.bytes };

    ghost invariant = { λ l. (l.length ≤ MAX_NAME_BYTES) × (spelling_fault (take l.length l.bytes) ≡ None) };
}

impl Label {
    /// The label of these bytes.
    pub fn new(bytes: &[u8]) -> Label
        requires { spelling_fault bytes.now ≡ None }
        ensures { result ≡ bytes.now }
    {
        let mut kept = [0; MAX_NAME_BYTES];
        kept[..bytes.len()].copy_from_slice(bytes);
        Label {
            bytes: kept,
            length: bytes.len() as u8,
        }
    }

    /// Its bytes.
    pub fn as_bytes(&self) -> &[u8]
        ensures bytes { result.now ≡ self.now }
        ensures spelled { spelling_fault self.now ≡ None }
    {
        &self.bytes[..usize::from(self.length)]
    }
}
