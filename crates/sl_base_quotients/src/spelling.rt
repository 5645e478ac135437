//! The spelling of names, and why a name is not added to a list.

ghost use Rattle.std.specs.Prelude.{◌≡◌};
ghost use Rattle.std.specs.List.{list_all};
ghost use Rattle.sl_base_quotients.specs.Names.{is_name_byte, spelling_fault};

use std::error::Error;
use std::fmt;

/// The greatest number of bytes in a name.
pub const MAX_NAME_BYTES: usize = 12;

/// Why a name is not added, the first that applies in this order.
#[derive(Clone, Copy, Debug, PartialEq, Eq)]
pub enum NameFault {
    /// The name is empty.
    Empty,
    /// It has more than `MAX_NAME_BYTES` bytes.
    TooLong,
    /// It has a byte that is no letter, digit, `_` or `-`.
    BadByte,
    /// It is there already.
    Twice,
    /// There are as many names as there may be.
    Full,
    /// Memory is wanting.
    NoMemory,
}

impl NameFault {
    // What it says.
    fn text(self) -> &'static str {
        match self {
            NameFault::Empty => "the name is empty",
            NameFault::TooLong => "the name is too long",
            NameFault::BadByte => "the name has a byte that is no letter, digit, `_` or `-`",
            NameFault::Twice => "the name is there already",
            NameFault::Full => "there are as many names as there may be",
            NameFault::NoMemory => "out of memory",
        }
    }
}

impl fmt::Display for NameFault {
    fn fmt<W: fmt::Write>(&self, f: &mut fmt::Formatter<W>) -> fmt::Result {
        f.write_str(self.text())
    }
}

impl Error for NameFault {}

// Whether a name may have the byte.
fn is_name_byte(byte: u8) -> bool
    ensures { result ≡ is_name_byte byte }
{
    byte.is_ascii_alphanumeric() || byte == b'_' || byte == b'-'
}

// Whether a name may have each of the bytes.
fn are_name_bytes(name: &[u8]) -> bool
    ensures { result ≡ list_all is_name_byte name.now }
{
    name.iter().all(|byte| is_name_byte(*byte))
}

/// What is wrong with the spelling of a name: `Empty`, `TooLong` or `BadByte`, the first that applies.
pub fn spelling_fault(name: &[u8]) -> Option<NameFault>
    ensures { result ≡ spelling_fault name.now }
{
    if name.is_empty() {
        Some(NameFault::Empty)
    } else if name.len() > MAX_NAME_BYTES {
        Some(NameFault::TooLong)
    } else if !are_name_bytes(name) {
        Some(NameFault::BadByte)
    } else {
        None
    }
}
