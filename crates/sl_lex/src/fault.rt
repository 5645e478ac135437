//! Why a text has no tokens.

ghost use Rattle.std.specs.Prelude.{◌≡◌};
ghost use Rattle.sl_lex.specs.declared.fault.LexFault.TheVariants.{NoMemory};

use sl_base_quotients::{MAX_NAME_BYTES, MAX_NUMBER};
use std::alloc::AllocFailed;
use thiserror::Error;

/// Why a text has no tokens, with the offset in bytes where it shows.
#[derive(Clone, Copy, Debug, Error)]
pub enum LexFault {
    #[error("no token begins with the byte at {0}")]
    BadByte(usize),
    #[error("the text that begins at {0} is not closed")]
    OpenString(usize),
    #[error("the number at {0} is above {MAX_NUMBER}")]
    BigNumber(usize),
    #[error("the word at {0} has over {MAX_NAME_BYTES} bytes")]
    LongName(usize),
    #[error("out of memory")]
    NoMemory,
}

impl<T: Drop> From<AllocFailed<T>> for LexFault {
    ghost from_gives = { λ _ e. e ≡ NoMemory };

    fn from(_e: AllocFailed<T>) -> LexFault {
        LexFault::NoMemory
    }
}
