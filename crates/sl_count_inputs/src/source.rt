//! Readers of bytes that count how often they failed.

ghost use Rattle.std.specs.Prelude.{◌≡◌, ◌≤◌, ℕ, List, Option, None, IfOk, length};
ghost use Rattle.std.specs.Io.KnownBytes.{ReadConsumes};
ghost use Rattle.sl_count_inputs.specs.Failures.{failures_after};

use std::io::Read;

/// A call of a reader or a writer failed.
#[derive(Clone, Copy, Debug, PartialEq, Eq)]
pub struct Failed;

/// A reader of bytes.
pub trait Source {
    // The bytes still to come, where they are known.
    ghost remaining: { Self → Option (List ℕ) } = { λ _. None };

    // How many calls failed.
    ghost failed: { Self → ℕ };

    /// Puts bytes into `buf`, from its start on, and answers how many. 0 for a buffer that is not empty is the end.
    fn fetch(&mut self, buf: &mut [u8]) -> Result<usize, Failed>
        ensures bound { IfOk result (λ n. n ≤ length buf.new) }
        ensures bytes { ReadConsumes (remaining self.old) (remaining self.new) result buf.new }
        ensures counts { failed self.new ≡ failures_after (failed self.old) result };

    /// How many calls of `fetch` failed, up to the greatest number.
    fn failures(&self) -> u64
        ensures { result ≡ failed self.now };
}

/// A source over a reader of std.
#[derive(Drop)]
pub struct FromRead<R> {
    reader: R,
    failures: u64,
}

impl<R: Read> FromRead<R> {
    ghost use Rattle.sl_count_inputs.specs.Adapters.{reader_under, reader_failures};

    /// A source over a reader, with no failure so far.
    pub fn new(reader: R) -> FromRead<R>
        ensures reader { reader_under result ≡ reader }
        ensures fresh { reader_failures result ≡ 0 }
    {
        FromRead {
            reader,
            failures: 0,
        }
    }
}

impl<R: Read> Source for FromRead<R> {
    ghost use Rattle.sl_count_inputs.specs.Adapters.{reader_under, reader_failures};

    ghost remaining = { λ s. R.remaining (reader_under s) };

    ghost failed = { reader_failures };

    fn fetch(&mut self, buf: &mut [u8]) -> Result<usize, Failed> {
        match self.reader.read(buf) {
            Ok(n) => Ok(n),
            Err(_) => {
                self.failures = self.failures.saturating_add(1);
                Err(Failed)
            }
        }
    }

    fn failures(&self) -> u64 {
        self.failures
    }
}

/// Where a rulebook comes from: the library, under a name, or a reader.
#[derive(Drop)]
pub enum BookSource<'a, R> {
    Library(&'a str),
    Reader(R),
}
