//! Writers of bytes that count how often they failed.

ghost use Rattle.std.specs.Prelude.{◌≡◌, ◌≤◌, ◌<◌, ℕ, List, Option, None, IfOk, length};
ghost use Rattle.std.specs.Io.KnownBytes.{WriteAppends};
ghost use Rattle.sl_count_inputs.specs.Failures.{failures_after};

use crate::source::Failed;
use std::io::Write;

/// A writer of bytes.
pub trait Sink {
    // The bytes taken so far, where they are known.
    ghost contents: { Self → Option (List ℕ) } = { λ _. None };

    // How many calls failed.
    ghost failed: { Self → ℕ };

    /// Takes a prefix of a piece, and answers its length: at least one, if the piece is not empty. A failure takes none.
    fn put(&mut self, piece: &[u8]) -> Result<usize, Failed>
        ensures bound { IfOk result (λ n. n ≤ length piece.now) }
        ensures some { IfOk result (λ n. 0 < length piece.now → 0 < n) }
        ensures bytes { WriteAppends (contents self.old) (contents self.new) result piece.now }
        ensures counts { failed self.new ≡ failures_after (failed self.old) result };

    /// How many calls of `put` failed, up to the greatest number.
    fn failures(&self) -> u64
        ensures { result ≡ failed self.now };
}

/// A sink over a writer of std.
#[derive(Drop)]
pub struct ToWrite<W> {
    writer: W,
    failures: u64,
}

impl<W: Write> ToWrite<W> {
    ghost use Rattle.sl_count_inputs.specs.Adapters.{writer_under, writer_failures};

    /// A sink over a writer, with no failure so far.
    pub fn new(writer: W) -> ToWrite<W>
        ensures writer { writer_under result ≡ writer }
        ensures fresh { writer_failures result ≡ 0 }
    {
        ToWrite {
            writer,
            failures: 0,
        }
    }
}

impl<W: Write> Sink for ToWrite<W> {
    ghost use Rattle.sl_count_inputs.specs.Adapters.{writer_under, writer_failures};

    ghost contents = { λ s. W.contents (writer_under s) };

    ghost failed = { writer_failures };

    fn put(&mut self, piece: &[u8]) -> Result<usize, Failed> {
        match self.writer.write(piece) {
            Ok(n) if n > 0 || piece.is_empty() => Ok(n),
            _ => {
                self.failures = self.failures.saturating_add(1);
                Err(Failed)
            }
        }
    }

    fn failures(&self) -> u64 {
        self.failures
    }
}
