//! A source and a sink over memory that go in small steps, and fail at a call of one's choice. Their bytes are known.
//!
//! Stands on `sl_count_inputs`; used by the room test. Proved: the bytes that a source still has, and those that a sink has taken.
//!
//! Where an error is `NoMemory` alone, memory ran out, and nothing else is wrong.
#![tactic(auto)]

ghost use Rattle.std.specs.Prelude.{Some};

use sl_count_inputs::{Failed, Sink, Source};
use std::alloc::{AllocError, Global};

/// A source of known bytes: at most `step` bytes a call, and the call numbered `fails_at`, from 1, fails.
#[derive(Drop)]
pub struct Slow<'a> {
    rest: &'a [u8],
    step: usize,
    calls: u64,
    fails_at: u64,
    failures: u64,
}

impl<'a> Slow<'a> {
    pub fn new(bytes: &'a [u8], step: usize, fails_at: u64) -> Slow<'a> {
        Slow {
            rest: bytes,
            step,
            calls: 0,
            fails_at,
            failures: 0,
        }
    }
}

impl<'a> Source for Slow<'a> {
    ghost remaining = { λ s. Some s.rest.now };

    ghost failed = { λ s. s.failures };

    fn fetch(&mut self, buf: &mut [u8]) -> Result<usize, Failed> {
        self.calls = self.calls.saturating_add(1);
        if self.calls == self.fails_at {
            self.failures = self.failures.saturating_add(1);
            return Err(Failed);
        }
        let n = self.step.max(1).min(buf.len()).min(self.rest.len());
        let (prefix, rest) = self.rest.split_at(n);
        buf[..n].copy_from_slice(prefix);
        self.rest = rest;
        Ok(n)
    }

    fn failures(&self) -> u64 {
        self.failures
    }
}

/// A sink that keeps what it takes: at most `step` bytes a call, and the call numbered `fails_at`, from 1, fails.
#[derive(Drop)]
pub struct Narrow {
    pub taken: Vec<u8>,
    step: usize,
    calls: u64,
    fails_at: u64,
    failures: u64,
}

impl Narrow {
    pub fn new(alloc: Global, step: usize, fails_at: u64) -> Narrow {
        Narrow {
            taken: Vec::new(alloc),
            step,
            calls: 0,
            fails_at,
            failures: 0,
        }
    }

    /// A sink that takes whole pieces and does not fail, and takes no memory for so many bytes.
    pub fn with_room(alloc: Global, room: usize) -> Result<Narrow, AllocError> {
        Ok(Narrow {
            taken: Vec::with_capacity(alloc, room)?,
            step: usize::MAX,
            calls: 0,
            fails_at: 0,
            failures: 0,
        })
    }
}

impl Sink for Narrow {
    ghost contents = { λ s. Some s.taken.items };

    ghost failed = { λ s. s.failures };

    fn put(&mut self, piece: &[u8]) -> Result<usize, Failed> {
        self.calls = self.calls.saturating_add(1);
        let n = self.step.max(1).min(piece.len());
        if self.calls == self.fails_at || self.taken.extend_from_slice(&piece[..n]).is_err() {
            self.failures = self.failures.saturating_add(1);
            return Err(Failed);
        }
        Ok(n)
    }

    fn failures(&self) -> u64 {
        self.failures
    }
}
