//! Readers and writers of whose bytes nothing is said to a proof.

use sl_desk::{Failed, Sink, Source};

/// A reader or a writer, without what is known of its bytes.
#[derive(Drop)]
pub(crate) struct Unknown<S> {
    pub(crate) inner: S,
}

impl<S: Source> Source for Unknown<S> {
    ghost failed = { λ s. S.failed s.inner };

    fn fetch(&mut self, buf: &mut [u8]) -> Result<usize, Failed> {
        self.inner.fetch(buf)
    }

    fn failures(&self) -> u64 {
        self.inner.failures()
    }
}

impl<S: Sink> Sink for Unknown<S> {
    ghost failed = { λ s. S.failed s.inner };

    fn put(&mut self, piece: &[u8]) -> Result<usize, Failed> {
        self.inner.put(piece)
    }

    fn failures(&self) -> u64 {
        self.inner.failures()
    }
}
