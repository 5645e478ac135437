//! The system outside. Of its files no bytes are known to a proof.

use crate::outside::{Outside, Writable};
use sl_count_inputs::{FromRead, ToWrite};
use std::alloc::{AllocError, Global};
use std::fs::{File, metadata};
use std::io;

// A file of so many bytes is large: pieces of memory for it are such as the C library gives back to the system when they are let go.
const LARGE_FILE: u64 = 131_072;

// As many bytes as a count asks for in one piece.
const LARGE_PIECE: usize = 8_388_608;

// Lets a large piece of memory go. From then on the C library keeps what is let go, up to that size, for what is asked for next. Before, it gives each
// large piece back to the system, and the pages of the next one have to be made.
fn raise_mmap_threshold(alloc: Global) {
    let _piece: Result<Vec<u8>, AllocError> = Vec::with_capacity(alloc, LARGE_PIECE);
}

// Whether the system says that a file is large.
fn is_large(file: &File) -> bool {
    match file.metadata() {
        Ok(about) => about.len() >= LARGE_FILE,
        Err(_) => false,
    }
}

/// The files and the environment of the system. For a large file memory is made ready.
#[derive(Clone, Copy)]
pub struct Host<'a> {
    pub rt: &'a HostRuntime,
}

impl Outside for Host<'_> {
    type File = FromRead<File>;

    type Reason = io::Error;

    fn open(&self, path: &str) -> io::Result<FromRead<File>> {
        let file = File::open(self.rt, path)?;
        if is_large(&file) {
            raise_mmap_threshold(self.rt.alloc());
        }
        Ok(FromRead::new(file))
    }

    fn file_at(&self, path: &str) -> Option<FromRead<File>> {
        if !metadata(self.rt, path).ok()?.is_file() {
            return None;
        }
        Some(FromRead::new(File::open(self.rt, path).ok()?))
    }

    fn variable(&self, _alloc: Global, name: &str) -> Option<String> {
        std::env::var(self.rt, name).ok()
    }
}

impl Writable for Host<'_> {
    type Made = ToWrite<File>;

    fn create(&mut self, path: &str) -> io::Result<ToWrite<File>> {
        Ok(ToWrite::new(File::create(self.rt, path)?))
    }

    fn close(&mut self, _path: &str, _made: ToWrite<File>) {}
}
