//! What lies outside a row: its files in memory, and variables of the environment.

use crate::rows::Named;
use crate::unknown::Unknown;
use sl_terminal_outside::{Outside, Writable};
use sl_test_support::{Narrow, Slow};
use std::alloc::Global;

/// Files and variables in memory. Each reader gives, and each writer takes, at most `step` bytes at once.
#[derive(Drop)]
pub(crate) struct Shelf<'a> {
    pub(crate) alloc: Global,
    pub(crate) files: &'a [Named],
    pub(crate) variables: &'a [Named],
    pub(crate) step: usize,
    pub(crate) made: Vec<Named>,
}

/// The bytes under a name; of several the last.
pub(crate) fn bytes_of<'a>(named: &'a [Named], name: &str) -> Option<&'a [u8]> {
    let mut found = None;
    for one in named {
        if one.name.as_str() == name {
            found = Some(one.bytes.as_slice());
        }
    }
    found
}

impl<'a> Outside for Shelf<'a> {
    type File = Unknown<Slow<'a>>;

    type Reason = &'static str;

    fn open(&self, path: &str) -> Result<Unknown<Slow<'a>>, &'static str> {
        match bytes_of(self.files, path) {
            Some(bytes) => Ok(Unknown {
                inner: Slow::new(bytes, self.step, 0),
            }),
            None => Err("No such file or directory (os error 2)"),
        }
    }

    fn file_at(&self, path: &str) -> Option<Unknown<Slow<'a>>> {
        self.open(path).ok()
    }

    fn variable(&self, alloc: Global, name: &str) -> Option<String> {
        let value = std::str::from_utf8(bytes_of(self.variables, name)?).ok()?;
        String::from_str(alloc, value).ok()
    }
}

impl<'a> Writable for Shelf<'a> {
    type Made = Unknown<Narrow>;

    fn create(&mut self, path: &str) -> Result<Unknown<Narrow>, &'static str> {
        if path.contains("/") {
            return Err("No such file or directory (os error 2)");
        }
        Ok(Unknown {
            inner: Narrow::new(self.alloc, self.step, 0),
        })
    }

    fn close(&mut self, path: &str, made: Unknown<Narrow>) {
        if let Ok(named) = Named::new(self.alloc, path, made.inner.taken.as_slice()) {
            let _ = self.made.push(named);
        }
    }
}
