//! Files that are handed over in memory, by their names.

ghost use Rattle.std.specs.Prelude.{◌≡◌, None, option_map};
ghost use Rattle.sl_terminal_outside.specs.Shelves.{bytes_at};

use crate::outside::Outside;
use sl_count_inputs::FromRead;
use std::alloc::Global;

/// A file that is handed over: its name, and its bytes.
#[repr(C)]
#[derive(Clone, Copy)]
pub struct File<'a> {
    pub name: &'a [u8],
    pub bytes: &'a [u8],
}

/// Files in memory; of several of one name the first counts. There are no variables.
#[derive(Clone, Copy)]
pub struct Shelf<'a> {
    pub files: &'a [File<'a>],
}

// The bytes of the file of a name.
fn bytes_at<'a>(files: &'a [File<'a>], name: &str) -> Option<&'a [u8]>
    ensures { option_map (λ bytes. bytes.now) result ≡ bytes_at files.now name.now }
{
    let file = files.iter().find(|file| file.name == name.as_bytes())?;
    Some(file.bytes)
}

impl<'a> Outside for Shelf<'a> {
    type File = FromRead<&'a [u8]>;

    type Reason = &'static str;

    ghost bytes = { λ s path. bytes_at s.files.now path };

    ghost lacks = { λ s path. bytes_at s.files.now path ≡ None };

    fn open(&self, path: &str) -> Result<FromRead<&'a [u8]>, &'static str> {
        match bytes_at(self.files, path) {
            Some(bytes) => Ok(FromRead::new(bytes)),
            None => Err("No such file or directory (os error 2)"),
        }
    }

    fn file_at(&self, path: &str) -> Option<FromRead<&'a [u8]>> {
        match bytes_at(self.files, path) {
            Some(bytes) => Some(FromRead::new(bytes)),
            None => None,
        }
    }

    fn variable(&self, _alloc: Global, _name: &str) -> Option<String> {
        None
    }
}
