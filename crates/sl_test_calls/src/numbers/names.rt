//! Names in a list.

use sl_base_quotients::{NameFault, spelling_fault};
use sl_ratio::Names;
use std::alloc::Global;

// Names that are added to a list for two, and their numbers or what is wrong with them.
const ADDED: [(&str, Result<usize, NameFault>); 7] = [
    ("A", Ok(0)),
    ("B", Ok(1)),
    ("A", Err(NameFault::Twice)),
    ("C", Err(NameFault::Full)),
    ("", Err(NameFault::Empty)),
    ("aaaabbbbccccd", Err(NameFault::TooLong)),
    ("a/b", Err(NameFault::BadByte)),
];

fn first_added_wrong(names: &mut Names) -> Option<usize> {
    for (call, (name, wanted)) in ADDED.iter().enumerate() {
        if names.add(name.as_bytes()) != *wanted {
            return Some(call);
        }
    }
    None
}

fn are_found(names: &Names) -> bool {
    names.find(b"B") == Some(1) && names.find(b"C").is_none()
}

// The same, or the number after them if those in the list are not found, or another is.
fn first_wrong_in(names: &mut Names) -> Option<usize> {
    if names.find(b"A").is_some() {
        return Some(ADDED.len());
    }
    let wrong = first_added_wrong(names);
    if are_found(names) {
        wrong
    } else {
        Some(ADDED.len())
    }
}

/// The first name that is not added so to a new list, or the number after them if those in it are not found, or another is.
pub(crate) fn first_wrong(alloc: Global) -> Option<usize> {
    first_wrong_in(&mut Names::new(alloc, 2))
}

/// 0 if a name is refused that has each kind of byte which may stand in one.
pub(crate) fn first_wrong_spelling() -> Option<usize> {
    match spelling_fault(b"_a-Z09") {
        Some(_) => Some(0),
        None => None,
    }
}
