//! Rows as text: what stands on each line, after its marker.

use crate::texts::{add_line, add_text};
use std::alloc::{AllocError, Global};

/// A file with its name, or a variable of the environment with its value.
#[derive(Drop)]
pub(crate) struct Named {
    pub(crate) name: String,
    pub(crate) bytes: Vec<u8>,
}

impl Named {
    pub(crate) fn new(alloc: Global, name: &str, bytes: &[u8]) -> Result<Named, AllocError> {
        Ok(Named {
            name: String::from_str(alloc, name)?,
            bytes: Vec::from_slice(alloc, bytes)?,
        })
    }
}

/// A command, with what is wanted of it.
#[derive(Drop)]
pub(crate) struct Call {
    pub(crate) line: String,
    pub(crate) words: Vec<String>,
    pub(crate) out: Vec<u8>,
    /// Whether it may write more to standard output.
    pub(crate) goes_on: bool,
    pub(crate) err: Vec<u8>,
    pub(crate) status: u8,
}

// A word as it is typed: two single quotes are an empty one.
fn word_of(alloc: Global, typed: &str) -> Result<String, AllocError> {
    let mut bytes = Vec::new(alloc);
    if typed != "''" {
        let _ = add_text(&mut bytes, typed)?;
    }
    match std::str::from_utf8(bytes.as_slice()) {
        Ok(word) => String::from_str(alloc, word),
        Err(_) => String::from_str(alloc, typed),
    }
}

impl Call {
    /// The command of a line, of which nothing is wanted yet but the status 0.
    pub(crate) fn new(alloc: Global, line: &str) -> Result<Call, AllocError> {
        let mut words = Vec::new(alloc);
        for typed in line.split(' ') {
            if !typed.is_empty() {
                words.push(word_of(alloc, typed)?)?;
            }
        }
        Ok(Call {
            line: String::from_str(alloc, line)?,
            words,
            out: Vec::new(alloc),
            goes_on: false,
            err: Vec::new(alloc),
            status: 0,
        })
    }
}

/// A row: its title, its own files, the variables of the environment, and its commands.
#[derive(Drop)]
pub(crate) struct Row {
    pub(crate) title: String,
    pub(crate) files: Vec<Named>,
    pub(crate) variables: Vec<Named>,
    pub(crate) calls: Vec<Call>,
}

// Adds a line for each number of a range: `FIRST LAST TEXT`, with the number in place of `{}`.
fn add_numbered(alloc: Global, bytes: &mut Vec<u8>, rest: &str) -> Result<(), AllocError> {
    let mut parts = rest.splitn(3, ' ');
    let first = number_of(parts.next());
    let last = number_of(parts.next());
    let text = parts.next().unwrap_or("");
    for number in first..=last {
        let mut line = String::new(alloc);
        for (place, part) in text.split("{}").enumerate() {
            if place > 0 {
                write!(line, "{number}")?;
            }
            line.push_str(part)?;
        }
        add_line(bytes, line.as_str())?;
    }
    Ok(())
}

// The number that a word is, or 0.
fn number_of(word: Option<&str>) -> usize {
    word.and_then(|word| word.parse().ok()).unwrap_or(0)
}

// Fills bytes up: `LENGTH BYTE`.
fn fill(alloc: Global, bytes: &mut Vec<u8>, rest: &str) -> Result<(), AllocError> {
    let mut parts = rest.splitn(2, ' ');
    let length = number_of(parts.next());
    let mut filling = Vec::new(alloc);
    let _ = add_text(&mut filling, parts.next().unwrap_or(""))?;
    let byte = filling.first().copied().unwrap_or(b' ');
    bytes.resize(length.max(bytes.len()), byte)
}

// Adds what a line says to bytes, by what follows its marker.
fn add(alloc: Global, bytes: &mut Vec<u8>, kind: &str, rest: &str) -> Result<(), AllocError> {
    match kind {
        "*" => add_numbered(alloc, bytes, rest),
        "=" => fill(alloc, bytes, rest),
        _ => add_line(bytes, rest),
    }
}

impl Row {
    /// A row without files and commands.
    pub(crate) fn new(alloc: Global, title: &str) -> Result<Row, AllocError> {
        Ok(Row {
            title: String::from_str(alloc, title)?,
            files: Vec::new(alloc),
            variables: Vec::new(alloc),
            calls: Vec::new(alloc),
        })
    }

    // Takes a line about what is wanted of the last command.
    fn take_wanted(&mut self, alloc: Global, marker: &str, rest: &str) -> Result<(), AllocError> {
        let Some(call) = self.calls.last_mut() else {
            return Ok(());
        };
        let kind = marker.get(1..).unwrap_or("");
        if marker == ">..." {
            call.goes_on = true;
        } else if marker.starts_with(">") {
            add(alloc, &mut call.out, kind, rest)?;
        } else if marker.starts_with("!") {
            add(alloc, &mut call.err, kind, rest)?;
        } else if marker == "?" {
            call.status = rest.parse().unwrap_or(255);
        }
        Ok(())
    }

    /// Takes a line of the row: its marker, and what follows it.
    pub(crate) fn take(
        &mut self,
        alloc: Global,
        marker: &str,
        rest: &str,
    ) -> Result<(), AllocError> {
        match marker {
            "file" => self.files.push(Named::new(alloc, rest, b"")?)?,
            "&" => {
                let (name, value) = rest.split_once('=').unwrap_or((rest, ""));
                self.variables
                    .push(Named::new(alloc, name, value.as_bytes())?)?;
            }
            "$" => self.calls.push(Call::new(alloc, rest)?)?,
            _ if marker.starts_with("|") => {
                if let Some(file) = self.files.last_mut() {
                    add(alloc, &mut file.bytes, marker.get(1..).unwrap_or(""), rest)?;
                }
            }
            _ => self.take_wanted(alloc, marker, rest)?,
        }
        Ok(())
    }
}
