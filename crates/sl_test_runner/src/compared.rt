//! Rows, beside what comes of them.

use crate::rows::{Call, Named, Row};
use crate::running::{Came, add_files, counts_as_wanted, run_program};
use crate::texts::push_lines;
use std::alloc::{AllocError, Global};
use std::io;

// Bytes that a reader gives, or a writer takes, at once: many, or one.
const MANY: usize = 4096;

const ONE: usize = 1;

// So many bytes a file may have to be read byte for byte.
const FEW: usize = 4096;

// Where the files lie that several pages take.
const FOLDER: &str = "rows/";

// Adds what came of a command, as a row writes it.
fn push_came(text: &mut String, line: &str, came: &Came) -> Result<(), AllocError> {
    write!(text, "$ {line}\n")?;
    push_lines(text, ">", came.out.as_slice())?;
    push_lines(text, "!", came.err.as_slice())?;
    if came.status != 0 {
        let status = came.status;
        write!(text, "? {status}\n")?;
    }
    Ok(())
}

// Whether what is wanted comes byte for byte too, where the files have few of them.
fn is_slowly_wanted(alloc: Global, files: &[Named], variables: &[Named], call: &Call) -> bool {
    let is_short = files.iter().all(|file| file.bytes.len() <= FEW);
    !is_short || run_program(alloc, files, variables, call.words.as_slice(), ONE).is_wanted(call)
}

// Runs a command of a row, adds what came of it to the text and the files that it made to those of the row, and answers whether it is what is wanted, by
// both programs, however the bytes come.
fn run_call(
    alloc: Global,
    files: &mut Vec<Named>,
    variables: &[Named],
    call: &Call,
    text: &mut String,
) -> Result<bool, AllocError> {
    let came = run_program(
        alloc,
        files.as_slice(),
        variables,
        call.words.as_slice(),
        MANY,
    );
    push_came(text, call.line.as_str(), &came)?;
    let is_wanted = came.is_wanted(call);
    let is_slowly = is_slowly_wanted(alloc, files.as_slice(), variables, call);
    if is_wanted && !is_slowly {
        text.push_str("# byte for byte something else comes\n")?;
    }
    let is_counted = counts_as_wanted(alloc, files.as_slice(), call, MANY);
    if is_wanted && !is_counted {
        text.push_str("# of the program that counts something else comes\n")?;
    }
    let Came { made, .. } = came;
    for file in made {
        files.push(file)?;
    }
    Ok(is_wanted && is_slowly && is_counted)
}

/// Runs a row over the files of its page, and answers whether all comes as wanted. Where it does not, the row is written with what came.
///
/// # Errors
///
/// Out of memory, and those of the output.
pub(crate) fn run_row(rt: &HostRuntime, page: &[Named], row: &Row) -> io::Result<bool> {
    let alloc = rt.alloc();
    let mut files = Vec::new(alloc);
    for file in page.iter().chain(row.files.as_slice()) {
        files.push(Named::new(alloc, file.name.as_str(), file.bytes.as_slice())?)?;
    }
    let mut text = String::new(alloc);
    let mut is_wanted = true;
    for call in row.calls.as_slice() {
        add_files(rt, &mut files, call.words.as_slice(), FOLDER)?;
        if !run_call(alloc, &mut files, row.variables.as_slice(), call, &mut text)? {
            is_wanted = false;
        }
    }
    if !is_wanted {
        let title = row.title.as_str();
        println!(rt; "== {title}\n{text}")?;
    }
    Ok(is_wanted)
}
