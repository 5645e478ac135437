//! What is handed over: the exit status, and texts in memory of the host's.

ghost use Rattle.std.specs.Prelude.{◌≡◌, ◌⊎◌, ◌-◌, IfOk, length, take};
ghost use Rattle.sl_page_calls.specs.Asking.{IsHanded, IsNothing, IsUnread, made_bytes};
ghost use Rattle.sl_terminal_commands.specs.Replies.{Says};

use sl_base_quotients::NoMemory;
use sl_terminal_commands::{Made, Reply, Said};
use std::alloc::Global;

// The exit status of words that are refused, and that of an error.
const REFUSED: u32 = 1;

const FAILED: u32 = 5;

const NO_TEXT: &str = "error: a word of the command line is no UTF-8\n";

/// What the program would write to standard output and to standard error, the file that it would make, and its exit status. A text that has bytes is one block
/// of the host's heap, with a byte 0 behind its last one, and the host gives it back.
#[repr(C)]
#[derive(Clone, Copy)]
pub struct Handed {
    pub status: u32,
    pub out: &'static [u8],
    pub err: &'static [u8],
    pub made: &'static [u8],
}

// A text with a byte 0 behind its last one, if it has one.
fn ended(mut text: Vec<u8>) -> Result<Vec<u8>, NoMemory>
    ensures { IfOk result (λ v. take (length v.items - 1) v.items ≡ text.items) }
{
    if !text.is_empty() {
        text.push(0)?;
    }
    Ok(text)
}

// Leaves a text to the host, without the byte behind its last one.
fn left(text: Vec<u8>) -> &'static [u8]
    ensures { result.now ≡ take (length text.items - 1) text.items }
{
    match text.len() {
        0 => b"",
        length => {
            let all: &'static [u8] = text.leak();
            &all[..length - 1]
        }
    }
}

// The text of what is said.
fn said(alloc: Global, said: Said) -> Result<Vec<u8>, NoMemory>
    ensures { IfOk result (λ v. Says said v.items) }
{
    match said {
        Said::Text(text) => Ok(text),
        Said::Fixed(text) => Ok(Vec::from_slice(alloc, text.as_bytes())?),
        Said::OutOfMemory(_) => Err(NoMemory),
    }
}

// The bytes of a file that is made, if one is.
fn bytes_of(alloc: Global, made: Option<Made>) -> Vec<u8>
    ensures { result.items ≡ made_bytes made }
{
    match made {
        Some(made) => made.bytes,
        None => Vec::new(alloc),
    }
}

impl Handed {
    /// Nothing, where memory ran out.
    pub(crate) const NO_MEMORY: Handed = Handed {
        status: FAILED,
        out: b"",
        err: b"",
        made: b"",
    };

    // Three texts, with a status.
    fn texts(status: u32, out: Vec<u8>, err: Vec<u8>, made: Vec<u8>) -> Result<Handed, NoMemory>
        ensures status { IfOk result (λ h. h.status ≡ status) }
        ensures out { IfOk result (λ h. h.out.now ≡ out.items) }
        ensures err { IfOk result (λ h. h.err.now ≡ err.items) }
        ensures made { IfOk result (λ h. h.made.now ≡ made.items) }
    {
        let out = ended(out)?;
        let err = ended(err)?;
        let made = ended(made)?;
        Ok(Handed {
            status,
            out: left(out),
            err: left(err),
            made: left(made),
        })
    }

    // A reply, where there is memory for it.
    fn of_reply(alloc: Global, reply: Reply) -> Result<Handed, NoMemory>
        ensures { IfOk result (IsHanded reply) }
    {
        let Reply {
            number,
            out,
            said: told,
            made,
            ..
        } = reply;
        let err = said(alloc, told)?;
        Handed::texts(u32::from(number), out, err, bytes_of(alloc, made))
    }

    /// A reply, or nothing where memory ran out.
    pub(crate) fn reply(alloc: Global, reply: Reply) -> Handed
        ensures { IsHanded reply result ⊎ IsNothing result }
    {
        match Handed::of_reply(alloc, reply) {
            Ok(handed) => handed,
            Err(NoMemory) => Handed::NO_MEMORY,
        }
    }

    // That a word is no text.
    fn refusal(alloc: Global) -> Result<Handed, NoMemory>
        ensures { IfOk result IsUnread }
    {
        let text = Vec::from_slice(alloc, NO_TEXT.as_bytes())?;
        Handed::texts(REFUSED, Vec::new(alloc), text, Vec::new(alloc))
    }

    /// That a word is no text, or nothing where memory ran out.
    pub(crate) fn unreadable(alloc: Global) -> Handed
        ensures { IsUnread result ⊎ IsNothing result }
    {
        match Handed::refusal(alloc) {
            Ok(handed) => handed,
            Err(NoMemory) => Handed::NO_MEMORY,
        }
    }
}
