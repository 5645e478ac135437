//! What the matches of a command ask for.

ghost use Rattle.std.specs.Prelude.{◌≡◌, IfOk, option_and_then, option_map};
ghost use Rattle.clap.specs.Words.{found_of, rows_of, subcommand_rows_of};
ghost use Rattle.sl_terminal_words.specs.Requests.{asked_by, asked_of, checked_by, compiled_by, counted_by, explained_by, law_by, run_by, staged_by, view_of, wish_by, wish_of};
ghost use Rattle.sl_terminal_words.specs.inner.Replies.{desk_wish};

use crate::command_line::{Asked, Request, Show};
use crate::given::{flag_in, word_in};
use crate::help::Name;
use crate::options::options_of;
use crate::reports::{form_of, report_of};
use clap::ArgMatches;
use sl_explain_texts::FaultCode;
use std::alloc::{AllocError, Global};

fn counting<'a>(show: Show<'a>, given: &ArgMatches<'a>) -> Option<Request<'a>>
    ensures { option_map wish_of result ≡ counted_by (view_of show.entry) (rows_of (found_of given.now)) }
{
    let book = word_in(given, "BOOK")?;
    let returns = word_in(given, "RETURNS")?;
    Some(Request::Count {
        show,
        book,
        returns,
    })
}

fn staging<'a>(given: &ArgMatches<'a>) -> Option<Request<'a>>
    ensures { option_map wish_of result ≡ staged_by (rows_of (found_of given.now)) }
{
    let name = word_in(given, "NAME")?;
    counting(Show::Stage(name), given)
}

fn checking<'a>(given: &ArgMatches<'a>) -> Option<Request<'a>>
    ensures { option_map wish_of result ≡ checked_by (rows_of (found_of given.now)) }
{
    let book = word_in(given, "BOOK")?;
    Some(Request::Check { book })
}

// To compile a rulebook, unless the code would be written over it.
fn compiling<'a>(given: &ArgMatches<'a>) -> Option<Request<'a>>
    ensures { option_map wish_of result ≡ compiled_by (rows_of (found_of given.now)) }
{
    let book = word_in(given, "BOOK")?;
    let file = word_in(given, "OUT")?;
    if book == file {
        return None;
    }
    let is_forced = flag_in(given, "force");
    Some(Request::Code {
        book,
        file,
        is_forced,
    })
}

fn running<'a>(given: &ArgMatches<'a>) -> Option<Request<'a>>
    ensures { option_map wish_of result ≡ run_by (rows_of (found_of given.now)) }
{
    let code = word_in(given, "CODE")?;
    let returns = word_in(given, "RETURNS")?;
    Some(Request::Run { code, returns })
}

fn writing_law<'a>(given: &ArgMatches<'a>) -> Option<Request<'a>>
    ensures { option_map wish_of result ≡ law_by (rows_of (found_of given.now)) }
{
    let name = word_in(given, "NAME")?;
    Some(Request::Law { name })
}

// To explain a code, if the word is one.
fn explaining<'a>(given: &ArgMatches<'a>) -> Option<Request<'a>>
    ensures { option_map wish_of result ≡ explained_by (rows_of (found_of given.now)) }
{
    let word = word_in(given, "CODE")?;
    let code = FaultCode::of_word(word)?;
    Some(Request::Explain { code })
}

// What a command asks for where it does not report.
fn desk_request<'a>(name: Name, given: &ArgMatches<'a>) -> Option<Request<'a>>
    ensures { option_map wish_of result ≡ desk_wish name (rows_of (found_of given.now)) }
{
    match name {
        Name::Count => counting(Show::Seats, given),
        Name::Steps => counting(Show::Steps, given),
        Name::Stage => staging(given),
        Name::Check => checking(given),
        Name::Code => compiling(given),
        Name::Run => running(given),
        Name::Law => writing_law(given),
        Name::Explain => explaining(given),
        Name::Report | Name::Stages | Name::Totals | Name::Compare => None,
    }
}

// What a command asks for with the words given to it.
fn request_by<'a>(
    alloc: Global,
    name: Name,
    given: &ArgMatches<'a>,
) -> Result<Option<Request<'a>>, AllocError>
    ensures { IfOk result (λ r. option_map wish_of r ≡ wish_by name (rows_of (found_of given.now))) }
{
    match report_of(alloc, name, given)? {
        Some(what) => Ok(Some(Request::Report {
            what,
            form: form_of(given),
            names: word_in(given, "names"),
        })),
        None => Ok(desk_request(name, given)),
    }
}

// What is asked for by a command's word and what is given to it.
fn asked_by<'a>(
    alloc: Global,
    command: &str,
    given: &ArgMatches<'a>,
) -> Result<Option<Asked<'a>>, AllocError>
    ensures { IfOk result (λ r. option_map asked_of r ≡ asked_by (command.now, rows_of (found_of given.now))) }
{
    let Some(name) = Name::of_word(command) else {
        return Ok(None);
    };
    match request_by(alloc, name, given)? {
        Some(request) => Ok(Some(Asked {
            request,
            options: options_of(given),
        })),
        None => Ok(None),
    }
}

/// What the words ask for, if a command is among them.
pub(crate) fn asked_in<'a>(
    alloc: Global,
    matches: &ArgMatches<'a>,
) -> Result<Option<Asked<'a>>, AllocError>
    ensures { IfOk result (λ r. option_map asked_of r ≡ option_and_then asked_by (subcommand_rows_of matches.now)) }
{
    match matches.subcommand() {
        Some((command, given)) => asked_by(alloc, command, given),
        None => Ok(None),
    }
}
