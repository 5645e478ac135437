//! The words of the commands that report.

ghost use Rattle.std.specs.Prelude.{◌≡◌, IfOk, option_map};
ghost use Rattle.clap.specs.Words.{found_of, rows_of};
ghost use Rattle.sl_terminal_words.specs.Requests.{comparison_page, counted_page, form_by, page_by, page_of, seat_table, stages_page, step_table, table_page, totals_page};

use crate::given::{flag_in, word_in, words_in};
use crate::help::Name;
use clap::ArgMatches;
use sl_report_forms::Shape;
use std::alloc::{AllocError, Global};

/// What is reported.
#[derive(Drop)]
pub enum Report<'a> {
    /// The seat table, as `count` has it.
    Seats {
        book: &'a str,
        returns: &'a str,
    },
    /// The step that won each seat, with the seat table, as `steps` has it.
    Steps {
        book: &'a str,
        returns: &'a str,
    },
    /// One count.
    Count {
        book: &'a str,
        returns: &'a str,
    },
    /// What the press needs of one count, with the changes since an earlier seat table if one is given.
    Short {
        book: &'a str,
        returns: &'a str,
        before: Option<&'a str>,
    },
    /// All stages of a count.
    Stages {
        book: &'a str,
        returns: &'a str,
    },
    /// The totals of returns, with a rulebook if one is given.
    Totals {
        returns: &'a str,
        book: Option<&'a str>,
    },
    /// Several rulebooks side by side, those of the library if none is given; each as it is, and with each of the methods.
    Compare {
        returns: &'a str,
        books: Vec<&'a str>,
        methods: Vec<&'a str>,
    },
}

/// The form that is asked for.
pub(crate) fn form_of(given: &ArgMatches<'_>) -> Shape
    ensures { result ≡ form_by (rows_of (found_of given.now)) }
{
    if flag_in(given, "markdown") {
        Shape::Markdown
    } else if flag_in(given, "html") {
        Shape::Html
    } else if flag_in(given, "json") {
        Shape::Json
    } else if flag_in(given, "csv") {
        Shape::Comma
    } else {
        Shape::Text
    }
}

// What `count` reports, where JSON is asked for.
fn tabling_seats<'a>(given: &ArgMatches<'a>) -> Option<Report<'a>>
    ensures { option_map page_of result ≡ table_page seat_table (rows_of (found_of given.now)) }
{
    if !flag_in(given, "json") {
        return None;
    }
    let book = word_in(given, "BOOK")?;
    let returns = word_in(given, "RETURNS")?;
    Some(Report::Seats { book, returns })
}

// What `steps` reports, where JSON is asked for.
fn tabling_steps<'a>(given: &ArgMatches<'a>) -> Option<Report<'a>>
    ensures { option_map page_of result ≡ table_page step_table (rows_of (found_of given.now)) }
{
    if !flag_in(given, "json") {
        return None;
    }
    let book = word_in(given, "BOOK")?;
    let returns = word_in(given, "RETURNS")?;
    Some(Report::Steps { book, returns })
}

// What `report` reports.
fn reporting<'a>(given: &ArgMatches<'a>) -> Option<Report<'a>>
    ensures { option_map page_of result ≡ counted_page (rows_of (found_of given.now)) }
{
    let book = word_in(given, "BOOK")?;
    let returns = word_in(given, "RETURNS")?;
    if flag_in(given, "short") {
        let before = word_in(given, "before");
        Some(Report::Short {
            book,
            returns,
            before,
        })
    } else {
        Some(Report::Count { book, returns })
    }
}

// What `stages` reports.
fn staging<'a>(given: &ArgMatches<'a>) -> Option<Report<'a>>
    ensures { option_map page_of result ≡ stages_page (rows_of (found_of given.now)) }
{
    let book = word_in(given, "BOOK")?;
    let returns = word_in(given, "RETURNS")?;
    Some(Report::Stages { book, returns })
}

// What `totals` reports.
fn totalling<'a>(given: &ArgMatches<'a>) -> Option<Report<'a>>
    ensures { option_map page_of result ≡ totals_page (rows_of (found_of given.now)) }
{
    let returns = word_in(given, "RETURNS")?;
    let book = word_in(given, "BOOK");
    Some(Report::Totals { returns, book })
}

// What `compare` reports.
fn comparing<'a>(alloc: Global, given: &ArgMatches<'a>) -> Result<Option<Report<'a>>, AllocError>
    ensures { IfOk result (λ r. option_map page_of r ≡ comparison_page (rows_of (found_of given.now))) }
{
    let Some(returns) = word_in(given, "RETURNS") else {
        return Ok(None);
    };
    let books = words_in(alloc, given, "BOOK")?;
    let methods = words_in(alloc, given, "method")?;
    Ok(Some(Report::Compare {
        returns,
        books,
        methods,
    }))
}

/// What a command reports with the words given to it; `None` where it does not report.
pub(crate) fn report_of<'a>(
    alloc: Global,
    name: Name,
    given: &ArgMatches<'a>,
) -> Result<Option<Report<'a>>, AllocError>
    ensures { IfOk result (λ r. option_map page_of r ≡ page_by name (rows_of (found_of given.now))) }
{
    match name {
        Name::Count => Ok(tabling_seats(given)),
        Name::Steps => Ok(tabling_steps(given)),
        Name::Report => Ok(reporting(given)),
        Name::Stages => Ok(staging(given)),
        Name::Totals => Ok(totalling(given)),
        Name::Compare => comparing(alloc, given),
        _ => Ok(None),
    }
}
