//! The commands as a table: of each its words and options, what it reads and writes, an example, and the exit statuses.

ghost use Rattle.std.specs.Prelude.{◌≡◌, map, option_and_then, slice_get, string_bytes};
ghost use Rattle.sl_terminal_words.specs.Commands.{command_named};
ghost use Rattle.sl_terminal_words.specs.inner.Rules.{IsFormOf, NamesForm};

use crate::statuses::{ALL, COUNTS, READS, RUNS, Status, TELLS};
use crate::texts::help::{
    CHECK_ABOUT, CHECK_MORE, CODE_ABOUT, CODE_MORE, COMPARE_ABOUT, COMPARE_MORE, COUNT_ABOUT,
    COUNT_MORE, EXPLAIN_ABOUT, EXPLAIN_MORE, LAW_ABOUT, LAW_MORE, PROGRAM_ABOUT, PROGRAM_MORE,
    REPORT_ABOUT, REPORT_MORE, RUN_ABOUT, RUN_MORE, STAGE_ABOUT, STAGE_MORE, STAGES_ABOUT,
    STAGES_MORE, STEPS_ABOUT, STEPS_MORE, TOTALS_ABOUT, TOTALS_MORE,
};
use crate::words::{
    CODE_OPTIONS, COMPARE_OPTIONS, COUNT_OPTIONS, COUNT_REPORT_OPTIONS, OPTIONS, REPORT_OPTIONS,
    WordName,
};
use sl_explain_texts::Message;

/// A command: its name, what it does in a line, its words, its options, what it reads and writes, an example, and its exit statuses.
pub struct Form {
    pub name: &'static str,
    pub about: Message,
    pub words: &'static [WordName],
    pub options: &'static [WordName],
    pub more: Message,
    pub example: &'static str,
    pub statuses: &'static [Status],
}

/// The program itself, whose words are the commands.
#[rattlefmt::skip]
pub static PROGRAM: Form = Form { name: "seatlaw", about: PROGRAM_ABOUT, words: &[], options: &[],
    more: PROGRAM_MORE, example: "count @2023-order returns.csv", statuses: &ALL };

#[rattlefmt::skip]
static COUNT: Form = Form { name: "count", about: COUNT_ABOUT, words: &[WordName::Book, WordName::Returns], options: &COUNT_OPTIONS,
    more: COUNT_MORE, example: "count @2023-order returns.csv", statuses: &COUNTS };

#[rattlefmt::skip]
static STEPS: Form = Form { name: "steps", about: STEPS_ABOUT, words: &[WordName::Book, WordName::Returns], options: &COUNT_OPTIONS,
    more: STEPS_MORE, example: "steps @2023-order returns.csv", statuses: &COUNTS };

#[rattlefmt::skip]
static STAGE: Form = Form { name: "stage", about: STAGE_ABOUT, words: &[WordName::Book, WordName::Returns, WordName::StageName], options: &OPTIONS,
    more: STAGE_MORE, example: "stage @2013 returns.csv floor", statuses: &COUNTS };

#[rattlefmt::skip]
static CHECK: Form = Form { name: "check", about: CHECK_ABOUT, words: &[WordName::Book], options: &OPTIONS,
    more: CHECK_MORE, example: "check book.law", statuses: &READS };

#[rattlefmt::skip]
static CODE: Form = Form { name: "code", about: CODE_ABOUT, words: &[WordName::Book, WordName::Out], options: &CODE_OPTIONS,
    more: CODE_MORE, example: "code book.law book.slc", statuses: &READS };

#[rattlefmt::skip]
static RUN: Form = Form { name: "run", about: RUN_ABOUT, words: &[WordName::CodeFile, WordName::Returns], options: &OPTIONS,
    more: RUN_MORE, example: "run book.slc returns.csv", statuses: &RUNS };

/// The name of the command that writes a statute.
pub(crate) const LAW_NAME: &str = "law";

#[rattlefmt::skip]
static LAW: Form = Form { name: LAW_NAME, about: LAW_ABOUT, words: &[WordName::Statute], options: &OPTIONS,
    more: LAW_MORE, example: "law 2023-order", statuses: &READS };

#[rattlefmt::skip]
static EXPLAIN: Form = Form { name: "explain", about: EXPLAIN_ABOUT, words: &[WordName::FaultCode], options: &OPTIONS,
    more: EXPLAIN_MORE, example: "explain B15", statuses: &TELLS };

#[rattlefmt::skip]
static REPORT: Form = Form { name: "report", about: REPORT_ABOUT, words: &[WordName::Book, WordName::Returns], options: &COUNT_REPORT_OPTIONS,
    more: REPORT_MORE, example: "report @2023-order returns.csv", statuses: &COUNTS };

#[rattlefmt::skip]
static STAGES: Form = Form { name: "stages", about: STAGES_ABOUT, words: &[WordName::Book, WordName::Returns], options: &REPORT_OPTIONS,
    more: STAGES_MORE, example: "stages @2013 returns.csv", statuses: &COUNTS };

#[rattlefmt::skip]
static TOTALS: Form = Form { name: "totals", about: TOTALS_ABOUT, words: &[WordName::Returns, WordName::OptionalBook], options: &REPORT_OPTIONS,
    more: TOTALS_MORE, example: "totals returns.csv @2023-order", statuses: &READS };

#[rattlefmt::skip]
static COMPARE: Form = Form { name: "compare", about: COMPARE_ABOUT, words: &[WordName::Returns, WordName::Books], options: &COMPARE_OPTIONS,
    more: COMPARE_MORE, example: "compare returns.csv @2013 @2023-order", statuses: &READS };

/// A command by its name alone.
#[derive(Clone, Copy)]
pub(crate) enum Name {
    Count,
    Steps,
    Stage,
    Check,
    Code,
    Run,
    Law,
    Explain,
    Report,
    Stages,
    Totals,
    Compare,
}

impl Name {
    /// The command that a word names, if it names one.
    pub(crate) fn of_word(word: &str) -> Option<Name>
        ensures { result ≡ command_named word.now }
    {
        COMMANDS
            .iter()
            .copied()
            .find(|name| name.form().name == word)
    }

    /// The command.
    pub(crate) fn form(self) -> &'static Form
        ensures { IsFormOf self result.now }
    {
        match self {
            Name::Count => &COUNT,
            Name::Steps => &STEPS,
            Name::Stage => &STAGE,
            Name::Check => &CHECK,
            Name::Code => &CODE,
            Name::Run => &RUN,
            Name::Law => &LAW,
            Name::Explain => &EXPLAIN,
            Name::Report => &REPORT,
            Name::Stages => &STAGES,
            Name::Totals => &TOTALS,
            Name::Compare => &COMPARE,
        }
    }
}

/// The commands, in the order in which the help lists them.
pub(crate) const COMMANDS: [Name; 12] = [
    Name::Count,
    Name::Steps,
    Name::Stage,
    Name::Check,
    Name::Code,
    Name::Run,
    Name::Law,
    Name::Explain,
    Name::Report,
    Name::Stages,
    Name::Totals,
    Name::Compare,
];

/// The command of a name.
pub(crate) fn named(name: &str) -> Option<&'static Form>
    ensures { NamesForm (command_named name.now) result }
{
    Some(Name::of_word(name)?.form())
}

/// The command that the words begin with, if they begin with one.
pub(crate) fn command_of(words: &[String]) -> Option<&'static Form>
    ensures { NamesForm (option_and_then command_named (slice_get (map string_bytes words.now) 1)) result }
{
    named(words.get(1)?.as_str())
}
