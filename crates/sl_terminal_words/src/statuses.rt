//! The exit statuses, as the help of a command lists them.

use crate::texts::statuses::{
    BUDGET, BUDGET_OF_RUN, DONE, FILE_STATUS, INPUT, LEGAL, OUTPUT, WORDS,
};
use sl_explain_texts::Message;

/// An exit status, and why the program ends with it.
#[derive(Clone, Copy)]
pub enum Status {
    Done,
    Words,
    Input,
    Legal,
    Budget,
    /// `Budget`, of the program itself.
    BudgetOfRun,
    File,
    Output,
}

impl Status {
    /// How the help says it.
    pub(crate) fn said(self) -> &'static Message {
        match self {
            Status::Done => &DONE,
            Status::Words => &WORDS,
            Status::Input => &INPUT,
            Status::Legal => &LEGAL,
            Status::Budget => &BUDGET,
            Status::BudgetOfRun => &BUDGET_OF_RUN,
            Status::File => &FILE_STATUS,
            Status::Output => &OUTPUT,
        }
    }
}

/// The exit statuses of the program itself.
pub(crate) const ALL: [Status; 6] = [
    Status::Done,
    Status::Words,
    Status::Input,
    Status::Legal,
    Status::BudgetOfRun,
    Status::File,
];

/// Those of a command that counts.
pub(crate) const COUNTS: [Status; 5] = [
    Status::Done,
    Status::Words,
    Status::Input,
    Status::Legal,
    Status::File,
];

/// Those of one that runs code.
pub(crate) const RUNS: [Status; 6] = [
    Status::Done,
    Status::Words,
    Status::Input,
    Status::Legal,
    Status::Budget,
    Status::File,
];

/// Those of one that reads and counts nothing.
pub(crate) const READS: [Status; 4] = [Status::Done, Status::Words, Status::Input, Status::File];

/// Those of one that reads nothing.
pub(crate) const TELLS: [Status; 3] = [Status::Done, Status::Words, Status::Output];
