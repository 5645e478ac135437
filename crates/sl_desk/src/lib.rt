//! The workbench: from readers of bytes to a writer of bytes.
//!
//! Stands on `sl_count_code_files` and `sl_count_calls`; used by the rooms law, explain and test. Proved: what each call writes, and its status.
//!
//! Where an error is `NoMemory` alone, memory ran out, and nothing else is wrong.
#![tactic(auto)]

mod calls;
pub mod laws;
mod runs;

pub use calls::check::{check_answer, check_book};
pub use calls::code::{Compilation, code, compilation_of};
pub use calls::law::law_text;
pub use calls::run::{JudgedRun, ReadRun, Run, judge_run, run_answer, run_code};
pub use sl_count_calls::{View, count, show, stage, steps};
pub use sl_count_code_files::{CodeRefusal, judge_code};
pub use sl_count_inputs::{
    BookRefusal, BookSource, BookText, DeskError, Failed, FromRead, Input, MAX_BOOK_BYTES,
    MAX_CODE_BYTES, MAX_RETURNS_BYTES, ReadBook, RefusedBook, RefusedElection, ReturnsRefusal,
    Sink, Source, Status, ToWrite, Verdict, judge_book, judge_returns, read_book, stage_number,
};
