//! The inputs of the calls, and where they write: readers and writers of bytes, and what bytes come to as a rulebook or as returns.
//!
//! Stands on `sl_count_texts`, `sl_returns`, `sl_check`, `sl_parse` and `sl_laws`; used by the rooms count, report, terminal and test. Proved: what
//! bytes come to, with what was read of a refused input, that the bytes handed on are those that were read, which input failed, and that a text is
//! written whole or a prefix of it.
//!
//! Where an error is `NoMemory` alone, memory ran out, and nothing else is wrong.
#![tactic(auto)]

mod book;
mod input;
mod limits;
mod refusal;
mod refused_book;
mod refused_election;
mod returns;
mod sink;
mod source;
mod stage_name;
mod status;
mod verdict;

pub use book::{BookText, ReadBook, judge_book, read_book};
pub use input::{Bytes, read_all, write_all};
pub use limits::{MAX_BOOK_BYTES, MAX_CODE_BYTES, MAX_RETURNS_BYTES};
pub use refusal::{BookRefusal, Numbered, ReturnsRefusal, refused, refused_by};
pub use refused_book::RefusedBook;
pub use refused_election::RefusedElection;
pub use returns::{ReadReturns, judge_returns, read_election};
pub use sink::{Sink, ToWrite};
pub use source::{BookSource, Failed, FromRead, Source};
pub use stage_name::stage_number;
pub use status::{DeskError, Input, Status};
pub use verdict::Verdict;
