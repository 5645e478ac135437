//! Explains legal faults, refused code files and runs that take too long: what is wrong, where, and what to do, in English or in German.
//!
//! Stands on `sl_explain_texts`, `sl_code_semantics`, `sl_code` and `sl_stages`; used by the rooms explain and report. Proved: the code of each
//! explanation is that of the fault. Of a legal fault also the sentence, to the byte, and the records: of a tie those of the lots that decide it, one for
//! each tied item, in their order; of another fault none.
//!
//! Where an error is `NoMemory` alone, memory ran out, and nothing else is wrong.
#![tactic(auto)]

mod code_files;
mod counts;
mod legal;
mod lots;
mod texts;
mod words;

pub use code_files::{explain_budget, explain_code_bytes, explain_code_kinds, explain_long_code};
pub use legal::{explain_legal, say_legal};
