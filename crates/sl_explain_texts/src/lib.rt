//! Explanations for people: a sentence with the code of the fault, the place in a file, the line that stands there with a mark, and what to do, in
//! English or in German.
//!
//! Stands on `sl_base_quotients`; used by the rooms explain, report and terminal. Proved: what a message says with
//! its values, and an explanation as it is written, to the byte.
//!
//! Where an error is `NoMemory` alone, memory ran out, and nothing else is wrong.
#![tactic(auto)]

mod code;
mod explainer;
mod explanation;
mod filled;
mod language;
mod line;
mod message;
mod names;
mod packed;
mod page;
mod parts;
mod program;
mod shown;
mod speaker;
mod texts;

pub use code::{CODES, FaultCode};
pub use explainer::Explainer;
pub use explanation::{Explanation, Span};
pub use filled::Filled;
pub use language::{LANGUAGE_WORDS, LANGUAGES, Language};
pub use line::{Line, line_at};
pub use message::{Message, Sentence};
pub use names::{is_sum, nearest};
pub use packed::{is_utf16, packing_of};
pub use page::written;
pub use parts::{append, first_line};
pub use program::VERSION;
pub use shown::push_shown;
pub use speaker::Speaker;
