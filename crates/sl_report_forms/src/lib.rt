//! Sheets of rows, and their forms: aligned text, Markdown, HTML, comma-separated values, and JSON.
//!
//! Stands on `sl_explain_texts` and `sl_law_margins`; used by the rooms report and terminal. Proved: what stands in the cells of each row; the
//! text of a cell as a program and as a person read it, by the names of what is numbered; CSV and JSON, in which `csv` and `serde_json` read
//! again what was written; Markdown, HTML and aligned text, byte for byte; and the digest of an input. Only tested: the title of a command in
//! HTML, and the words of an explanation in JSON.
//!
//! Where an error is `NoMemory` alone, memory ran out, and nothing else is wrong.
#![tactic(auto)]

mod cell;
mod comma_form;
mod draft;
pub mod escape_laws;
mod heading;
mod html_form;
mod json_form;
mod json_heading;
mod json_values;
mod markdown_form;
mod names;
mod shape;
mod sheet;
mod shown;
mod text_form;
mod words;

pub use cell::Cell;
pub use comma_form::comma_text;
pub use heading::{DigestedInput, Heading, Told};
pub use html_form::html_text;
pub use json_form::json_text;
pub use markdown_form::markdown_text;
pub use names::{Name, Names};
pub use shape::Shape;
pub use sheet::{ColumnForm, Head, Look, Sheet, Title};
pub use shown::{Shown, shown_sheets};
pub use text_form::aligned_text;
pub use words::ALL;
