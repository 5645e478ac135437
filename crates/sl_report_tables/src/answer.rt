//! What a command that reports answers: sheets with a status, and their text in one of the forms.

ghost use Rattle.std.specs.Prelude.{◌≡◌, [], ℕ, IfOk, List, map, option_map};
ghost use Rattle.sl_count_inputs.specs.Statuses.{status_number};
ghost use Rattle.sl_report_forms.specs.HtmlForm.{html_page};
ghost use Rattle.sl_report_forms.specs.JsonForm.{IsJsonText};
ghost use Rattle.sl_report_forms.specs.MarkdownForm.{markdown_of};
ghost use Rattle.sl_report_forms.specs.Shown.{view_in};
ghost use Rattle.sl_report_forms.specs.TextForm.{aligned_of};
ghost use Rattle.sl_report_tables.specs.Answers.{IsAnswerText, IsRefusal, IsRefusedBy, IsToldLine, OfLine, below_line, views_in};

use sl_base_quotients::NoMemory;
use sl_count_inputs::Status;
use sl_explain_texts::Language;
use sl_report_forms::{
    Heading, Names, Shape, Sheet, Shown, aligned_text, comma_text, html_text, json_text,
    markdown_text, shown_sheets,
};
use std::alloc::Global;

// What a file of names holds, as the line says that refuses one.
const NAMES_FORM: &str =
    "each line is SHORT,FULL, two cells with a comma and no semicolon between them, in UTF-8 and not in Latin-1, without a header";

// What an earlier seat table holds, as the line says that refuses one.
const BEFORE_FORM: &str = "each line is one that `count` writes, such as `party CDU 208 172`";

/// The sheets that a command shows, by these names, the status that stands for them, and the line of a refusal or of a legal fault, with its end; no
/// bytes where there is neither. A refusal has no sheets.
#[derive(Drop)]
pub struct Answer {
    pub status: Status,
    pub line: Vec<u8>,
    pub names: Names,
    pub sheets: Vec<Sheet>,
}

// A line without its end, if it has one.
fn without_end(line: &[u8]) -> Option<&str>
    ensures { IsToldLine line.now (option_map (λ l. l.now) result) }
{
    let line = line.strip_suffix(b"\n")?;
    std::str::from_utf8(line).ok()
}

impl Answer {
    // The answer of a command that has these sheets.
    pub(crate) fn done(alloc: Global, names: Names, sheets: Vec<Sheet>) -> Answer
        ensures status { result.status ≡ Status.Done }
        ensures line { result.line.items ≡ [] }
        ensures names { result.names ≡ names }
        ensures sheets { result.sheets.items ≡ sheets.items }
    {
        Answer {
            status: Status::Done,
            line: Vec::new(alloc),
            names,
            sheets,
        }
    }

    /// The answer that refuses an input by a line.
    pub fn refused(alloc: Global, line: Vec<u8>) -> Answer
        ensures { IsRefusedBy line.items result }
    {
        Answer {
            status: Status::Refused,
            line,
            names: Names::none(alloc),
            sheets: Vec::new(alloc),
        }
    }

    // The line that refuses the names in a record, with what such a record is.
    pub(crate) fn refused_names(alloc: Global, row: u64) -> Result<Answer, NoMemory>
        ensures { IfOk result IsRefusal }
    {
        let line = format!(in alloc; "refused names {row}: {NAMES_FORM}\n")?;
        Ok(Answer::refused(alloc, line.into_bytes()))
    }

    // The line that refuses names of too many bytes.
    pub(crate) fn names_too_long(alloc: Global) -> Result<Answer, NoMemory>
        ensures { IfOk result IsRefusal }
    {
        let line = String::from_str(alloc, "refused names toolong: at most 4,194,304 bytes\n")?;
        Ok(Answer::refused(alloc, line.into_bytes()))
    }

    // The line that refuses an earlier seat table in a line, with what such a line is.
    pub(crate) fn refused_before(alloc: Global, line: usize) -> Result<Answer, NoMemory>
        ensures { IfOk result IsRefusal }
    {
        let line = format!(in alloc; "refused before {line}: {BEFORE_FORM}\n")?;
        Ok(Answer::refused(alloc, line.into_bytes()))
    }

    // The line that refuses an earlier seat table of too many bytes.
    pub(crate) fn before_too_long(alloc: Global) -> Result<Answer, NoMemory>
        ensures { IfOk result IsRefusal }
    {
        let line = String::from_str(alloc, "refused before toolong: at most 4,194,304 bytes\n")?;
        Ok(Answer::refused(alloc, line.into_bytes()))
    }

    // What is shown of its sheets.
    fn shown(&self, alloc: Global, language: Language) -> Result<Vec<Shown>, NoMemory>
        ensures { IfOk result (λ v. map view_in v.items ≡ views_in language self.now) }
    {
        shown_sheets(alloc, language, &self.names, self.sheets.as_slice())
    }

    // The sheets as aligned text, after the line of a legal fault, if there is one, and an empty line.
    fn aligned(&self, alloc: Global, language: Language) -> Result<Vec<u8>, NoMemory>
        ensures { IfOk result (λ text. text.items ≡ below_line self.now.line.items (aligned_of (views_in language self.now))) }
    {
        let shown = self.shown(alloc, language)?;
        let sheets = aligned_text(alloc, shown.as_slice())?;
        if self.line.is_empty() {
            return Ok(sheets.into_bytes());
        }
        let mut text = Vec::from_slice(alloc, self.line.as_slice())?;
        text.push(b'\n')?;
        text.extend_from_slice(sheets.as_bytes())?;
        Ok(text)
    }

    fn markdown(&self, alloc: Global, language: Language) -> Result<Vec<u8>, NoMemory>
        ensures { IfOk result (λ text. OfLine (λ line. text.items ≡ markdown_of line (views_in language self.now)) self.now) }
    {
        let line = without_end(self.line.as_slice());
        let shown = self.shown(alloc, language)?;
        Ok(markdown_text(alloc, line, shown.as_slice())?.into_bytes())
    }

    fn html(&self, alloc: Global, heading: &Heading<'_>) -> Result<Vec<u8>, NoMemory>
        ensures { IfOk result (λ text. OfLine (λ line. (title : List ℕ) × (text.items ≡ html_page heading.now.language title line (views_in heading.now.language self.now))) self.now) }
    {
        let line = without_end(self.line.as_slice());
        let shown = self.shown(alloc, heading.language)?;
        Ok(html_text(alloc, heading, line, shown.as_slice())?.into_bytes())
    }

    fn json(&self, alloc: Global, heading: &Heading<'_>) -> Result<Vec<u8>, NoMemory>
        ensures { IfOk result (λ text. OfLine (λ line. IsJsonText heading.now (status_number self.now.status) line self.now.names self.now.sheets.items text.items) self.now) }
    {
        let line = without_end(self.line.as_slice());
        let (status, sheets) = (self.status.number(), self.sheets.as_slice());
        Ok(json_text(alloc, heading, status, line, &self.names, sheets)?.into_bytes())
    }

    /// Its text in a form. A refusal is its line alone, but in JSON. The command and the language of a heading stand in HTML, and what it says beside
    /// the tables in JSON alone.
    pub fn text(
        &self,
        alloc: Global,
        shape: Shape,
        heading: &Heading<'_>,
    ) -> Result<Vec<u8>, NoMemory>
        ensures { IfOk result (λ text. IsAnswerText shape heading.now self.now text.items) }
    {
        match (shape, self.status) {
            (Shape::Json, _) => self.json(alloc, heading),
            (Shape::Text | Shape::Markdown | Shape::Html | Shape::Comma, Status::Refused) => Ok(
                Vec::from_slice(alloc, self.line.as_slice())?,
            ),
            (Shape::Comma, _) => comma_text(alloc, &self.names, self.sheets.as_slice()),
            (Shape::Text, _) => self.aligned(alloc, heading.language),
            (Shape::Markdown, _) => self.markdown(alloc, heading.language),
            (Shape::Html, _) => self.html(alloc, heading),
        }
    }
}
