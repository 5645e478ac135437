//! A record that is refused, with the text that it stands in, and a look at other records there.

ghost use Rattle.std.specs.Prelude.{◌≡◌, IfOk, Some, length, true};
ghost use Rattle.sl_explain_returns.specs.Places.{Explains, begins_cell};
ghost use Rattle.sl_explain_texts.specs.Messages.{IsFilledBy};

use crate::texts::case::{CELL, CELLS, RECORD, TABLE};
use csv::ByteRecord;
use sl_base_quotients::NoMemory;
use sl_explain_texts::{Explainer, FaultCode, Message, Span, Speaker, line_at};
use sl_returns::{COLUMNS, Content, KIND, Kind, cell, column_name, reader_of};
use sl_returns_places::{RecordAtFault, cell_place};
use sl_stages::Returns;

// Whether a record has these cells, each by its column.
fn has_cells(record: &ByteRecord, cells: &[(usize, &[u8])]) -> bool {
    cells
        .iter()
        .all(|(column, wanted)| cell(record, *column) == *wanted)
}

/// A refused record, the text that it stands in with the returns of all its records that were taken, and the person who is spoken to.
#[derive(Clone, Copy)]
pub(crate) struct Case<'a> {
    pub(crate) speaker: Speaker,
    pub(crate) bytes: &'a [u8],
    pub(crate) refused: RecordAtFault<'a>,
    pub(crate) taken: &'a Returns,
}

impl Case<'_> {
    /// What the cell of a column holds, nothing where there is none.
    pub(crate) fn text(&self, column: usize) -> &[u8] {
        self.refused.cell(column)
    }

    /// The name of a column, as a value beside cells of the record.
    pub(crate) fn name(&self, column: usize) -> &[u8] {
        column_name(column)
    }

    /// The kind of the record.
    pub(crate) fn kind(&self) -> Option<Kind> {
        self.refused.kind()
    }

    /// What the cell of a column must hold, if the record has a kind.
    pub(crate) fn content(&self, column: usize) -> Option<Content> {
        let kind = self.kind()?;
        Some(kind.content(column))
    }

    /// The column of the cell at fault, and what that cell must hold, where a cell is at fault.
    pub(crate) fn cell_at_fault(&self) -> Option<(usize, Content)> {
        let column = self.refused.fault.column?;
        let content = self.content(column)?;
        Some((column, content))
    }

    /// The number of its cells. A record that was taken has six.
    pub(crate) fn cells(&self) -> usize {
        if self.refused.record.is_empty() {
            COLUMNS
        } else {
            self.refused.record.len()
        }
    }

    /// The bytes of the cell of a column. Where there is none, the end of the text.
    pub(crate) fn at(&self, column: usize) -> Span
        ensures { begins_cell self.now.bytes.now self.now.refused.fault.row result.start ≡ true }
    {
        match self.refused.place(self.bytes, column) {
            Some(place) => Span {
                start: place.start,
                end: place.end,
            },
            None => Span {
                start: self.bytes.len(),
                end: self.bytes.len(),
            },
        }
    }

    /// The bytes from the cell of a column to that of another.
    pub(crate) fn between(&self, first: usize, last: usize) -> Span
        ensures { begins_cell self.now.bytes.now self.now.refused.fault.row result.start ≡ true }
    {
        Span {
            start: self.at(first).start,
            end: self.at(last).end,
        }
    }

    /// The bytes of the record, without its line end.
    pub(crate) fn whole(&self) -> Span
        ensures { begins_cell self.now.bytes.now self.now.refused.fault.row result.start ≡ true }
    {
        self.between(KIND, self.cells().saturating_sub(1))
    }

    /// The row of the first record that comes after a row and has these cells, each by its column.
    pub(crate) fn find(
        &self,
        after: u32,
        cells: &[(usize, &[u8])],
    ) -> Result<Option<u32>, NoMemory> {
        let mut reader = reader_of(self.speaker.alloc, self.bytes);
        let mut record = ByteRecord::new(self.speaker.alloc);
        for row in 1..u32::MAX {
            match reader.read_byte_record(&mut record) {
                Ok(true) if row > after && has_cells(&record, cells) => return Ok(Some(row)),
                Ok(true) => {}
                Ok(false) => return Ok(None),
                Err(_) => return Err(NoMemory),
            }
        }
        Ok(None)
    }

    /// The row of the first record before this one that has the same cells in some columns.
    pub(crate) fn row_before(&self, columns: &[usize]) -> Result<Option<u32>, NoMemory> {
        let mut cells = Vec::new(self.speaker.alloc);
        for column in columns {
            cells.push((*column, self.text(*column)))?;
        }
        match self.find(0, cells.as_slice())? {
            Some(row) if row < self.refused.fault.row => Ok(Some(row)),
            Some(_) | None => Ok(None),
        }
    }

    /// The number of the line in which the record of a row begins.
    pub(crate) fn line(&self, row: u32) -> usize {
        let at = match cell_place(self.bytes, row, KIND) {
            Some(place) => place.start,
            None => self.bytes.len(),
        };
        line_at(self.bytes, at).number
    }

    /// An explanation of one sentence on some bytes, about the fault of a code.
    pub(crate) fn says(
        &self,
        code: FaultCode,
        message: &Message,
        values: &[&[u8]],
        span: Span,
    ) -> Explainer
        requires message { IsFilledBy message.now (length values.now) }
        requires place { begins_cell self.now.bytes.now self.now.refused.fault.row span.start ≡ true }
        ensures { Explains self.now (Some code) result }
    {
        self.speaker
            .says_at(&(code, message.0, message.1), values, span)
    }

    /// An explanation of one sentence on the cell of a column, about the fault of a code. Its values are the name of the column, what the cell holds,
    /// in words, the cell, and two more.
    pub(crate) fn says_of_cell<'x>(
        &'x self,
        code: FaultCode,
        message: &Message,
        column: usize,
        words: &'x [u8],
        more: (&'x [u8], &'x [u8]),
    ) -> Explainer
        requires { IsFilledBy message.now 5 }
        ensures { Explains self.now (Some code) result }
    {
        let values = [self.name(column), words, self.text(column), more.0, more.1];
        self.says(code, message, &values, self.at(column))
    }

    /// An explanation of one sentence on the number of cells, about the fault of a code.
    pub(crate) fn says_count(
        &self,
        code: FaultCode,
        message: &Message,
        span: Span,
    ) -> Result<Explainer, NoMemory>
        requires message { IsFilledBy message.now 1 }
        requires place { begins_cell self.now.bytes.now self.now.refused.fault.row span.start ≡ true }
        ensures { IfOk result (Explains self.now (Some code)) }
    {
        let count = self.speaker.counted(self.cells(), &CELL, &CELLS)?;
        Ok(self.says(code, message, &[count.as_slice()], span))
    }

    /// The explanation of the record where nothing else can be said of it, about the fault of a code.
    pub(crate) fn explains_row(&self, code: FaultCode) -> Result<Explainer, NoMemory>
        ensures { IfOk result (Explains self.now (Some code)) }
    {
        let row = self.speaker.number(self.refused.fault.row as usize)?;
        let explainer = self.says(code, &RECORD, &[row.as_slice()], self.whole());
        Ok(explainer.helped(&TABLE, &[]))
    }
}
