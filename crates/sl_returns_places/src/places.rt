//! Where the cells of a text stand: the one splitter besides the reader, by the same machine.

ghost use Rattle.std.specs.Prelude.{◌≡◌, ◌<◌, ◌≤◌, ◌^◌, ◌-◌, ℕ, List, drop, get_or, length};
ghost use Rattle.csv.specs.Machine.{ends_at_end, step};
ghost use Rattle.csv.specs.Reading.{default_config, strip_bom};
ghost use Rattle.sl_returns_places.specs.Places.{is_quoted, mark_length, place_in};
ghost use Rattle.sl_returns_places.specs.inner.Scanning.{machine_state, machine_action};

/// Where a cell stands in a text: the offset of its first byte, that after its last, and whether a quote in it is open at the end of the text.
#[derive(Clone, Copy)]
pub struct Place {
    pub start: usize,
    pub end: usize,
    pub is_open: bool,
}

// The states of the machine with which the `csv` crate reads, as far as its settings here reach them.
#[derive(Clone, Copy, PartialEq, Eq)]
enum State {
    StartRecord,
    StartField,
    InField,
    InQuoted,
    AfterQuote,
    AfterCr,
}

// What a byte does.
#[derive(Clone, Copy, PartialEq, Eq)]
enum Action {
    Skip,
    Copy,
    EndField,
    EndRecord,
}

// A byte in a cell without quotes.
fn in_field(byte: u8) -> (State, Action)
    ensures state { machine_state result.0 ≡ (step default_config (machine_state State.InField) byte).0 }
    ensures action { machine_action result.1 ≡ (step default_config (machine_state State.InField) byte).1 }
{
    match byte {
        b',' => (State::StartField, Action::EndField),
        b'\r' => (State::AfterCr, Action::EndRecord),
        b'\n' => (State::StartRecord, Action::EndRecord),
        _ => (State::InField, Action::Copy),
    }
}

// The first byte of a cell.
fn start_field(byte: u8) -> (State, Action)
    ensures state { machine_state result.0 ≡ (step default_config (machine_state State.StartField) byte).0 }
    ensures action { machine_action result.1 ≡ (step default_config (machine_state State.StartField) byte).1 }
{
    if byte == b'"' {
        (State::InQuoted, Action::Skip)
    } else {
        in_field(byte)
    }
}

impl State {
    // The state after a byte, and what the byte does.
    fn step(self, byte: u8) -> (State, Action)
        ensures state { machine_state result.0 ≡ (step default_config (machine_state self) byte).0 }
        ensures action { machine_action result.1 ≡ (step default_config (machine_state self) byte).1 }
    {
        match self {
            State::StartRecord | State::AfterCr if byte == b'\r' || byte == b'\n' => {
                (State::StartRecord, Action::Skip)
            }
            State::StartRecord | State::AfterCr | State::StartField => start_field(byte),
            State::InField => in_field(byte),
            State::InQuoted if byte == b'"' => (State::AfterQuote, Action::Skip),
            State::InQuoted => (State::InQuoted, Action::Copy),
            State::AfterQuote if byte == b'"' => (State::InQuoted, Action::Copy),
            State::AfterQuote => in_field(byte),
        }
    }

    // Whether the machine stands in a record, which the end of the text then ends.
    fn is_in_record(self) -> bool
        ensures { result ≡ ends_at_end (machine_state self) }
    {
        match self {
            State::StartRecord | State::AfterCr => false,
            State::StartField | State::InField | State::InQuoted | State::AfterQuote => true,
        }
    }

    // Whether the machine stands between quotes.
    fn is_quoted(self) -> bool
        ensures { result ≡ is_quoted (machine_state self) }
    {
        match self {
            State::InQuoted => true,
            State::StartRecord
            | State::StartField
            | State::InField
            | State::AfterQuote
            | State::AfterCr => false,
        }
    }
}

// The length of a byte order mark at the start of a text.
fn mark_length(bytes: &[u8]) -> usize
    ensures length { result ≡ mark_length bytes.now }
    ensures rest { drop result bytes.now ≡ strip_bom bytes.now }
{
    if bytes.starts_with(b"\xEF\xBB\xBF") {
        3
    } else {
        0
    }
}

// The record under way: the state of the machine, how many records come before the one that is looked for, the number of its cells that have
// ended, where the next one begins, and the place of the cell that is looked for, once it has ended.
#[derive(Clone, Copy)]
struct Scan {
    state: State,
    records: usize,
    cells: usize,
    start: usize,
    found: Option<Place>,
}

// What comes of a byte: the record goes on, or the place is known.
enum Turn {
    On(Scan),
    Done(Option<Place>),
}

impl Scan {
    ghost use Rattle.sl_returns_places.specs.inner.Scanning.{IsScanning, Turns, found_with, record_begun, with_cell};

    // The record that begins at an offset, before which so many come.
    fn begin(state: State, records: usize, start: usize) -> Scan
        ensures { result ≡ record_begun state records start }
    {
        Scan {
            state,
            records,
            cells: 0,
            start,
            found: None,
        }
    }

    // The place that is found when the cell under way ends.
    fn found_with(self, column: usize, end: usize, is_open: bool) -> Option<Place>
        ensures { result ≡ found_with self column end is_open }
    {
        if self.cells == column {
            Some(Place {
                start: self.start,
                end,
                is_open,
            })
        } else {
            self.found
        }
    }

    // The same record, in another state, with the cell under way from an offset on.
    fn goes_on(self, state: State, start: usize) -> Scan
        ensures { result ≡ record self { state = state; start = start } }
    {
        Scan {
            state,
            records: self.records,
            cells: self.cells,
            start,
            found: self.found,
        }
    }

    // The same record, where the byte at an offset ends a cell.
    fn with_cell(self, state: State, column: usize, at: usize) -> Scan
        requires room { at < 2 ^ 64 - 1 }
        ensures { result ≡ with_cell self state column at }
    {
        Scan {
            state,
            records: self.records,
            cells: self.cells.saturating_add(1),
            start: at + 1,
            found: self.found_with(column, at, false),
        }
    }

    // Takes the byte at an offset.
    fn turn(self, column: usize, at: usize, byte: u8) -> Turn
        requires { at < 2 ^ 64 - 1 }
        ensures { (text : List ℕ) (row : ℕ) → IsScanning text row column self at → at < length text → byte ≡ get_or text at 0 → Turns text row column at result }
    {
        let (state, action) = self.state.step(byte);
        match action {
            Action::Copy => Turn::On(self.goes_on(state, self.start)),
            Action::Skip if state.is_in_record() => Turn::On(self.goes_on(state, self.start)),
            Action::Skip => Turn::On(self.goes_on(state, at + 1)),
            Action::EndField => Turn::On(self.with_cell(state, column, at)),
            Action::EndRecord if self.records == 0 => {
                Turn::Done(self.found_with(column, at, false))
            }
            Action::EndRecord => Turn::On(Scan::begin(state, self.records - 1, at + 1)),
        }
    }

    // The place at the end of the text, which ends a record that is under way.
    fn finish(self, column: usize, end: usize) -> Option<Place>
        ensures { (text : List ℕ) (row : ℕ) → IsScanning text row column self end → length text ≤ end → result ≡ place_in text row column }
    {
        if self.records == 0 && self.state.is_in_record() {
            self.found_with(column, end, self.state.is_quoted())
        } else {
            None
        }
    }
}

/// Where the cell of a column, from 0, stands in the record of a row, the first row being 1, if there is such a cell.
pub fn cell_place(bytes: &[u8], row: u32, column: usize) -> Option<Place>
    ensures { result ≡ place_in bytes.now row column }
{
    let before = (row as usize).checked_sub(1)?;
    let begin = mark_length(bytes);
    let mut scan = Scan::begin(State::StartRecord, before, begin);
    for at in begin..bytes.len() {
        match scan.turn(column, at, bytes[at]) {
            Turn::On(next) => scan = next,
            Turn::Done(found) => return found,
        }
    }
    scan.finish(column, bytes.len())
}
