//! The forms in which a report is written, as words ask for them and as a text has them.

/// The form of a report's text.
#[derive(Clone, Copy)]
pub enum Shape {
    /// Aligned, for a terminal.
    Text,
    Markdown,
    Html,
    Json,
    /// Comma-separated values.
    Comma,
}
