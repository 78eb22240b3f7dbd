//! How a text is wrapped into lines.

/// How a text is wrapped into lines. The lines break at whitespace only.
#[derive(Clone, Copy, Debug, PartialEq, Eq)]
pub struct Lines {
    /// The width of a line, in columns.
    pub width: u16,
    /// Whether whitespace at the beginning of a line is dropped.
    pub trim: bool,
}
