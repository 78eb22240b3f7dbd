//! Columns.

/// A column: where it begins, counted from the start of the length, and its width in cells.
#[derive(Clone, Copy, Debug, PartialEq, Eq)]
pub struct Segment {
    pub start: u16,
    pub width: u16,
}
