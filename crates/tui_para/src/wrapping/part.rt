//! Parts of a text line.

/// A range of graphemes in a text line: where it begins and ends, and its width in columns.
#[derive(Clone, Copy, Debug)]
pub(crate) struct LineRange {
    pub start: usize,
    pub end: usize,
    pub width: u16,
}
