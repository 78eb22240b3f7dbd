//! The columns that all rows of a table share.

use tui_layout::Segment;

/// The columns that all rows share in one drawing.
#[derive(Clone, Copy, Debug)]
pub(crate) struct Grid<'c> {
    /// How many columns of the screen are reserved for the highlight symbol.
    pub gutter: u16,
    /// The columns of cells, counted from the end of the gutter.
    pub columns: &'c [Segment],
}
