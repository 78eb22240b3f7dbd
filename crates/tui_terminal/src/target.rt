//! Where and how a row is sent.

use tui_terminal_model::Output;

/// Where and how a row is sent.
#[derive(Clone, Copy)]
pub(crate) struct RowTarget {
    pub output: Output,
    /// The row on the terminal.
    pub y: usize,
    /// The column of the first cell.
    pub left: usize,
}
