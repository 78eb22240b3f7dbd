//! The cursor at the end of a frame.

use tui_cells::Position;

/// What to do with the cursor at the end of a frame.
#[derive(Clone, Copy, Debug, PartialEq, Eq)]
pub enum Cursor {
    /// Send nothing for it.
    Keep,
    /// Hide it.
    Hidden,
    /// Show it at a position within the buffer's area.
    At(Position),
}
