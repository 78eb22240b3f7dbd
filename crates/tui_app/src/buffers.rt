//! The buffers of the event loop.

use tui_cells::{Buffer, Position};

/// The buffer that the terminal shows, the position of its cursor, and a spare buffer for the next screen.
#[derive(Drop)]
pub(crate) struct LoopBuffers {
    pub(crate) shown: Buffer,
    pub(crate) place: Option<Position>,
    pub(crate) spare: Buffer,
}
