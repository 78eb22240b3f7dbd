//! The state of a display: a line and two buffers.

ghost use Rattle.std.specs.Prelude.{IfOk};
ghost use Rattle.tui_display.specs.Parts.{IsBegun};

use std::alloc::Global;
use tui_cells::{Buffer, Mem, Rect};

/// The size of the blank screen with which a display begins.
const FIRST: Rect = Rect {
    x: 0,
    y: 0,
    width: 80,
    height: 1,
};

/// The line that has begun, the buffer that the terminal shows, and a buffer for the next screen.
#[derive(Drop)]
pub(crate) struct DisplayState {
    pub(crate) line: Vec<u8>,
    pub(crate) shown: Buffer,
    pub(crate) next: Buffer,
}

impl DisplayState {
    /// Creates a display with a blank screen and no line.
    pub(crate) fn new(alloc: Global) -> Mem<DisplayState>
        ensures { IfOk result IsBegun }
    {
        Ok(DisplayState {
            line: Vec::new(alloc),
            shown: Buffer::empty(alloc, FIRST)?,
            next: Buffer::empty(alloc, FIRST)?,
        })
    }
}
