//! What stays the same in a session.

use std::alloc::Global;
use tui_terminal_model::Output;

/// The allocator, and how screens are written.
#[derive(Clone, Copy)]
pub(crate) struct DisplaySetup {
    pub(crate) alloc: Global,
    pub(crate) output: Output,
}
