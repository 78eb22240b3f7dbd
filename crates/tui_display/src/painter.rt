//! The `Painter` trait.

ghost use Rattle.std.specs.Prelude.{ℕ, List, OnOk};
ghost use Rattle.tui_cells.specs.Buffer.{Screen};

use std::alloc::Global;
use tui_cells::{Buffer, Mem};

/// Turns a line into the next screen.
pub trait Painter {
    // The screens that a line calls for after the one that is shown.
    ghost calls_for: { Self → List ℕ → Screen → Screen → Type 0 };

    /// Turns a buffer, whatever its content and area, into the screen that a line calls for after the one
    /// that is shown. The line has at least one byte. `NoMemory` ends the session.
    fn paint(&self, alloc: Global, line: &[u8], shown: &Buffer, next: &mut Buffer) -> Mem<()>
        ensures { OnOk result (calls_for self.now line.now shown.now next.new) };
}
