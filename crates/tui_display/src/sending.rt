//! Sending screens.

ghost use Rattle.std.specs.Prelude.{◌≢◌, ℕ, List};
ghost use Rattle.tui_display.specs.Session.{IsInFull, IsNext};
ghost use Rattle.tui_io.specs.Causes.{Writes};
ghost use Rattle.tui_terminal_model.specs.Calls.{IsFull};

use tui_cells::Buffer;
use tui_io::{Sink, WriteFault};
use tui_terminal::{write_changes, write_full};
use tui_terminal_model::{Cursor, Output};

/// Sends a screen in full.
pub(crate) fn send_full<K: Sink>(
    output: Output,
    buf: &Buffer,
    sink: &mut K,
) -> Result<(), WriteFault>
    ensures { (text : List ℕ) × IsFull output Cursor.Hidden buf.now text × Writes (K.observed sink.old) (K.observed sink.new) result text }
{
    write_full(buf, output, Cursor::Hidden, sink)
}

/// Sends what changes a terminal that shows the old screen into one that shows the new one: the changes, or
/// the whole screen if the size differs. The content of the old buffer is unspecified afterwards.
pub(crate) fn send_next<K: Sink>(
    output: Output,
    old: &mut Buffer,
    new: &Buffer,
    sink: &mut K,
) -> Result<(), WriteFault>
    ensures { (text : List ℕ) × IsNext output old.old new.now text × Writes (K.observed sink.old) (K.observed sink.new) result text }
{
    if old.area() == new.area() {
        write_changes(old, new, output, Cursor::Hidden, sink)
    } else {
        send_in_full(output, old, new, sink)
    }
}

// No part of the old screen may stay visible beside the new one.
fn send_in_full<K: Sink>(
    output: Output,
    old: &mut Buffer,
    new: &Buffer,
    sink: &mut K,
) -> Result<(), WriteFault>
    requires { new.now.area ≢ old.old.area }
    ensures { (text : List ℕ) × IsInFull output old.old new.now text × Writes (K.observed sink.old) (K.observed sink.new) result text }
{
    // Calling `height` gives the prover the shape of the buffer, so that its encoding exists even if the
    // first write fails.
    let _height = new.height();
    old.reset(old.area());
    send_full(output, old, sink)?;
    send_full(output, new, sink)
}
