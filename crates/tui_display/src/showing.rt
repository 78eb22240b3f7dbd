//! Showing one line.

ghost use Rattle.std.specs.Prelude.{◌≡◌, ℕ, List};
ghost use Rattle.tui_display.specs.Parts.{IsLineShown, IsWritten};
ghost use Rattle.tui_display.specs.Session.{IsNext};

use crate::display::DisplayState;
use crate::outcome::DisplayEnd;
use crate::painter::Painter;
use crate::sending::send_next;
use crate::setup::DisplaySetup;
use std::mem;
use tui_io::Sink;
use tui_terminal_model::Output;

/// Shows the screen that the line calls for. An empty line is skipped. Returns `None` if the session goes on.
pub(crate) fn show_line<P: Painter, K: Sink>(
    setup: DisplaySetup,
    painter: &P,
    display: &mut DisplayState,
    sink: &mut K,
) -> Option<DisplayEnd>
    ensures shown { IsLineShown (P.calls_for painter.now) setup.output display.old.shown display.old.line.items display.new.shown
        (K.observed sink.old) (K.observed sink.new) result }
    ensures line { display.new.line ≡ display.old.line }
{
    if display.line.is_empty() {
        return None;
    }
    let painted = painter.paint(
        setup.alloc,
        display.line.as_slice(),
        &display.shown,
        &mut display.next,
    );
    match painted {
        Ok(()) => show_next(setup.output, display, sink),
        Err(_) => Some(DisplayEnd::NoMemory),
    }
}

// The next screen is the shown one from now on.
fn show_next<K: Sink>(
    output: Output,
    display: &mut DisplayState,
    sink: &mut K,
) -> Option<DisplayEnd>
    ensures shown { display.new.shown ≡ display.old.next }
    ensures line { display.new.line ≡ display.old.line }
    ensures sent { (text : List ℕ) × IsNext output display.old.shown display.old.next text × IsWritten (K.observed sink.old) (K.observed sink.new) text result }
{
    mem::swap(&mut display.shown, &mut display.next);
    match send_next(output, &mut display.next, &display.shown, sink) {
        Ok(()) => None,
        Err(_) => Some(DisplayEnd::WriteFault),
    }
}
