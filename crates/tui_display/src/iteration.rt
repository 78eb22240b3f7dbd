//! One iteration of the display's loop.

ghost use Rattle.tui_display.specs.Parts.{IsFinished, IsIterated};

use crate::display::DisplayState;
use crate::feed::take_bytes;
use crate::outcome::DisplayEnd;
use crate::painter::Painter;
use crate::setup::DisplaySetup;
use crate::showing::show_line;
use tui_app::{READ_CAPACITY, Terminal};
use tui_io::Sink;

/// Waits for input, and shows the lines that end in it; at the end of the input, shows the last line. Returns
/// `None` if the session goes on.
pub(crate) fn iteration<P: Painter, T: Terminal>(
    setup: DisplaySetup,
    painter: &P,
    display: &mut DisplayState,
    terminal: &mut T,
) -> Option<DisplayEnd>
    ensures { IsIterated (P.calls_for painter.now) setup.output display.old.line.items display.old.shown display.new.line.items display.new.shown
        (T.observed terminal.old) (T.observed terminal.new) result }
{
    let mut chunk = [0u8; READ_CAPACITY];
    let Ok(count) = terminal.wait(&mut chunk) else {
        return Some(DisplayEnd::ReadFault);
    };
    if count == 0 {
        return Some(finish(setup, painter, display, terminal));
    }
    take_bytes(setup, painter, display, &chunk[..count], terminal)
}

// The input ended: a line that has begun is the last one.
fn finish<P: Painter, K: Sink>(
    setup: DisplaySetup,
    painter: &P,
    display: &mut DisplayState,
    sink: &mut K,
) -> DisplayEnd
    ensures { IsFinished (P.calls_for painter.now) setup.output display.old.line.items display.old.shown (K.observed sink.old) (K.observed sink.new) result }
{
    match show_line(setup, painter, display, sink) {
        None => DisplayEnd::Ended,
        Some(end) => end,
    }
}
