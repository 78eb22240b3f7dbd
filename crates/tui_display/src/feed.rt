//! Handling the bytes of a read.

ghost use Rattle.std.specs.Prelude.{[], ◌∷◌};
ghost use Rattle.tui_display.specs.Parts.{Feeds, IsAdded};

use crate::display::DisplayState;
use crate::outcome::DisplayEnd;
use crate::painter::Painter;
use crate::setup::DisplaySetup;
use crate::showing::show_line;
use tui_io::{LIMIT, Sink};

/// What ends a line.
const NEWLINE: u8 = 10;

/// Handles the bytes of a read, and shows each line that ends in them. Returns `None` if the session goes on.
pub(crate) fn take_bytes<P: Painter, K: Sink>(
    setup: DisplaySetup,
    painter: &P,
    display: &mut DisplayState,
    bytes: &[u8],
    sink: &mut K,
) -> Option<DisplayEnd>
    ensures { Feeds (P.calls_for painter.now) setup.output bytes.now display.old.line.items display.old.shown display.new.line.items display.new.shown
        (K.observed sink.old) (K.observed sink.new) result }
{
    'bytes: for i in 0..bytes.len() {
        if let Some(end) = take_byte(setup, painter, display, bytes[i], sink) {
            return Some(end);
        }
    }
    None
}

fn take_byte<P: Painter, K: Sink>(
    setup: DisplaySetup,
    painter: &P,
    display: &mut DisplayState,
    byte: u8,
    sink: &mut K,
) -> Option<DisplayEnd>
    ensures { Feeds (P.calls_for painter.now) setup.output (byte ∷ []) display.old.line.items display.old.shown display.new.line.items display.new.shown
        (K.observed sink.old) (K.observed sink.new) result }
{
    if byte == NEWLINE {
        end_line(setup, painter, display, sink)
    } else {
        add_byte(&mut display.line, byte)
    }
}

fn end_line<P: Painter, K: Sink>(
    setup: DisplaySetup,
    painter: &P,
    display: &mut DisplayState,
    sink: &mut K,
) -> Option<DisplayEnd>
    ensures { Feeds (P.calls_for painter.now) setup.output (NEWLINE ∷ []) display.old.line.items display.old.shown display.new.line.items display.new.shown
        (K.observed sink.old) (K.observed sink.new) result }
{
    let end = show_line(setup, painter, display, sink);
    display.line.clear();
    end
}

fn add_byte(line: &mut Vec<u8>, byte: u8) -> Option<DisplayEnd>
    ensures { IsAdded line.old.items byte line.new.items result }
{
    if line.len() >= LIMIT {
        return Some(DisplayEnd::TooLong);
    }
    match line.push(byte) {
        Ok(()) => None,
        Err(_) => Some(DisplayEnd::NoMemory),
    }
}
