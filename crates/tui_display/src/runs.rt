//! The loop of a display.

ghost use Rattle.tui_display.specs.Parts.{IsClosed, IsOpened};
ghost use Rattle.tui_display.specs.Run.{IsDisplayRun, last_text};
ghost use Rattle.tui_io.specs.Causes.{Writes};

use crate::display::DisplayState;
use crate::iteration::iteration;
use crate::outcome::DisplayEnd;
use crate::painter::Painter;
use crate::sending::send_full;
use crate::setup::DisplaySetup;
use std::alloc::Global;
use tui_app::{MAX_READS, Terminal};
use tui_cells::Buffer;
use tui_io::{Sink, WriteFault, write_all};
use tui_terminal::{enter, leave};
use tui_terminal_model::Output;

/// Shows on a terminal what the lines of its input call for. Enters the alternate screen, and shows a blank
/// screen of 80 columns and one row. Then for each line shows the screen that the painter makes for it,
/// before anything more is read. At the end leaves the alternate screen.
///
/// A newline ends a line, and so does the end of the input. Empty lines are skipped. Of a screen of the same
/// size as the one before only the changes are sent; any other screen is sent in full, after blanks in place
/// of the one before. The cursor is hidden.
///
/// At the end the alternate screen is left, with two exceptions: after a `WriteFault` nothing more is
/// written, and nothing is written at all if memory runs out before the first screen. `TooLong` is returned
/// as soon as a line has more than 1,048,576 bytes; the line `refused: too long` is written after leaving.
pub fn show_lines<P: Painter, T: Terminal>(
    alloc: Global,
    painter: &P,
    output: Output,
    terminal: &mut T,
) -> DisplayEnd
    ensures { IsDisplayRun (P.calls_for painter.now) output (T.observed terminal.old) (T.observed terminal.new) result }
{
    let Ok(mut display) = DisplayState::new(alloc) else {
        return DisplayEnd::NoMemory;
    };
    let Ok(()) = show_first(output, &display.shown, terminal) else {
        return DisplayEnd::WriteFault;
    };
    let setup = DisplaySetup { alloc, output };
    'iterations: for _i in 0..MAX_READS {
        if let Some(end) = iteration(setup, painter, &mut display, terminal) {
            return close(end, terminal);
        }
    }
    close(DisplayEnd::ManyReads, terminal)
}

fn show_first<K: Sink>(output: Output, first: &Buffer, sink: &mut K) -> Result<(), WriteFault>
    ensures { IsOpened output first.now (K.observed sink.old) (K.observed sink.new) result }
{
    enter(sink)?;
    send_full(output, first, sink)
}

fn close<K: Sink>(end: DisplayEnd, sink: &mut K) -> DisplayEnd
    ensures { IsClosed end (K.observed sink.old) (K.observed sink.new) result }
{
    match end {
        DisplayEnd::WriteFault => DisplayEnd::WriteFault,
        end => match write_last(end, sink) {
            Ok(()) => end,
            Err(_) => DisplayEnd::WriteFault,
        },
    }
}

fn write_last<K: Sink>(end: DisplayEnd, sink: &mut K) -> Result<(), WriteFault>
    ensures { Writes (K.observed sink.old) (K.observed sink.new) result (last_text end) }
{
    match end {
        DisplayEnd::TooLong => leave_refused(sink),
        _ => leave(sink),
    }
}

fn leave_refused<K: Sink>(sink: &mut K) -> Result<(), WriteFault>
    ensures { Writes (K.observed sink.old) (K.observed sink.new) result (last_text DisplayEnd.TooLong) }
{
    leave(sink)?;
    write_all(sink, b"refused: too long\n")
}
