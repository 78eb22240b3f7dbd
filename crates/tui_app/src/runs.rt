//! The event loop.

ghost use Rattle.std.specs.Prelude.{◌≡◌, IfOk};
ghost use Rattle.tui_app.specs.Parts.{Closed, IsBegun, Opened};
ghost use Rattle.tui_app.specs.Run.{IsAppRun};
ghost use Rattle.tui_cells.specs.Rect.{area_of};

use crate::app::App;
use crate::buffers::LoopBuffers;
use crate::iteration::iteration;
use crate::outcome::{AppEnd, MAX_READS};
use crate::setup::LoopSetup;
use crate::shown::{blank, draw, send};
use crate::terminal::Terminal;
use std::alloc::Global;
use tui_cells::{Mem, Size};
use tui_io::{Sink, WriteFault};
use tui_keys::KeyDecoder;
use tui_terminal::{enter, leave};
use tui_terminal_model::Output;

/// Runs an app on a terminal of this size. Enters the alternate screen and shows what
/// the app draws. Then for each read hands it the events, and shows what it draws then. At the end leaves the
/// alternate screen.
///
/// The app gets one tick for all the ticks of a read, after the other events of the read. So an app that was stopped or
/// slow does not have to make up for every second.
///
/// A size that the terminal reports is the size of the screen from then on. The cursor is where the app wants it. After `MAX_READS` (2^32) reads the session ends with `ManyReads`.
///
/// At the end the alternate screen is left, with two exceptions: after a `WriteFault` nothing more is
/// written, and nothing is written at all if memory runs out before the first screen. The app is as its last
/// step or draw left it; after `NoMemory` its state is unspecified.
pub fn run<A: App, T: Terminal>(
    alloc: Global,
    app: &mut A,
    output: Output,
    size: Size,
    terminal: &mut T,
) -> AppEnd
    ensures { IsAppRun A.behaviour output app.old (area_of 0 0 size.width size.height) (T.observed terminal.old) (T.observed terminal.new) app.new result }
{
    let Ok(mut buffers) = begin(alloc, app, size) else {
        return AppEnd::NoMemory;
    };
    let Ok(()) = show_first(output, &buffers, terminal) else {
        return AppEnd::WriteFault;
    };
    let setup = LoopSetup { alloc, output };
    let mut keys = KeyDecoder::new();
    'iterations: for _i in 0..MAX_READS {
        if let Some(end) = iteration(setup, app, &mut keys, &mut buffers, terminal) {
            return close(end, terminal);
        }
    }
    close(AppEnd::ManyReads, terminal)
}

pub(crate) fn begin<A: App>(alloc: Global, app: &mut A, size: Size) -> Mem<LoopBuffers>
    ensures { IfOk result (IsBegun A.behaviour app.old (area_of 0 0 size.width size.height) app.new) }
{
    let mut shown = blank(alloc, size)?;
    let spare = blank(alloc, size)?;
    let place = draw(alloc, app, &mut shown)?;
    Ok(LoopBuffers {
        shown,
        place,
        spare,
    })
}

fn show_first<K: Sink>(
    output: Output,
    buffers: &LoopBuffers,
    sink: &mut K,
) -> Result<(), WriteFault>
    requires { buffers.now.shown.area ≡ buffers.now.spare.area }
    ensures { Opened output buffers.now (K.observed sink.old) (K.observed sink.new) result }
{
    enter(sink)?;
    send(output, buffers, true, sink)
}

fn close<K: Sink>(end: AppEnd, sink: &mut K) -> AppEnd
    ensures { Closed end (K.observed sink.old) (K.observed sink.new) result }
{
    match end {
        AppEnd::WriteFault => AppEnd::WriteFault,
        end => match leave(sink) {
            Ok(()) => end,
            Err(_) => AppEnd::WriteFault,
        },
    }
}
