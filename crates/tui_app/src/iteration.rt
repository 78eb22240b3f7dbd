//! One iteration of the event loop.

ghost use Rattle.std.specs.Prelude.{◌≡◌, IfNone};
ghost use Rattle.tui_app.specs.Parts.{Follows, Iterated, state_of};

use crate::app::{App, Flow};
use crate::buffers::LoopBuffers;
use crate::feed::{Reaction, feed};
use crate::outcome::AppEnd;
use crate::setup::LoopSetup;
use crate::shown::show;
use crate::terminal::{READ_CAPACITY, Terminal};
use tui_io::Sink;
use tui_keys::KeyDecoder;

/// Waits for input, hands it to the app, and shows what it draws. Returns `None` if the session goes on.
pub(crate) fn iteration<A: App, T: Terminal>(
    setup: LoopSetup,
    app: &mut A,
    keys: &mut KeyDecoder,
    buffers: &mut LoopBuffers,
    terminal: &mut T,
) -> Option<AppEnd>
    requires { buffers.old.shown.area ≡ buffers.old.spare.area }
    ensures after_iteration { Iterated A.behaviour setup.output (state_of app.old keys.old buffers.old) (state_of app.new keys.new buffers.new)
        (T.observed terminal.old) (T.observed terminal.new) result }
    ensures areas { IfNone result (buffers.new.shown.area ≡ buffers.new.spare.area) }
{
    let mut chunk = [0u8; READ_CAPACITY];
    let Ok(count) = terminal.wait(&mut chunk) else {
        return Some(AppEnd::ReadFault);
    };
    if count == 0 {
        return Some(AppEnd::Ended);
    }
    let Ok(reading) = feed(setup.alloc, app, *keys, &chunk[..count]) else {
        return Some(AppEnd::NoMemory);
    };
    *keys = reading.keys;
    follow(setup, app, buffers, reading.reaction, terminal)
}

// Ends the session if the app has quit, and shows its next screen otherwise.
fn follow<A: App, K: Sink>(
    setup: LoopSetup,
    app: &mut A,
    buffers: &mut LoopBuffers,
    reaction: Reaction,
    sink: &mut K,
) -> Option<AppEnd>
    requires { buffers.old.shown.area ≡ buffers.old.spare.area }
    ensures follows { Follows A.behaviour setup.output reaction app.old buffers.old app.new buffers.new (K.observed sink.old) (K.observed sink.new) result }
    ensures areas { IfNone result (buffers.new.shown.area ≡ buffers.new.spare.area) }
{
    match reaction.flow {
        Flow::Quit => Some(AppEnd::Quit),
        _ => match show(setup, app, buffers, reaction, sink) {
            Err(_) => Some(AppEnd::NoMemory),
            Ok(Err(_)) => Some(AppEnd::WriteFault),
            Ok(Ok(())) => None,
        },
    }
}
