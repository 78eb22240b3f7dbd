//! Laws of sessions. Each is a function with an empty body.

ghost use Rattle.tui_app_laws.specs.Overs.{OverEndsThere, OverMatchesEventLoop};
ghost use Rattle.tui_app_laws.specs.Showing.{WaitingShows};
ghost use Rattle.tui_app_laws.specs.Ticks.{TicksAreOne};

use tui_app::App;
use tui_terminal_model::Output;

/// Whenever a session waits for input, any terminal that has read what was written shows the screen that the
/// app draws after the events so far. It does so whatever it showed before, and its cursor is where the app
/// wants it. Leaving then gives the main screen back.
///
/// The bytes written are commands throughout, and no text of a cell begins one. If their numbers fit in 64
/// bits, no other commands have these bytes, except for where one of two adjacent symbols ends.
pub fn waiting_law<A: App>(output: Output)
    ensures { WaitingShows A.behaviour output }
{}

/// The screens that `run_over` draws are those of a session. The event loop reaches a state after some reads
/// exactly if there are screens of these reads that end in it. There is one more screen than there are reads,
/// and the last is the screen that the session waits with.
pub fn over_law<A: App>()
    ensures event_loop { OverMatchesEventLoop A.behaviour }
    ensures ends { OverEndsThere A.behaviour }
{}

/// Suppose that a byte 0 is added to a read, outside of pastes, and the read still isn't full. Then the app gets the
/// events that are not ticks as without it, and then one tick, however many bytes 0 the read has.
pub fn ticks_law()
    ensures { TicksAreOne }
{}
