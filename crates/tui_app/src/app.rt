//! The `App` trait.

ghost use Rattle.std.specs.Prelude.{◌≡◌, IfOk, OnOk};
ghost use Rattle.tui_app.specs.Behaviour.{Behaviour};
ghost use Rattle.tui_cells.specs.Buffer.{IsFilled};
ghost use Rattle.tui_cells.specs.Cell.{blank};

use std::alloc::Global;
use tui_cells::{Buffer, Mem, Position};
use tui_keys::Event;

/// How an app goes on after an event.
#[derive(Clone, Copy, Debug, PartialEq, Eq)]
pub enum Flow {
    /// Go on, and send what has changed on the screen.
    Go,
    /// Go on, and send the whole screen.
    Redraw,
    /// End the session.
    Quit,
}

/// An interactive program: it handles events and draws itself.
pub trait App: Sized {
    // What an event does to the app, and what the app draws.
    ghost behaviour: { Behaviour Self };

    /// Handles an event. `NoMemory` ends the session; the state of the app is unspecified then.
    fn step(&mut self, alloc: Global, event: Event) -> Mem<Flow>
        ensures { IfOk result (λ flow. behaviour.steps self.old event self.new flow) };

    /// Draws into a blank buffer, whose area must not change. Returns the position at which the cursor is
    /// shown; with `None`, or outside the area, the cursor is hidden.
    ///
    /// `NoMemory` is as for `step`.
    fn draw(&mut self, alloc: Global, buf: &mut Buffer) -> Mem<Option<Position>>
        requires { IsFilled buf.old.area blank buf.old }
        ensures draws { IfOk result (λ place. behaviour.draws self.old buf.new place self.new) }
        ensures area { OnOk result (buf.new.area ≡ buf.old.area) };
}
