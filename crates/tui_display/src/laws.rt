//! Laws of displays. Each is a function with an empty body.

ghost use Rattle.tui_display.specs.Showing.{LinesShow};

use crate::painter::Painter;
use tui_terminal_model::Output;

/// After each line, any terminal that has read what was written shows the screen that this line calls for
/// after the one before. It does so whatever it showed earlier, and its cursor is hidden. Leaving then gives
/// the main screen back.
///
/// The bytes written are commands throughout, and no text of a cell begins one.
pub fn showing_law<P: Painter>(painter: &P, output: Output)
    ensures { LinesShow (P.calls_for painter.now) output }
{}
