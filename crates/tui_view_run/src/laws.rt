//! Laws of frames. Each is a function that does nothing.

ghost use Rattle.tui_view_run.specs.Frames.{MessagesReplace};

/// A message that is shown after another one replaces it on the screen before both.
pub fn message_law()
    ensures { MessagesReplace }
{}
