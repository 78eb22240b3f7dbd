//! The alternate screen, from entering to leaving it, and the end of a display on the main screen.

ghost use Rattle.tui_io.specs.Causes.{Writes};
ghost use Rattle.tui_terminal_model.specs.Session.{enter_text, leave_text, settle_text};

use tui_io::{Sink, WriteFault, write_all};

/// Writes the bytes that show the alternate screen, if the terminal has one, and keep the main screen. They
/// also reset its modes and turn on bracketed paste. Nothing is known of the alternate screen, so write a
/// full screen next.
///
/// Fails with `WriteFault` if a write fails; the sink has then taken a proper prefix of the bytes.
/// Never allocates.
#[tactic(auto, unfolding(tui_terminal_model::specs::Session::enter_text, tui_terminal_model::specs::Encoding::encoding, tui_terminal_model::specs::Encoding::reset_modes_text))]
pub fn enter<K: Sink>(sink: &mut K) -> Result<(), WriteFault>
    ensures { Writes (K.observed sink.old) (K.observed sink.new) result enter_text }
{
    write_all(
        sink,
        b"\x1b[?1049h\x18\x1b\\\x1b[?2026l\x1b[?69l\x1b[?6l\x1b[4l\x1b[r\x1b(B\x0f\x1b[?7l\x1b[?2004h",
    )
}

/// Writes the bytes that show the main screen again, with the cells and the cursor that it had before
/// `enter`. Synchronized output and bracketed paste are off, the pen is the default one, autowrap is on, and
/// the cursor is visible.
///
/// Fails with `WriteFault` as `enter` does. Never allocates.
#[tactic(auto, unfolding(tui_terminal_model::specs::Session::leave_text, tui_terminal_model::specs::Encoding::encoding))]
pub fn leave<K: Sink>(sink: &mut K) -> Result<(), WriteFault>
    ensures { Writes (K.observed sink.old) (K.observed sink.new) result leave_text }
{
    write_all(
        sink,
        b"\x1b[?2026l\x1b[?2004l\x1b[?1049l\x1b[0m\x1b[?7h\x1b[?25h",
    )
}

/// Writes the bytes that end a display on the main screen, such as a progress bar, after frames without
/// `enter`. Synchronized output is off, the pen is the default one, autowrap is on, and the cursor is visible
/// where the last frame left it. What the frames have drawn stays.
///
/// Fails with `WriteFault` as `enter` does. Never allocates.
#[tactic(auto, unfolding(tui_terminal_model::specs::Session::settle_text, tui_terminal_model::specs::Encoding::encoding))]
pub fn settle<K: Sink>(sink: &mut K) -> Result<(), WriteFault>
    ensures { Writes (K.observed sink.old) (K.observed sink.new) result settle_text }
{
    write_all(sink, b"\x1b[?2026l\x1b[0m\x1b[?7h\x1b[?25h")
}
