//! The bytes of commands, except for those that set a pen.

ghost use Rattle.std.specs.Prelude.{◌+◌, ◌<◌, [], ◌∷◌, ◌++◌, false, true};
ghost use Rattle.tui_io.specs.Prints.{Prints};
ghost use Rattle.tui_terminal_model.specs.Encoding.{encoding, reset_modes_text};
ghost use Rattle.tui_terminal_model.specs.Terminal.{across, synchronizing, place, reset_modes, set_mode, visible};

use tui_io::{Print, Sink};

/// Adds the bytes with which a full screen begins.
#[tactic(auto, unfolding(tui_terminal_model::specs::Encoding::encoding, tui_terminal_model::specs::Encoding::reset_modes_text))]
pub(crate) fn emit_reset_modes<K: Sink>(print: &mut Print, sink: &mut K)
    ensures { Prints (K.observed sink.old) (K.observed sink.new) print.old print.new (encoding reset_modes) }
{
    print.text(
        sink,
        "\x18\x1b\\\x1b[?2026l\x1b[?69l\x1b[?6l\x1b[4l\x1b[r\x1b(B\x0f\x1b[?7l",
    );
}

/// Adds the bytes that move the cursor to a column and a row.
pub(crate) fn emit_place<K: Sink>(print: &mut Print, column: usize, row: usize, sink: &mut K)
    requires { (column < 65536) × (row < 65536) }
    ensures { Prints (K.observed sink.old) (K.observed sink.new) print.old print.new (encoding (place column row)) }
{
    print.text(sink, "\x1b[");
    print.number(sink, row + 1);
    print.text(sink, ";");
    print.number(sink, column + 1);
    print.text(sink, "H");
}

/// Adds the bytes that move the cursor to a column of its row.
pub(crate) fn emit_across<K: Sink>(print: &mut Print, column: usize, sink: &mut K)
    requires { column < 65536 }
    ensures { Prints (K.observed sink.old) (K.observed sink.new) print.old print.new (encoding (across column)) }
{
    print.text(sink, "\x1b[");
    print.number(sink, column + 1);
    print.text(sink, "G");
}

/// Adds the bytes that show or hide the cursor.
#[tactic(auto, unfolding(tui_terminal_model::specs::Encoding::encoding))]
pub(crate) fn emit_visible<K: Sink>(print: &mut Print, on: bool, sink: &mut K)
    ensures { Prints (K.observed sink.old) (K.observed sink.new) print.old print.new (encoding (set_mode visible on)) }
{
    if on {
        print.text(sink, "\x1b[?25h");
    } else {
        print.text(sink, "\x1b[?25l");
    }
}

/// Adds the bytes that begin or end synchronized output.
#[tactic(auto, unfolding(tui_terminal_model::specs::Encoding::encoding))]
pub(crate) fn emit_synchronizing<K: Sink>(print: &mut Print, on: bool, sink: &mut K)
    ensures { Prints (K.observed sink.old) (K.observed sink.new) print.old print.new (encoding (set_mode synchronizing on)) }
{
    if on {
        print.text(sink, "\x1b[?2026h");
    } else {
        print.text(sink, "\x1b[?2026l");
    }
}
