//! The whole print of a screen.

ghost use Rattle.std.specs.Prelude.{List, ℕ};
ghost use Rattle.tui_io.specs.Causes.{Writes};
ghost use Rattle.tui_io.specs.Prints.{Prints};
ghost use Rattle.tui_print.specs.Print.{IsPrint};

use crate::runs::emit_runs;
use crate::states::emit_states;
use tui_cells::Buffer;
use tui_io::{Print, Sink, WriteFault};
use tui_rows::emit_rows;
use tui_scene::Scene;

/// Writes the print of a buffer and of the scene that was drawn into it:
///
/// - for each row a line `r` with its symbols;
/// - for each maximal run of neighbouring styled cells with equal colours and modifiers a line
///   `s row column cells foreground background modifiers`;
/// - for each widget with a state a line `t item widget offset selected column`.
///
/// On `WriteFault` the sink has taken the first bytes, but not all of them. Does not allocate.
pub fn write_screen<K: Sink>(
    buf: &Buffer,
    scene: &Scene<'_>,
    sink: &mut K,
) -> Result<(), WriteFault>
    ensures { (text : List ℕ) × IsPrint buf.now scene.now text × Writes (K.observed sink.old) (K.observed sink.new) result text }
{
    let mut print = Print::new();
    emit_screen(&mut print, buf, scene, sink);
    print.end(sink)
}

/// Adds a screen to a print: the rows and the runs of a buffer, and the states of the scene that was drawn into it.
#[inline]
pub fn emit_screen<K: Sink>(print: &mut Print, buf: &Buffer, scene: &Scene<'_>, sink: &mut K)
    ensures { (text : List ℕ) × IsPrint buf.now scene.now text
        × Prints (K.observed sink.old) (K.observed sink.new) print.old print.new text }
{
    emit_rows(print, buf, sink);
    emit_runs(print, buf, sink);
    emit_states(print, scene, sink);
}
