//! Writes a header and the rows of a buffer.

ghost use Rattle.std.specs.Prelude.{◌++◌, flat_map};
ghost use Rattle.tui_io.specs.Causes.{Writes};
ghost use Rattle.tui_rows.specs.RowLine.{row_line};

use crate::rows::emit_rows;
use tui_cells::Buffer;
use tui_io::{Print, Sink, WriteFault};

/// Writes some text, and then the rows of a buffer: for each row a line with `r` and the symbols. Fails with
/// `WriteFault` if a write fails; the sink has then taken a proper prefix of the output. Never allocates.
pub fn write_rows<K: Sink>(before: &str, buf: &Buffer, sink: &mut K) -> Result<(), WriteFault>
    ensures { Writes (K.observed sink.old) (K.observed sink.new) result
        (before.now ++ flat_map row_line buf.now.rows) }
{
    let mut print = Print::new();
    print.text(sink, before);
    emit_rows(&mut print, buf, sink);
    print.end(sink)
}
