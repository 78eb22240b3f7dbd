//! The rows of a buffer one below the other, in colours.

ghost use Rattle.std.specs.Prelude.{◌≡◌, ◌↔◌, ◌<◌, ◌++◌, IsTrue, List, flat_map, length, ℕ};
ghost use Rattle.tui_io.specs.Causes.{Writes};
ghost use Rattle.tui_io.specs.Prints.{Prints};
ghost use Rattle.tui_terminal.specs.Seeing.{shown_in};
ghost use Rattle.tui_terminal.specs.StyledCells.{StyledCell, has_same_marks, is_sent_same, styled_line};
ghost use Rattle.tui_terminal_model.specs.Pens.{pen_of};
ghost use Rattle.tui_terminal_model.specs.Pieces.{pieces, shown_row, uncovered};
ghost use Rattle.tui_terminal_model.specs.Encoding.{encoding};
ghost use Rattle.tui_terminal_model.specs.Styled.{AreStyledRows, Becomes, StyledRow};
ghost use Rattle.tui_terminal_model.specs.Terminal.{Command, rest};
ghost use Rattle.tui_terminal_model.specs.declared.widths.KnownWidths.TheVariants.{Common};

use crate::adding::marks_stay;
use crate::pens::{at_depth, emit_pen};
use crate::seeing::{Seen, Under, see};
use tui_cells::{Attributes, Buffer, Cell};
use tui_io::{Print, Sink, WriteFault};
use tui_terminal_model::{Depth, KnownWidths};

/// Writes the rows of a buffer one below the other, for a pipe, a log or `less -R`. Each visible cell is
/// written, with the sequences that set the pen where it changes. After each row there is a newline, at which
/// the pen is the default one. The cursor is not moved.
///
/// A symbol that may not be sent is written as spaces, in its columns and colours. Fails with `WriteFault` if
/// a write fails; the sink has then taken a proper prefix of the output. Never allocates.
pub fn write_styled_rows<K: Sink>(
    buf: &Buffer,
    depth: Depth,
    sink: &mut K,
) -> Result<(), WriteFault>
    ensures text { (text : List ℕ) × AreStyledRows depth buf.now text × Writes (K.observed sink.old) (K.observed sink.new) result text }
{
    let mut print = Print::new();
    emit_styled_rows(&mut print, depth, buf, sink);
    print.end(sink)
}

fn emit_styled_rows<K: Sink>(print: &mut Print, depth: Depth, buf: &Buffer, sink: &mut K)
    ensures { (text : List ℕ) × AreStyledRows depth buf.now text × Prints (K.observed sink.old) (K.observed sink.new) print.old print.new text }
{
    'rows: for row in 0..buf.height() {
        emit_styled_row(print, depth, buf.row_at(row), sink);
    }
}

fn emit_styled_row<K: Sink>(print: &mut Print, depth: Depth, row: &[Cell], sink: &mut K)
    requires { length row.now < 65536 }
    ensures { (cs : List Command) × StyledRow depth rest (pieces 0 (shown_row Common uncovered row.now)) cs
        × Prints (K.observed sink.old) (K.observed sink.new) print.old print.new (styled_line cs) }
{
    // What covers the next cells, and the attributes of the pen.
    let mut under = Under::none();
    let mut pen = Attributes::unstyled();
    'columns: for column in 0..row.len() {
        let cell = &row[column];
        let seen = see(KnownWidths::Common, under, row.len() - column, cell);
        pen = emit_seen(print, depth, pen, seen, sink);
        under = seen.under;
    }
    emit_change(print, depth, pen, Attributes::unstyled(), sink);
    print.push(sink, b'\n');
}

// Adds what shows in a column, if anything begins there. Returns the attributes of the pen then.
fn emit_seen<K: Sink>(
    print: &mut Print,
    depth: Depth,
    pen: Attributes,
    seen: Seen<'_>,
    sink: &mut K,
) -> Attributes
    ensures { (cs : List Command)
        × StyledCell depth (pen_of depth pen) (shown_in seen.entry) (pen_of depth result) cs
        × Prints (K.observed sink.old) (K.observed sink.new) print.old print.new (flat_map encoding cs) }
{
    if seen.shows {
        emit_change(print, depth, pen, seen.attributes, sink);
        print.text(sink, seen.symbol);
        seen.attributes
    } else {
        pen
    }
}

// Sets the pen, unless it is that one already.
fn emit_change<K: Sink>(
    print: &mut Print,
    depth: Depth,
    from: Attributes,
    to: Attributes,
    sink: &mut K,
)
    ensures { (cs : List Command) × Becomes (pen_of depth from) (pen_of depth to) cs
        × Prints (K.observed sink.old) (K.observed sink.new) print.old print.new (flat_map encoding cs) }
{
    if is_same_pen(depth, from, to) {
        return;
    }
    emit_pen(print, depth, to, sink);
}

// Whether two attributes are drawn with the same pen.
fn is_same_pen(depth: Depth, one: Attributes, other: Attributes) -> bool
    ensures { IsTrue result ↔ (pen_of depth one ≡ pen_of depth other) }
{
    is_same(one, other) || is_same_at(depth, one, other)
}

fn is_same_at(depth: Depth, one: Attributes, other: Attributes) -> bool
    ensures { IsTrue result ↔ (pen_of depth one ≡ pen_of depth other) }
{
    is_sent_same(at_depth(depth, one), at_depth(depth, other))
}

// Whether attributes set the same pen, if their colours are already converted to the depth. Bits that are no
// marks are ignored.
fn is_sent_same(one: Attributes, other: Attributes) -> bool
    ensures { result ≡ is_sent_same one other }
{
    one.fg == other.fg && one.bg == other.bg && has_same_marks(one, other)
}

fn has_same_marks(one: Attributes, other: Attributes) -> bool
    ensures { result ≡ has_same_marks one other }
{
    let bits = one.modifier.bits();
    let others = other.modifier.bits();
    marks_stay(bits, others) && marks_stay(others, bits)
}

fn is_same(one: Attributes, other: Attributes) -> bool
    ensures { IsTrue result → one ≡ other }
{
    one == other
}
