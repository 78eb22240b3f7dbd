//! Writing whole screens and their changes.

ghost use Rattle.std.specs.Prelude.{◌≡◌, ◌+◌, ◌<◌, ◌≤◌, ◌&&◌, length, nat_lt, slice_index_or, ℕ, List, [], ◌∷◌, false, flat_map, map, true, if◌then◌else◌};
ghost use Rattle.tui_cells.specs.Buffer.{IsScreen};
ghost use Rattle.tui_io.specs.Causes.{Writes};
ghost use Rattle.tui_io.specs.Prints.{Prints};
ghost use Rattle.tui_terminal_model.specs.Calls.{IsChange, IsFull, grave, mend, mending};
ghost use Rattle.tui_terminal_model.specs.Sends.{closing, cursor_commands};
ghost use Rattle.tui_terminal_model.specs.Shows.{IsCursorInside};
ghost use Rattle.tui_terminal_model.specs.Encoding.{encoding};
ghost use Rattle.tui_terminal_model.specs.Symbols.{has_known_width};
ghost use Rattle.tui_terminal_model.specs.Terminal.{synchronizing, place, set_mode, visible};
ghost use Rattle.tui_terminal_laws.specs.Sending.{full, nothing_known, row_in_full, row_changes, rows_sent, send, send_rows};

use crate::encoding::{emit_place, emit_reset_modes, emit_synchronizing, emit_visible};
use crate::rows::{emit_all, emit_changes};
use crate::symbols::has_known_width;
use crate::target::RowTarget;
use tui_cells::{Buffer, Position, Rect};
use tui_io::{Print, Sink, WriteFault};
use tui_terminal_model::{Cursor, KnownWidths, Output};

/// The symbol `grave` of the definition `mending`.
const GRAVE: &str = "À";

/// Writes the buffer in full. Any terminal that has the buffer's area and fits `output` then shows the
/// buffer, with the cursor as required, whatever it showed before. Every cell whose symbol has a known width is right. So is every cell of
/// a row whose symbols the terminal all knows.
///
/// A symbol that may not be sent, such as one with a control character, shows as blanks in its columns. The
/// cursor's position must lie in the area.
///
/// Fails with `WriteFault` if a write fails. The sink has then taken a proper prefix of the output, and a
/// full screen repairs the terminal. Never allocates.
pub fn write_full<K: Sink>(
    buf: &Buffer,
    output: Output,
    cursor: Cursor,
    sink: &mut K,
) -> Result<(), WriteFault>
    requires { IsCursorInside cursor buf.now }
    ensures text { (text : List ℕ) × IsFull output cursor buf.now text × Writes (K.observed sink.old) (K.observed sink.new) result text }
{
    let mut print = Print::new();
    emit_full(&mut print, buf, output, cursor, sink);
    print.end(sink)
}

/// Writes what changes a terminal that shows the old buffer into one that shows the new buffer, which has the
/// same area. Only changed cells are sent. A row in which a symbol of uncertain width appears or disappears
/// is sent in full.
///
/// If nothing has changed, nothing is sent for the cells; the cursor and synchronized output are sent all
/// the same. Fails with `WriteFault` as `write_full` does. Never allocates.
pub fn write_changes<K: Sink>(
    old: &Buffer,
    new: &Buffer,
    output: Output,
    cursor: Cursor,
    sink: &mut K,
) -> Result<(), WriteFault>
    requires area { old.now.area ≡ new.now.area }
    requires cursor { IsCursorInside cursor new.now }
    ensures text { (text : List ℕ) × IsChange output cursor old.now new.now text × Writes (K.observed sink.old) (K.observed sink.new) result text }
{
    let mut print = Print::new();
    emit_synchronizing_if(&mut print, output.synchronized, true, sink);
    emit_new_rows(&mut print, output, old, new, sink);
    emit_closing(&mut print, output, cursor, sink);
    print.end(sink)
}

fn emit_full<K: Sink>(print: &mut Print, buf: &Buffer, output: Output, cursor: Cursor, sink: &mut K)
    ensures emitted { Prints (K.observed sink.old) (K.observed sink.new) print.old print.new (flat_map encoding (full output cursor buf.now)) }
    ensures shape { IsScreen buf.now }
{
    emit_reset_modes(print, sink);
    emit_mending(print, output.widths, buf.area(), sink);
    emit_synchronizing_if(print, output.synchronized, true, sink);
    emit_rows(print, output, buf, sink);
    emit_closing(print, output, cursor, sink);
}

// Some terminals keep the first bytes of a character that was cut short until a non-ASCII text comes.
fn emit_mending<K: Sink>(print: &mut Print, widths: KnownWidths, area: Rect, sink: &mut K)
    ensures { Prints (K.observed sink.old) (K.observed sink.new) print.old print.new (flat_map encoding (mending widths area)) }
{
    if is_mended(widths, area) {
        emit_mend(print, area, sink);
    }
}

fn is_mended(widths: KnownWidths, area: Rect) -> bool
    ensures { result ≡ (has_known_width widths grave && (nat_lt 0 area.width && nat_lt 0 area.height)) }
{
    has_known_width(widths, GRAVE) && is_some(area)
}

fn is_some(area: Rect) -> bool
    ensures { result ≡ (nat_lt 0 area.width && nat_lt 0 area.height) }
{
    0 < area.width && 0 < area.height
}

fn emit_mend<K: Sink>(print: &mut Print, area: Rect, sink: &mut K)
    ensures { Prints (K.observed sink.old) (K.observed sink.new) print.old print.new (flat_map encoding (mend area)) }
{
    emit_place(print, area.x as usize, area.y as usize, sink);
    print.text(sink, "\x1b[0m");
    print.text(sink, GRAVE);
}

fn emit_rows<K: Sink>(print: &mut Print, output: Output, buf: &Buffer, sink: &mut K)
    ensures emitted { Prints (K.observed sink.old) (K.observed sink.new) print.old print.new
        (flat_map encoding (send_rows output buf.now.area.y (map (row_in_full output.widths buf.now.area.x) buf.now.rows))) }
    ensures shape { IsScreen buf.now }
{
    let area = buf.area();
    'rows: for row in 0..buf.height() {
        let cells = buf.row_at(row);
        let target = RowTarget {
            output,
            y: area.y as usize + row,
            left: area.x as usize,
        };
        emit_all(print, target, cells, sink);
    }
}

fn emit_new_rows<K: Sink>(
    print: &mut Print,
    output: Output,
    old: &Buffer,
    new: &Buffer,
    sink: &mut K,
)
    requires { old.now.area ≡ new.now.area }
    ensures emitted { Prints (K.observed sink.old) (K.observed sink.new) print.old print.new
        (flat_map encoding (send_rows output new.now.area.y (rows_sent output.widths new.now.area.x old.now.rows new.now.rows))) }
    ensures shape { IsScreen old.now × IsScreen new.now }
{
    let area = new.area();
    let height_old = old.height();
    let height = new.height();
    'rows: for row in 0..height.min(height_old) {
        let target = RowTarget {
            output,
            y: area.y as usize + row,
            left: area.x as usize,
        };
        emit_new_row(print, target, RowChange { old, new, row }, sink);
    }
}

/// A row of two buffers.
#[derive(Clone, Copy)]
struct RowChange<'b> {
    old: &'b Buffer,
    new: &'b Buffer,
    row: usize,
}

// Most rows of most frames are unchanged.
fn emit_new_row<K: Sink>(print: &mut Print, target: RowTarget, change: RowChange<'_>, sink: &mut K)
    requires { (change.row < length change.old.now.rows) × (change.row < length change.new.now.rows)
        × (length (slice_index_or change.old.now.rows change.row []) ≡ length (slice_index_or change.new.now.rows change.row []))
        × (target.left + length (slice_index_or change.new.now.rows change.row []) ≤ 65535) × (target.y < 65536) }
    ensures { Prints (K.observed sink.old) (K.observed sink.new) print.old print.new
        (flat_map encoding (send target.output target.y nothing_known (row_changes target.output.widths target.left
        (slice_index_or change.entry.old.now.rows change.entry.row []) (slice_index_or change.entry.new.now.rows change.entry.row [])))) }
{
    let RowChange { old, new, row } = change;
    if !old.is_row_same(new, row) {
        emit_changes(print, target, old.row_at(row), new.row_at(row), sink);
    }
}

// Begins or ends synchronized output, if it is used.
fn emit_synchronizing_if<K: Sink>(print: &mut Print, synchronized: bool, on: bool, sink: &mut K)
    ensures { Prints (K.observed sink.old) (K.observed sink.new) print.old print.new
        (flat_map encoding (if synchronized then set_mode synchronizing on ∷ [] else [])) }
{
    if synchronized {
        emit_synchronizing(print, on, sink);
    }
}

fn emit_closing<K: Sink>(print: &mut Print, output: Output, cursor: Cursor, sink: &mut K)
    ensures { Prints (K.observed sink.old) (K.observed sink.new) print.old print.new (flat_map encoding (closing output cursor)) }
{
    emit_cursor(print, cursor, sink);
    emit_synchronizing_if(print, output.synchronized, false, sink);
}

fn emit_cursor<K: Sink>(print: &mut Print, cursor: Cursor, sink: &mut K)
    ensures { Prints (K.observed sink.old) (K.observed sink.new) print.old print.new (flat_map encoding (cursor_commands cursor)) }
{
    match cursor {
        Cursor::Keep => {}
        Cursor::Hidden => emit_hidden(print, sink),
        Cursor::At(p) => emit_cursor_at(print, p, sink),
    }
}

fn emit_hidden<K: Sink>(print: &mut Print, sink: &mut K)
    ensures { Prints (K.observed sink.old) (K.observed sink.new) print.old print.new (flat_map encoding (set_mode visible false ∷ [])) }
{
    emit_visible(print, false, sink);
}

fn emit_cursor_at<K: Sink>(print: &mut Print, p: Position, sink: &mut K)
    ensures { Prints (K.observed sink.old) (K.observed sink.new) print.old print.new
        (flat_map encoding (place p.x p.y ∷ set_mode visible true ∷ [])) }
{
    emit_place(print, p.x as usize, p.y as usize, sink);
    emit_visible(print, true, sink);
}
