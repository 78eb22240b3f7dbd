//! The bytes that send a cell.

ghost use Rattle.std.specs.Prelude.{◌≡◌, ◌+◌, ◌<◌, ◌≤◌, [], ◌∷◌, flat_map, if◌then◌else◌, length, slice_index_or, true};
ghost use Rattle.tui_cells.specs.Cell.{blank, space};
ghost use Rattle.tui_io.specs.Prints.{Prints};
ghost use Rattle.tui_terminal.specs.Seeing.{look_in};
ghost use Rattle.tui_terminal.specs.Sent.{at_reached, is_before, is_pen, is_there, placed_at, placed_if};
ghost use Rattle.tui_text.specs.Visible.{step_of};
ghost use Rattle.tui_terminal_model.specs.Pens.{paints_of, pen_of};
ghost use Rattle.tui_terminal_model.specs.Encoding.{encoding};
ghost use Rattle.tui_terminal_model.specs.Symbols.{has_known_width};
ghost use Rattle.tui_terminal_model.specs.Terminal.{across, place};
ghost use Rattle.tui_terminal_laws.specs.Sending.{at_after, moves, next_at, paints, repaints, send, send_one};

use crate::adding::emit_repaint;
use crate::encoding::{emit_across, emit_place};
use crate::pens::emit_pen;
use crate::seeing::Seen;
use crate::target::RowTarget;
use tui_cells::{Attributes, Cell};
use tui_io::{Print, Sink};
use tui_terminal_laws::At;
use tui_terminal_model::Depth;

/// A symbol in a column.
#[derive(Clone, Copy)]
pub(crate) struct Piece<'c> {
    pub column: usize,
    pub symbol: &'c str,
    pub attributes: Attributes,
    /// The width of the symbol.
    pub columns: usize,
    /// Whether that is a known width.
    pub known_width: bool,
}

/// A place in a row, how many columns the symbol of its cell takes, and whether the cell is wanted.
#[derive(Clone, Copy)]
pub(crate) struct Spot {
    pub place: usize,
    pub columns: usize,
    pub wanted: bool,
}

/// Adds the bytes that send what shows at a place in a row, if it is wanted. Returns what is known of the
/// terminal then.
#[inline(always)]
pub(crate) fn emit_if<K: Sink>(
    print: &mut Print,
    target: RowTarget,
    at: At,
    spot: Spot,
    seen: Seen<'_>,
    sink: &mut K,
) -> At
    requires { (target.left + spot.place + spot.columns ≤ 65535) × (target.y < 65536)
        × (spot.columns ≡ step_of seen.symbol.now) × (seen.known_width ≡ has_known_width target.output.widths seen.symbol.now) }
    ensures next { result ≡ at_after target.output.widths at (placed_if spot.wanted (target.left + spot.place) (look_in seen.entry)) }
    ensures emitted { Prints (K.observed sink.old) (K.observed sink.new) print.old print.new (flat_map encoding
        (send target.output target.y at (placed_if spot.wanted (target.left + spot.place) (look_in seen.entry)))) }
{
    if spot.wanted {
        let piece = Piece {
            column: target.left + spot.place,
            symbol: seen.symbol,
            attributes: seen.attributes,
            columns: spot.columns,
            known_width: seen.known_width,
        };
        emit_piece(print, target, at, piece, sink)
    } else {
        at
    }
}

/// How far a row was sent: the place after the last cell that was sent, or 0 if none was, and the
/// place of the cursor.
#[derive(Clone, Copy)]
pub(crate) struct Reached {
    pub last: usize,
    pub after: usize,
}

impl Reached {
    /// No cell has been sent.
    pub(crate) fn none() -> Reached
        ensures { result ≡ record { last = 0; after = 0 } }
    {
        Reached { last: 0, after: 0 }
    }
}

// Returns what is known of the terminal after the cells so far. It is computed from the row each time: if it
// were carried from cell to cell, it would be kept in memory.
#[inline(always)]
fn at_reached(left: usize, row: &[Cell], reached: Reached) -> At
    requires { (reached.last ≤ length row.now) × (left + reached.after ≤ 65535) }
    ensures { result ≡ at_reached left row.now reached.last reached.after }
{
    if reached.last == 0 {
        return At::nothing_known();
    }
    At {
        column: left + reached.after,
        placed: true,
        pen: row[reached.last - 1].attributes(),
        painted: true,
    }
}

/// Adds the bytes that send the cell at a place in a row, if it is wanted. Its symbol must have a known width
/// and take `spot.columns` columns. Returns how far the row was sent then.
#[inline(always)]
pub(crate) fn emit_cell_if<K: Sink>(
    print: &mut Print,
    target: RowTarget,
    row: &[Cell],
    reached: Reached,
    spot: Spot,
    sink: &mut K,
) -> Reached
    requires within { (target.left + length row.now ≤ 65535) × (target.y < 65536) × (spot.place + spot.columns ≤ length row.now)
        × (reached.last ≤ spot.place) × (reached.after ≤ length row.now) }
    requires cell { (spot.columns ≡ step_of (slice_index_or row.now spot.place blank).symbol)
        × (has_known_width target.output.widths (slice_index_or row.now spot.place blank).symbol ≡ true) }
    ensures is { result ≡ (if spot.wanted then record { last = spot.place + 1; after = spot.place + spot.columns } else reached) }
    ensures next { at_reached target.left row.now result.last result.after
        ≡ at_after target.output.widths (at_reached target.left row.now reached.last reached.after)
        (placed_if spot.wanted (target.left + spot.place) (slice_index_or row.now spot.place blank)) }
    ensures emitted { Prints (K.observed sink.old) (K.observed sink.new) print.old print.new (flat_map encoding
        (send target.output target.y (at_reached target.left row.now reached.last reached.after)
        (placed_if spot.wanted (target.left + spot.place) (slice_index_or row.now spot.place blank)))) }
{
    if !spot.wanted {
        return reached;
    }
    let cell = &row[spot.place];
    let at = at_reached(target.left, row, reached);
    let piece = Piece {
        column: target.left + spot.place,
        symbol: cell.symbol(),
        attributes: cell.attributes(),
        columns: spot.columns,
        known_width: true,
    };
    emit_piece(print, target, at, piece, sink);
    Reached {
        last: spot.place + 1,
        after: spot.place + spot.columns,
    }
}

/// Adds the bytes that send a symbol in a column. Returns what is known of the terminal then.
#[inline(always)]
pub(crate) fn emit_piece<K: Sink>(
    print: &mut Print,
    target: RowTarget,
    at: At,
    piece: Piece<'_>,
    sink: &mut K,
) -> At
    requires { (piece.column + piece.columns ≤ 65535) × (target.y < 65536)
        × (piece.columns ≡ step_of piece.symbol.now) × (piece.known_width ≡ has_known_width target.output.widths piece.symbol.now) }
    ensures next { result ≡ next_at target.output.widths (placed_at piece.entry.column piece.entry.symbol.now piece.entry.attributes) }
    ensures emitted { Prints (K.observed sink.old) (K.observed sink.new) print.old print.new (flat_map encoding
        (send_one target.output.depth target.y at (placed_at piece.entry.column piece.entry.symbol.now piece.entry.attributes))) }
{
    emit_moves(print, target.y, at, piece.column, sink);
    emit_paints(print, target.output.depth, at, piece.attributes, sink);
    emit_symbol(print, piece.symbol, sink);
    At {
        column: piece.column + piece.columns,
        placed: piece.known_width,
        pen: piece.attributes,
        painted: true,
    }
}

// A single byte is added without a copy.
#[inline(always)]
fn emit_symbol<K: Sink>(print: &mut Print, symbol: &str, sink: &mut K)
    ensures { Prints (K.observed sink.old) (K.observed sink.new) print.old print.new symbol.now }
{
    match symbol.as_bytes() {
        [byte] => print.push(sink, *byte),
        _ => print.text(sink, symbol),
    }
}

// Moves the cursor, unless it is known to be there. The parts of `at` are passed on one by one, so that it
// need not be in memory.
#[inline(always)]
fn emit_moves<K: Sink>(print: &mut Print, y: usize, at: At, column: usize, sink: &mut K)
    requires { (column < 65536) × (y < 65536) }
    ensures { Prints (K.observed sink.old) (K.observed sink.new) print.old print.new
        (flat_map encoding (moves y at (placed_at column space at.pen))) }
{
    if !is_there(at, column) {
        let before = is_before(at, column);
        emit_moves_on(print, y, before, column, sink);
    }
}

// Moves the cursor from elsewhere: within the row, if it is known to be further left.
// Most cells follow the one before, so this is `cold`: then the loops keep more of their state in registers.
#[cold]
#[inline(never)]
fn emit_moves_on<K: Sink>(print: &mut Print, y: usize, before: bool, column: usize, sink: &mut K)
    requires { (column < 65536) × (y < 65536) }
    ensures { Prints (K.observed sink.old) (K.observed sink.new) print.old print.new
        (flat_map encoding (if before then across column ∷ [] else place column y ∷ [])) }
{
    if before {
        emit_across(print, column, sink);
    } else {
        emit_place(print, column, y, sink);
    }
}

#[inline]
fn is_before(at: At, column: usize) -> bool
    ensures { result ≡ is_before at column }
{
    at.placed && at.column < column
}

#[inline]
fn is_there(at: At, column: usize) -> bool
    ensures { result ≡ is_there at column }
{
    at.placed && at.column == column
}

// Sets the pen, unless it is known to be this one. The parts of `at` are passed on one by one here too. Most cells
// have the pen of the one before, so the functions that set a pen are `cold`.
#[inline(always)]
fn emit_paints<K: Sink>(
    print: &mut Print,
    depth: Depth,
    at: At,
    attributes: Attributes,
    sink: &mut K,
)
    ensures { Prints (K.observed sink.old) (K.observed sink.new) print.old print.new
        (flat_map encoding (paints depth at (placed_at 0 space attributes))) }
{
    if !is_pen(at, attributes) {
        if at.painted {
            emit_repaint(print, depth, at.pen, attributes, sink);
        } else {
            emit_pen(print, depth, attributes, sink);
        }
    }
}

#[inline]
fn is_pen(at: At, attributes: Attributes) -> bool
    ensures { result ≡ is_pen at attributes }
{
    at.painted && at.pen == attributes
}
