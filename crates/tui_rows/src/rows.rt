//! The symbols of a row, and the lines of rows.

ghost use Rattle.std.specs.Prelude.{◌≡◌, ◌+◌, ◌++◌, ◌*◌, ◌<◌, ◌≤◌, ℕ, List, flat_map, length, take};
ghost use Rattle.tui_io.specs.Prints.{Prints};
ghost use Rattle.tui_rows.specs.RowLine.{row_line, symbols_from};
ghost use Rattle.tui_text.specs.Visible.{step_of, symbols_in};

use crate::letters::is_letter;
use crate::width_cache::{WidthCache, is_text};
use tui_cells::{Buffer, Cell};
use tui_io::{Print, Sink};
use tui_text::printable_byte;

/// Adds the rows of a buffer to a `Print`: for each row a line with `r` and the symbols.
pub fn emit_rows<K: Sink>(print: &mut Print, buf: &Buffer, sink: &mut K)
    ensures { Prints (K.observed sink.old) (K.observed sink.new) print.old print.new (flat_map row_line buf.now.rows) }
{
    'rows: for number in 0..buf.height() {
        emit_row(print, buf.row_at(number), sink);
    }
}

fn emit_row<K: Sink>(print: &mut Print, row: &[Cell], sink: &mut K)
    ensures { Prints (K.observed sink.old) (K.observed sink.new) print.old print.new (row_line row.now) }
{
    print.extend(sink, b"r ");
    emit_symbols(print, row, sink);
    print.push(sink, b'\n');
}

/// How many bytes are copied at a time.
const PIECE: usize = 192;

/// Adds the symbols of the visible cells of a row. Runs of printable bytes are first copied into one piece.
#[inline]
pub fn emit_symbols<K: Sink>(print: &mut Print, row: &[Cell], sink: &mut K)
    ensures { Prints (K.observed sink.old) (K.observed sink.new) print.old print.new (symbols_in row.now) }
{
    let mut piece = [0u8; PIECE];
    let mut width_cache = WidthCache::new();
    let mut column = 0;
    while column < row.len() {
        column = emit_next(print, row, column, &mut piece, &mut width_cache, sink);
    }
}

// Adds the run of printable bytes at a column if there is one, else the symbol there and its repetitions if
// it has three bytes. Returns the next visible column.
#[inline]
fn emit_next<'r, K: Sink>(
    print: &mut Print,
    row: &'r [Cell],
    column: usize,
    piece: &mut [u8; PIECE],
    width_cache: &mut WidthCache<'r>,
    sink: &mut K,
) -> usize
    requires { column < length row.now }
    ensures within { (column < result) × (result ≤ length row.now) }
    ensures emitted { (text : List ℕ) × (symbols_from row.now column ≡ text ++ symbols_from row.now result)
        × Prints (K.observed sink.old) (K.observed sink.new) print.old print.new text }
{
    let symbol = row[column].symbol();
    if symbol.len() == 1 {
        let plain = copy_plain(row, column, piece);
        if plain > 0 {
            emit_plain(print, &piece[..plain], sink);
            return column + plain;
        }
    }
    if is_letter(symbol) {
        emit_symbol(print, symbol, sink);
        return column + 1;
    }
    let step = width_cache.step(symbol);
    let next = column + step.min(row.len() - column);
    match symbol.as_bytes().as_array::<3>() {
        Some(three) => emit_three(print, row, next, *three, step, piece, sink),
        None => {
            emit_symbol(print, symbol, sink);
            next
        }
    }
}

// A single byte is added without a call.
#[inline]
fn emit_plain<K: Sink>(print: &mut Print, bytes: &[u8], sink: &mut K)
    ensures { Prints (K.observed sink.old) (K.observed sink.new) print.old print.new bytes.now }
{
    match bytes {
        [byte] => print.push(sink, *byte),
        _ => print.extend(sink, bytes),
    }
}

// Letters of many scripts have two bytes, and a copy of known length needs no call.
#[inline]
fn emit_symbol<K: Sink>(print: &mut Print, symbol: &str, sink: &mut K)
    ensures { Prints (K.observed sink.old) (K.observed sink.new) print.old print.new symbol.now }
{
    let bytes = symbol.as_bytes();
    match bytes.as_array::<2>() {
        Some(two) => print.extend(sink, two),
        None => print.extend(sink, bytes),
    }
}

// Adds a symbol of three bytes. If it takes one column, also adds its repetitions in the next cells. Returns
// the column after them.
#[inline]
fn emit_three<K: Sink>(
    print: &mut Print,
    row: &[Cell],
    next: usize,
    symbol: [u8; 3],
    step: usize,
    piece: &mut [u8; PIECE],
    sink: &mut K,
) -> usize
    requires within { next ≤ length row.now }
    requires step { step ≡ step_of symbol }
    ensures within { (next ≤ result) × (result ≤ length row.now) }
    ensures emitted { (text : List ℕ) × (symbols_from row.now next ≡ text ++ symbols_from row.now result)
        × Prints (K.observed sink.old) (K.observed sink.new) print.old print.new (symbol ++ text) }
{
    print.extend(sink, &symbol);
    if step != 1 || next == row.len() || !is_text(row[next].symbol(), symbol) {
        return next;
    }
    let count = copy_same(row, next, symbol, piece);
    print.extend(sink, &piece[..3 * count]);
    next + count
}

// Copies a symbol of one column once for each of the following cells that have it. Returns the
// number of copies.
fn copy_same(row: &[Cell], from: usize, symbol: [u8; 3], piece: &mut [u8; PIECE]) -> usize
    requires within { from ≤ length row.now }
    requires narrow { step_of symbol ≡ 1 }
    ensures within { (3 * result ≤ PIECE) × (from + result ≤ length row.now) }
    ensures copied { symbols_from row.now from ≡ take (3 * result) piece.new ++ symbols_from row.now (from + result) }
{
    let most = (row.len() - from).min(PIECE / 3);
    let mut count = 0;
    while count < most {
        if !is_text(row[from + count].symbol(), symbol) {
            return count;
        }
        let at = 3 * count;
        piece[at] = symbol[0];
        piece[at + 1] = symbol[1];
        piece[at + 2] = symbol[2];
        count += 1;
    }
    count
}

// Copies the symbols from a column on as long as each is one printable byte. Returns their number.
fn copy_plain(row: &[Cell], from: usize, piece: &mut [u8; PIECE]) -> usize
    requires { from ≤ length row.now }
    ensures within { (result ≤ PIECE) × (from + result ≤ length row.now) }
    ensures copied { symbols_from row.now from ≡ take result piece.new ++ symbols_from row.now (from + result) }
{
    let mut count = 0;
    while count < PIECE && count < row.len() - from {
        match printable_byte(row[from + count].symbol()) {
            Some(byte) => {
                piece[count] = byte;
                count += 1;
            }
            None => return count,
        }
    }
    count
}
