//! The runs of the print.

ghost use Rattle.std.specs.Prelude.{◌≡◌, ◌≢◌, ◌<◌, ◌≤◌, ◌↔◌, ◌⊎◌, ℕ, List, [], length, Some, IsTrue, flat_map, slice_index_or};
ghost use Rattle.tui_cells.specs.Cell.{IsUnstyled, blank};
ghost use Rattle.tui_io.specs.Prints.{Prints};
ghost use Rattle.tui_print.specs.Print.{AreRunLines, run_line};
ghost use Rattle.tui_print.specs.Runs.{AreStyleRuns, StyleRun, unstyled_attributes, attributes_at};

use crate::line::PrintLine;
use tui_cells::{Attributes, Buffer, Cell, Color};
use tui_io::{Print, Sink};

/// Adds the runs of a buffer to a print, row by row. Each maximal run of neighbouring cells with equal colours and
/// modifiers has a line `s row column cells foreground background modifiers`. Unstyled cells, with both colours `Reset`
/// and no modifier, have none.
pub fn emit_runs<K: Sink>(print: &mut Print, buf: &Buffer, sink: &mut K)
    ensures { (text : List ℕ) × AreRunLines 0 buf.now.rows text
        × Prints (K.observed sink.old) (K.observed sink.new) print.old print.new text }
{
    'rows: for number in 0..buf.height() {
        let first = buf.first_styled(number);
        emit_row_runs(print, number, buf.row_at(number), first, sink);
    }
}

// The cells before the column `first` are unstyled.
fn emit_row_runs<K: Sink>(
    print: &mut Print,
    number: usize,
    row: &[Cell],
    first: usize,
    sink: &mut K,
)
    requires within { first ≤ length row.now }
    requires rest { (x : ℕ) → x < first → IsUnstyled (slice_index_or row.now x blank) }
    requires styled { first < length row.now → IsUnstyled (slice_index_or row.now first blank) → ⊥ }
    ensures { (runs : List StyleRun) × AreStyleRuns row.now runs
        × Prints (K.observed sink.old) (K.observed sink.new) print.old print.new (flat_map (run_line number) runs) }
{
    let mut start = first;
    while start < row.len() {
        let attributes = attributes_in(row, start);
        let end = run_end(row, start, attributes);
        emit_run(print, number, start, end - start, attributes, sink);
        start = end;
    }
}

#[inline]
fn attributes_in(row: &[Cell], column: usize) -> Attributes
    requires { column < length row.now }
    ensures { attributes_at row.now column ≡ Some result }
{
    row[column].attributes()
}

// Returns the first column from `start` on whose cell has other attributes, or the length of the row.
fn run_end(row: &[Cell], start: usize, attributes: Attributes) -> usize
    requires within { start < length row.now }
    requires first { attributes_at row.now start ≡ Some attributes }
    ensures within { (start ≤ result) × (result ≤ length row.now) }
    ensures alike { (x : ℕ) → start ≤ x → x < result → attributes_at row.now x ≡ Some attributes }
    ensures other { attributes_at row.now result ≢ Some attributes }
{
    // Most cells are unstyled. Comparing them with constants is fast.
    if is_same(attributes, Attributes::unstyled()) {
        return matching_end(row, start, Attributes::unstyled());
    }
    matching_end(row, start, attributes)
}

#[inline]
fn matching_end(row: &[Cell], start: usize, attributes: Attributes) -> usize
    requires within { start < length row.now }
    requires first { attributes_at row.now start ≡ Some attributes }
    ensures within { (start ≤ result) × (result ≤ length row.now) }
    ensures alike { (x : ℕ) → start ≤ x → x < result → attributes_at row.now x ≡ Some attributes }
    ensures other { attributes_at row.now result ≢ Some attributes }
{
    'columns: for column in start + 1..row.len() {
        if !is_same(attributes_in(row, column), attributes) {
            return column;
        }
    }
    row.len()
}

#[inline]
fn is_same(a: Attributes, b: Attributes) -> bool
    ensures { IsTrue result ↔ (a ≡ b) }
{
    is_same_color(a.fg, b.fg) && is_same_color(a.bg, b.bg) && a.modifier.bits() == b.modifier.bits()
}

#[inline]
fn is_same_color(a: Color, b: Color) -> bool
    ensures { IsTrue result ↔ (a ≡ b) }
{
    a == b
}

// Unstyled cells have no line.
fn emit_run<K: Sink>(
    print: &mut Print,
    number: usize,
    start: usize,
    len: usize,
    attributes: Attributes,
    sink: &mut K,
)
    ensures { ((attributes ≡ unstyled_attributes)
        × Prints (K.observed sink.old) (K.observed sink.new) print.old print.new [])
        ⊎ ((attributes ≢ unstyled_attributes)
        × Prints (K.observed sink.old) (K.observed sink.new) print.old print.new
        (run_line number (record { start = start; len = len; attributes = attributes }))) }
{
    if !is_same(attributes, Attributes::unstyled()) {
        emit_run_line(print, number, start, len, attributes, sink);
    }
}

fn emit_run_line<K: Sink>(
    print: &mut Print,
    number: usize,
    start: usize,
    len: usize,
    attributes: Attributes,
    sink: &mut K,
)
    ensures { Prints (K.observed sink.old) (K.observed sink.new) print.old print.new
        (run_line number (record { start = start; len = len; attributes = attributes })) }
{
    let mut line = PrintLine::new();
    line.extend(b"s ");
    line.number(number, b' ');
    line.number(start, b' ');
    line.number(len, b' ');
    line.color(attributes.fg);
    line.color(attributes.bg);
    line.number(attributes.modifier.bits() as usize, b'\n');
    print.extend(sink, line.bytes());
}
