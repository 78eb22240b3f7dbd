//! Rows of symbols of known width that fit. Each cell that nothing covers shows as it is, and no
//! symbol of uncertain width appears or disappears. The state of the loop is two numbers, so that it
//! stays in registers.

ghost use Rattle.std.specs.Prelude.{◌≡◌, ◌+◌, ◌-◌, ◌<◌, ◌≤◌, ◌&&◌, ◌==◌, flat_map, if◌then◌else◌, length, nat_le, not, true};
ghost use Rattle.tui_io.specs.Prints.{Prints};
ghost use Rattle.tui_terminal.specs.Fitting.{are_fit, is_fit};
ghost use Rattle.tui_terminal.specs.Sent.{placed_if};
ghost use Rattle.tui_text.specs.Visible.{step_of};
ghost use Rattle.tui_terminal_model.specs.Encoding.{encoding};
ghost use Rattle.tui_terminal_model.specs.Symbols.{has_known_width};
ghost use Rattle.tui_terminal_laws.specs.Sending.{at_after, nothing_known, send};
ghost use Rattle.tui_terminal_laws.specs.Sent.{changes, is_same, row_shown};

use crate::changed::is_same_cell;
use crate::sending::{Reached, Spot, emit_cell_if};
use crate::symbols::{has_known_width, is_ascii};
use crate::target::RowTarget;
use tui_cells::Cell;
use tui_io::{Print, Sink};
use tui_terminal_model::KnownWidths;
use tui_text::symbol_columns;

/// Whether every symbol of a row has a known width and fits.
pub(crate) fn is_fit_row(widths: KnownWidths, row: &[Cell]) -> bool
    ensures { result ≡ are_fit widths row.now }
{
    'columns: for column in 0..row.len() {
        let cell = &row[column];
        if !is_fit(widths, row.len() - column, cell) {
            return false;
        }
    }
    true
}

// A printable byte takes one column and has a known width.
#[inline(always)]
fn is_fit(widths: KnownWidths, room: usize, cell: &Cell) -> bool
    requires { 0 < room }
    ensures { result ≡ is_fit widths room cell.now }
{
    let symbol = cell.symbol();
    is_ascii(symbol) || is_fit_slow(widths, room, symbol)
}

#[inline]
fn is_fit_slow(widths: KnownWidths, room: usize, symbol: &str) -> bool
    ensures { result ≡ (has_known_width widths symbol.now && nat_le (step_of symbol.now) room) }
{
    has_known_width(widths, symbol) && symbol_columns(symbol) <= room
}

/// Adds the cells of such a row that did not show so before. The old row is such a row too.
#[inline(never)]
pub(crate) fn emit_new_fit<K: Sink>(
    print: &mut Print,
    target: RowTarget,
    old: &[Cell],
    new: &[Cell],
    sink: &mut K,
)
    requires { (length old.now ≡ length new.now) × (target.left + length new.now ≤ 65535) × (target.y < 65536)
        × (are_fit target.output.widths old.now ≡ true) × (are_fit target.output.widths new.now ≡ true) }
    ensures { Prints (K.observed sink.old) (K.observed sink.new) print.old print.new (flat_map encoding (send target.output target.y nothing_known
        (changes target.output.widths target.left (row_shown target.output.widths old.now) (row_shown target.output.widths new.now)))) }
{
    let mut reached = Reached::none();
    // How many of the next cells are covered by a symbol, in the old row and in the new one.
    let mut was = 0usize;
    let mut is = 0usize;
    'columns: for column in 0..new.len() {
        let cell_old = &old[column];
        let cell = &new[column];
        let wanted = is_new(was, is, cell_old, cell);
        let columns = symbol_columns(cell.symbol());
        let spot = Spot {
            place: column,
            columns,
            wanted,
        };
        reached = emit_cell_if(print, target, new, reached, spot, sink);
        was = following(was, symbol_columns(cell_old.symbol()));
        is = following(is, columns);
    }
}

// Whether a cell shows that did not show so before.
#[inline(always)]
fn is_new(was: usize, is: usize, old: &Cell, new: &Cell) -> bool
    ensures { result ≡ ((is == 0) && not ((was == 0) && is_same old.now new.now)) }
{
    is == 0 && !has_shown(was, old, new)
}

#[inline(always)]
fn has_shown(was: usize, old: &Cell, new: &Cell) -> bool
    ensures { result ≡ ((was == 0) && is_same old.now new.now) }
{
    was == 0 && is_same_cell(old, new)
}

// Returns how many cells are still covered after a cell, from their number at the cell and the
// columns of its symbol.
#[inline(always)]
fn following(left: usize, columns: usize) -> usize
    requires { 0 < columns }
    ensures { result ≡ (if left == 0 then columns - 1 else left - 1) }
{
    if left == 0 { columns - 1 } else { left - 1 }
}
