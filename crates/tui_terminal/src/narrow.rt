//! Rows of symbols of known width that take one column. Each cell shows as it is, and no symbol of uncertain
//! width appears or disappears.

ghost use Rattle.std.specs.Prelude.{◌≡◌, ◌+◌, ◌<◌, ◌≤◌, flat_map, if◌then◌else◌, length, nat_eq, not, slice_index_or, true};
ghost use Rattle.std.specs.Cmp.Lexicographic.{pointwise};
ghost use Rattle.std.specs.List.{list_all};
ghost use Rattle.tui_cells.specs.Cell.{blank};
ghost use Rattle.tui_io.specs.Prints.{Prints};
ghost use Rattle.tui_terminal.specs.Narrow.{is_narrow};
ghost use Rattle.tui_terminal.specs.Sent.{at_reached, placed_if};
ghost use Rattle.tui_terminal_model.specs.Encoding.{encoding};
ghost use Rattle.tui_terminal_laws.specs.Sending.{at_after, nothing_known, row_in_full, send};
ghost use Rattle.tui_terminal_laws.specs.Sent.{changes, is_same, row_shown};

use crate::changed::is_same_cell;
use crate::sending::{Reached, Spot, emit_cell_if};
use crate::symbols::{is_narrow, is_same_text};
use crate::target::RowTarget;
use tui_cells::Cell;
use tui_io::{Print, Sink};
use tui_terminal_model::KnownWidths;

/// Whether every symbol of a row has a known width and takes one column.
pub(crate) fn is_narrow_row(widths: KnownWidths, row: &[Cell]) -> bool
    ensures { result ≡ list_all (λ c. is_narrow widths c.symbol) row.now }
{
    'columns: for column in 0..row.len() {
        let cell = &row[column];
        if !is_narrow(widths, cell.symbol()) {
            return false;
        }
    }
    true
}

/// Adds all cells of such a row.
pub(crate) fn emit_all_narrow<K: Sink>(
    print: &mut Print,
    target: RowTarget,
    row: &[Cell],
    sink: &mut K,
)
    requires { (target.left + length row.now ≤ 65535) × (target.y < 65536) × (list_all (λ c. is_narrow target.output.widths c.symbol) row.now ≡ true) }
    ensures { Prints (K.observed sink.old) (K.observed sink.new) print.old print.new
        (flat_map encoding (send target.output target.y nothing_known (row_in_full target.output.widths target.left row.now))) }
{
    let mut reached = Reached::none();
    'columns: for column in 0..row.len() {
        let spot = Spot {
            place: column,
            columns: 1,
            wanted: true,
        };
        reached = emit_cell_if(print, target, row, reached, spot, sink);
    }
}

/// Adds the cells of such a row that did not show so before. The old row is such a row too.
pub(crate) fn emit_new_narrow<K: Sink>(
    print: &mut Print,
    target: RowTarget,
    old: &[Cell],
    new: &[Cell],
    sink: &mut K,
)
    requires { (length old.now ≡ length new.now) × (target.left + length new.now ≤ 65535) × (target.y < 65536)
        × (list_all (λ c. is_narrow target.output.widths c.symbol) old.now ≡ true) × (list_all (λ c. is_narrow target.output.widths c.symbol) new.now ≡ true) }
    ensures { Prints (K.observed sink.old) (K.observed sink.new) print.old print.new (flat_map encoding (send target.output target.y nothing_known
        (changes target.output.widths target.left (row_shown target.output.widths old.now) (row_shown target.output.widths new.now)))) }
{
    let mut reached = Reached::none();
    'columns: for column in 0..new.len() {
        let cell_old = &old[column];
        let cell = &new[column];
        let wanted = is_changed(reached.last == column, cell_old, cell);
        let spot = Spot {
            place: column,
            columns: 1,
            wanted,
        };
        reached = emit_cell_if(print, target, new, reached, spot, sink);
    }
}

// A cell next to one that has changed mostly has another symbol, and symbols are cheaper to compare than
// colours. Other cells are mostly unchanged.
#[inline(always)]
fn is_changed(goes_on: bool, old: &Cell, new: &Cell) -> bool
    ensures { result ≡ not (is_same old.now new.now) }
{
    if goes_on && !is_same_symbol(old, new) {
        true
    } else {
        !is_same_cell(old, new)
    }
}

#[inline(always)]
fn is_same_symbol(old: &Cell, new: &Cell) -> bool
    ensures { result ≡ pointwise nat_eq old.now.symbol new.now.symbol }
{
    is_same_text(old.symbol(), new.symbol())
}
