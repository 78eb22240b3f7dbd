//! Functions on neighbouring cells.

ghost use Rattle.std.specs.Prelude.{
  ◌≡◌,
  ◌↔◌,
  ◌+◌,
  ◌≤◌,
  ◌<◌,
  [],
  ℕ,
  All,
  IfOk,
  IsAscii,
  IsOk,
  IsTrue,
  OnErr,
  OnOk,
  length,
  replicate,
  slice_index_or,
  vec_capacity,
};
ghost use Rattle.tui_cells.specs.Buffer.{RowEdited};
ghost use Rattle.tui_cells.specs.Copying.{IsPartialRowCopy};
ghost use Rattle.tui_cells.specs.Representation.{row_cells};
ghost use Rattle.tui_cells.specs.Cell.{IsUnstyled, IsAllocationFree, blank, dim, set_style, write, wipe};
ghost use Rattle.tui_cells.specs.RowWriting.{RowWritten};

use crate::cell::Cell;
use crate::content::{SHORT, byte_symbol};
use crate::memory::Mem;
use crate::style::Style;
use arrayvec::ArrayString;
use std::alloc::Global;

/// Returns `width` blank cells.
pub(crate) fn blank_cells(alloc: Global, width: u16) -> Mem<Vec<Cell>>
    ensures { IfOk result (λ cells. cells.items ≡ replicate width blank) }
{
    let mut cells = Vec::with_capacity(alloc, width as usize)?;
    make_blanks(&mut cells, alloc, width);
    Ok(cells)
}

/// Creates the cells of a row if it has none.
#[inline]
pub(crate) fn make_cells(cells: &mut Vec<Cell>, alloc: Global, width: u16)
    requires { cells.old.items ≡ [] → width ≤ vec_capacity cells.old }
    ensures { cells.new.items ≡ row_cells width cells.old.items }
{
    if cells.is_empty() {
        make_blanks(cells, alloc, width);
    }
}

// The memory is reserved, so nothing is allocated here.
#[inline(never)]
fn make_blanks(cells: &mut Vec<Cell>, alloc: Global, width: u16)
    requires empty { cells.old.items ≡ [] }
    requires room { width ≤ vec_capacity cells.old }
    ensures { cells.new.items ≡ replicate width blank }
{
    match cells.resize_with(width as usize, || Cell::new(alloc)) {
        Ok(()) => {}
        Err(_) => {}
    }
}

/// Returns the index of the first cell that has a style, or the number of cells.
pub(crate) fn first_styled(cells: &[Cell]) -> usize
    ensures within { result ≤ length cells.now }
    ensures rest { (i : ℕ) → i < result → IsUnstyled (slice_index_or cells.now i blank) }
    ensures styled { result < length cells.now → IsUnstyled (slice_index_or cells.now result blank) → ⊥ }
{
    'places: for place in 0..cells.len() {
        if !cells[place].is_unstyled() {
            return place;
        }
    }
    cells.len()
}

/// Whether two rows show the same. Never inlined, so that its loop keeps its counter in registers.
#[inline(never)]
pub(crate) fn are_same(one: &[Cell], other: &[Cell]) -> bool
    ensures { IsTrue result ↔ (one.now ≡ other.now) }
{
    if one.len() != other.len() {
        return false;
    }
    'places: for place in 0..one.len() {
        if !one[place].is_same(&other[place]) {
            return false;
        }
    }
    true
}

/// Makes cells show what others show. Fails with `NoMemory` if memory runs out; each cell is then either unchanged or a
/// copy.
pub(crate) fn copy_cells(cells: &mut Vec<Cell>, others: &[Cell]) -> Mem<()>
    requires { length cells.old.items ≡ length others.now }
    ensures ok { OnOk result (cells.new.items ≡ others.now) }
    ensures err { OnErr result (IsPartialRowCopy others.now cells.old.items cells.new.items) }
    ensures len { length cells.new.items ≡ length others.now }
    ensures allocation_free { All (λ c. IsAllocationFree c.symbol) others.now → IsOk result }
{
    'places: for place in 0..others.len() {
        let cell = &mut cells[place];
        cell.copy_from(&others[place])?;
    }
    Ok(())
}

/// Dims the cells from index `from` up to `to`.
pub(crate) fn dim_cells(cells: &mut Vec<Cell>, from: usize, to: usize)
    requires { (from ≤ to) × (to ≤ length cells.old.items) }
    ensures { RowEdited from to dim cells.old.items cells.new.items }
{
    'cells: for i in from..to {
        let cell = &mut cells[i];
        cell.dim();
    }
}

/// Sets a symbol in the cells from index `from` up to `to`.
pub(crate) fn write_cells(cells: &mut Vec<Cell>, from: usize, to: usize, symbol: ArrayString<SHORT>)
    requires within { (from ≤ to) × (to ≤ length cells.old.items) }
    requires some { 0 < length symbol.bytes }
    ensures { RowEdited from to (write symbol.bytes) cells.old.items cells.new.items }
{
    'cells: for i in from..to {
        let cell = &mut cells[i];
        cell.set_short(symbol);
    }
}

/// Writes ASCII text into the cells from index `from` on, one character a cell.
pub(crate) fn write_ascii(cells: &mut Vec<Cell>, from: usize, text: &[u8])
    requires within { from + length text.now ≤ length cells.old.items }
    requires ascii { IsAscii text.now }
    ensures { RowWritten from (from + length text.now) text.now [] cells.old.items cells.new.items }
{
    'bytes: for i in 0..text.len() {
        let cell = &mut cells[from + i];
        cell.set_short(byte_symbol(text[i]));
    }
}

/// Sets the style of the cells from index `from` up to `to`.
pub(crate) fn style_cells(cells: &mut Vec<Cell>, from: usize, to: usize, style: Style)
    requires { (from ≤ to) × (to ≤ length cells.old.items) }
    ensures { RowEdited from to (set_style style) cells.old.items cells.new.items }
{
    'cells: for i in from..to {
        let cell = &mut cells[i];
        cell.set_style(style);
    }
}

/// Makes the cells from index `from` up to `to` blank.
pub(crate) fn wipe_cells(cells: &mut Vec<Cell>, from: usize, to: usize)
    requires { (from ≤ to) × (to ≤ length cells.old.items) }
    ensures { RowEdited from to wipe cells.old.items cells.new.items }
{
    'cells: for i in from..to {
        let cell = &mut cells[i];
        cell.reset();
    }
}
