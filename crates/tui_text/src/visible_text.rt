//! The text that a row of a buffer shows.

ghost use Rattle.std.specs.Prelude.{◌≡◌, ◌++◌, [], IfOk, OnOk, slice_index_or, string_bytes};
ghost use Rattle.tui_text.specs.Visible.{symbols_in};

use crate::visible::visible_cells;
use std::alloc::Global;
use tui_cells::{Buffer, Cell, Mem};

/// Returns the text that a row of a buffer shows: the symbols of its visible cells, from the left. Rows count from 0 at
/// the top of the buffer's area; a row that the buffer doesn't have shows nothing. Fails with `NoMemory` if there is no
/// memory for the text.
#[tactic(auto, unfolding(crate::specs::Visible::visible_from))]
pub fn row_text(alloc: Global, buffer: &Buffer, row: usize) -> Mem<String>
    ensures { IfOk result (λ text. string_bytes text ≡ symbols_in (slice_index_or buffer.now.rows row [])) }
{
    let mut text = String::new(alloc);
    if row >= buffer.height() {
        return Ok(text);
    }
    push_symbols(&mut text, buffer.row_at(row))?;
    Ok(text)
}

/// Appends the symbols of the visible cells of a row.
fn push_symbols(text: &mut String, row: &[Cell]) -> Mem<()>
    ensures { OnOk result (string_bytes text.new ≡ string_bytes text.old ++ symbols_in row.now) }
{
    for (_, cell) in visible_cells(row) {
        text.push_str(cell.symbol())?;
    }
    Ok(())
}
