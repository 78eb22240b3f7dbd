//! What a buffer shows.

use std::alloc::Global;
use tui_cells::{Buffer, Cell, Mem};

/// The symbols of a buffer, with a newline after each row.
fn shown(alloc: Global, buffer: &Buffer) -> Mem<String> {
    let mut text = String::new(alloc);
    for y in 0..buffer.height() {
        push_row(&mut text, buffer.row_at(y))?;
    }
    Ok(text)
}

fn push_row(text: &mut String, row: &[Cell]) -> Mem<()> {
    for cell in row {
        text.push_str(cell.symbol())?;
    }
    Ok(text.push('\n')?)
}

/// Returns whether a buffer shows these rows.
pub fn shows(alloc: Global, buffer: &Buffer, rows: &str) -> Mem<bool> {
    Ok(shown(alloc, buffer)?.as_str() == rows)
}
