//! What a widget draws into a blank buffer.

use std::alloc::Global;
use test_help::shows;
use tui_cells::{Buffer, Mem, Rect, Widget};

/// Returns whether a widget draws these rows in an area of this many columns and rows.
pub fn draws<W: Widget>(
    alloc: Global,
    widget: &W,
    (width, height): (u16, u16),
    rows: &str,
) -> Mem<bool> {
    let area = Rect::new(0, 0, width, height);
    let mut buffer = Buffer::empty(alloc, area)?;
    widget.render(alloc, area, &mut buffer)?;
    shows(alloc, &buffer, rows)
}
