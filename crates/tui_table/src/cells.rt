//! Cells in columns.

ghost use Rattle.std.specs.Prelude.{◌≡◌, ◌+◌, ◌-◌, ◌*◌, ◌<◌, ◌^◌, OnOk, length, map, min, sum_by};
ghost use Rattle.tui_cells.specs.Layers.{KeptOutside, Painted};
ghost use Rattle.tui_cells.specs.Rect.{columns_from, covers, farthest_edge};
ghost use Rattle.tui_table.specs.Areas.{area_in};
ghost use Rattle.tui_table.specs.Cell.{cell_data};
ghost use Rattle.tui_table.specs.Row.{row_data};
ghost use Rattle.tui_table.specs.Strokes.{cell_layers, cells_layers, span_in, text_over};
ghost use Rattle.tui_text.specs.Text.{text_data};

use crate::cell::Cell;
use crate::grid::Grid;
use crate::row::Row;
use crate::row_kind::RowKind;
use tui_cells::{Buffer, FARTHEST_EDGE, Mem, Rect, Style};
use tui_layout::Segment;
use tui_text::{Text, paint_rows};

/// Sets a style on an area, and draws a text over it.
#[tactic(auto, unfolding(crate::specs::Strokes::text_over))]
pub(crate) fn paint_over(buf: &mut Buffer, area: Rect, style: Style, text: &Text<'_>) -> Mem<()>
    ensures ok { OnOk result (Painted (text_over area style (text_data text.now)) buf.old buf.new) }
    ensures kept { KeptOutside (covers area) buf.old buf.new }
{
    buf.set_style(area, style);
    paint_rows(buf, area, text)
}

/// Returns the width of these columns with the spacing between them, in columns of the screen. At most 65535.
fn width_over(columns: &[Segment], spacing: u16) -> u16
    requires { 0 < length columns.now }
    ensures { result ≡ min (sum_by (λ c. c.width) columns.now + spacing * (length columns.now - 1)) farthest_edge }
{
    let mut width = 0u128;
    for column in columns {
        width += u128::from(column.width);
    }
    let between = u128::from(spacing) * ((columns.len() - 1) as u128);
    (width + between).min(FARTHEST_EDGE as u128) as u16
}

/// Returns the part of an area from column `start` on. `start` is counted from the end of the highlight symbol's
/// columns.
pub(crate) fn part_of(area: Rect, gutter: u16, start: u16, width: u16) -> Rect
    ensures { result ≡ columns_from area (gutter + start) width }
{
    area.columns_from(gutter.saturating_add(start), width)
}

/// Draws a cell in its columns: from the first of them on, as wide as all of them with the spacing between them.
fn paint_cell(
    buf: &mut Buffer,
    area: Rect,
    grid: Grid<'_>,
    spacing: u16,
    cell: &Cell<'_>,
) -> Mem<()>
    ensures ok { OnOk result (Painted (cell_layers area grid.entry.gutter spacing grid.entry.columns.now (cell_data cell.now)) buf.old buf.new) }
    ensures kept { KeptOutside (covers area) buf.old buf.new }
{
    if grid.columns.is_empty() {
        return Ok(());
    }
    let width = width_over(grid.columns, spacing);
    let part = part_of(area, grid.gutter, grid.columns[0].start, width);
    paint_over(buf, part, cell.style, &cell.content)
}

/// Returns how many columns a cell takes: one in a header or a footer, else its span.
fn span_in(kind: RowKind, cell: &Cell<'_>) -> u16
    ensures { result ≡ span_in kind (cell_data cell.now) }
{
    match kind {
        RowKind::Edge => 1,
        RowKind::Plain | RowKind::Selected => cell.column_span,
    }
}

/// Draws cells in order. Each takes as many of the next columns as it spans.
pub(crate) fn paint_cells(
    buf: &mut Buffer,
    area: Rect,
    grid: Grid<'_>,
    spacing: u16,
    kind: RowKind,
    cells: &[Cell<'_>],
) -> Mem<()>
    ensures ok { OnOk result (Painted (cells_layers area grid.entry.gutter spacing kind grid.entry.columns.now (map cell_data cells.now)) buf.old buf.new) }
    ensures kept { KeptOutside (covers area) buf.old buf.new }
{
    let mut used = 0usize;
    'cells: for i in 0..cells.len() {
        let cell = &cells[i];
        let end = used + usize::from(span_in(kind, cell)).min(grid.columns.len() - used);
        let columns = &grid.columns[used..end];
        paint_cell(buf, area, Grid { columns, ..grid }, spacing, cell)?;
        used = end;
    }
    Ok(())
}

/// Returns the area of a row that comes after `from` rows of another area.
pub(crate) fn area_in(rect: Rect, from: u128, row: &Row<'_>) -> Rect
    requires { from < 2 ^ 100 }
    ensures { result ≡ area_in rect from (row_data row.now) }
{
    let top = from + u128::from(row.top_margin);
    rect.rows_from(top.min(FARTHEST_EDGE as u128) as u16, row.height)
}
