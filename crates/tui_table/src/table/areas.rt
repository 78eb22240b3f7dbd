//! The areas and the columns of a table.

ghost use Rattle.std.specs.Prelude.{◌≡◌, ◌*◌, ◌≤◌, IfOk, option_map};
ghost use Rattle.tui_cells.specs.Rect.{farthest_edge};
ghost use Rattle.tui_table.specs.Areas.{body_of, cells_if, column_count, columns_in, gutter_of, height_if, room_of};
ghost use Rattle.tui_table.specs.Moves.{clamp_to};
ghost use Rattle.tui_table.specs.Row.{row_data};
ghost use Rattle.tui_table.specs.Table.{table_data};

use crate::row::Row;
use crate::table::Table;
use std::alloc::Global;
use tui_cells::{FARTHEST_EDGE, Mem, Rect};
use tui_layout::{Constraint, Segment, split};

impl<'a> Table<'a> {
    /// Returns how many columns of the screen are reserved for the highlight symbol.
    #[tactic(auto, unfolding(crate::specs::Areas::gutter_of))]
    pub(crate) fn gutter(&self, width: u16, selected: Option<usize>) -> u16
        ensures { result ≡ gutter_of (table_data self.now) width selected }
    {
        if !self.highlight_spacing.should_add(selected.is_some()) {
            return 0;
        }
        self.highlight_symbol.width().min(usize::from(width)) as u16
    }

    /// Returns the greatest number of cells in a row, the header or the footer.
    #[tactic(auto, unfolding(crate::specs::Areas::column_count))]
    pub(crate) fn column_count(&self) -> usize
        ensures { result ≡ column_count (table_data self.now) }
    {
        let edges = cells_if(&self.header).max(cells_if(&self.footer));
        self.rows.most_cells().max(edges)
    }

    /// Returns how many rows of the screen the header and the footer leave.
    pub(crate) fn room(&self, height: u16) -> u16
        ensures { result ≡ room_of (table_data self.now) height }
    {
        let left = u128::from(height).saturating_sub(height_if(&self.header));
        left.saturating_sub(height_if(&self.footer)) as u16
    }

    /// Returns the area of the rows.
    pub(crate) fn body(&self, inner: Rect) -> Rect
        ensures { result ≡ body_of (table_data self.now) inner }
    {
        let above = height_if(&self.header).min(FARTHEST_EDGE as u128) as u16;
        inner.rows_from(above, self.room(inner.height))
    }

    /// Returns the columns, counted from the end of the highlight symbol's columns.
    #[tactic(auto, unfolding(crate::specs::Areas::columns_in))]
    pub(crate) fn columns(
        &self,
        alloc: Global,
        width: u16,
        selected: Option<usize>,
    ) -> Mem<Vec<Segment>>
        ensures { IfOk result (λ columns. columns.items ≡ columns_in (table_data self.now) width selected) }
    {
        let length = width.saturating_sub(self.gutter(width, selected));
        if self.widths.is_empty() {
            let count = self.column_count();
            let each = usize::from(width) / count.max(1);
            let equal = vec![in alloc; Constraint::Length(each as u16); count]?;
            let columns = split(alloc, length, self.column_spacing, &equal, self.flex)?;
            return Ok(columns);
        }
        let columns = split(alloc, length, self.column_spacing, &self.widths, self.flex)?;
        Ok(columns)
    }
}

/// Returns how many rows of the screen a header or a footer takes, if there is one.
pub(crate) fn height_if(row: &Option<Row<'_>>) -> u128
    ensures rows { result ≡ height_if (option_map row_data row.now) }
    ensures small { result ≤ 3 * farthest_edge }
{
    match row {
        None => 0,
        Some(row) => u128::from(row.outer_height()),
    }
}

fn cells_if(row: &Option<Row<'_>>) -> usize
    ensures { result ≡ cells_if (option_map row_data row.now) }
{
    match row {
        None => 0,
        Some(row) => row.cells.len(),
    }
}

/// Limits a selection to `count` entries. A selection past the last entry becomes the last; if there are no entries,
/// nothing is selected.
pub(crate) fn clamp_to(count: usize, selected: Option<usize>) -> Option<usize>
    ensures { result ≡ clamp_to count selected }
{
    match selected {
        None => None,
        Some(place) => {
            if count == 0 {
                None
            } else {
                Some(place.min(count - 1))
            }
        }
    }
}
