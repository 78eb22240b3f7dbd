//! How a table is drawn.

ghost use Rattle.std.specs.Prelude.{
  ◌≡◌,
  ◌+◌,
  ◌<◌,
  ◌≤◌,
  ◌^◌,
  [],
  IfOk,
  IsOk,
  IsTrue,
  OnOk,
  false,
  length,
  min,
  option_map,
  if◌then◌else◌,
};
ghost use Rattle.tui_cells.specs.Layers.{KeptOutside, Painted};
ghost use Rattle.tui_cells.specs.Rect.{columns_from, covers, is_empty};
ghost use Rattle.tui_frames.specs.Footprint.{footprint_if};
ghost use Rattle.tui_frames.specs.InBlock.{inner_of};
ghost use Rattle.tui_layout.specs.Sums.{total};
ghost use Rattle.tui_table.specs.Areas.{columns_in, gutter_of};
ghost use Rattle.tui_table.specs.Drawing.{table_drawing, table_moving};
ghost use Rattle.tui_table.specs.Moves.{column_after, row_after, table_after, table_window};
ghost use Rattle.tui_table.specs.Row.{heights_of, row_data};
ghost use Rattle.tui_table.specs.State.{default_state};
ghost use Rattle.tui_table.specs.Strokes.{
  body_if,
  body_layers,
  both_areas,
  content_layers,
  dress_if_some,
  edge_layers,
  highlight_layers,
  kind_at,
  row_layers,
  rows_layers,
  selected_column,
  selected_row,
  symbol_layers,
  table_layers,
};
ghost use Rattle.tui_table.specs.Table.{table_data};

use crate::cells::{area_in, paint_cells, paint_over, part_of};
use crate::grid::Grid;
use crate::row::Row;
use crate::row_kind::RowKind;
use crate::state::TableState;
use crate::table::Table;
use crate::table::areas::{clamp_to, height_if};
use std::alloc::Global;
use tui_cells::{Buffer, Mem, Rect, StatefulWidget, Style, Widget};
use tui_frames::paint_frame;
use tui_layout::Window;

impl<'a> Table<'a> {
    /// Draws the highlight symbol over the row's own style, if the row is selected.
    fn paint_symbol(
        &self,
        buf: &mut Buffer,
        area: Rect,
        gutter: u16,
        kind: RowKind,
        style: Style,
    ) -> Mem<()>
        ensures ok { OnOk result (Painted (symbol_layers (table_data self.now) gutter kind area style) buf.old buf.new) }
        ensures kept { KeptOutside (covers area) buf.old buf.new }
    {
        match kind {
            RowKind::Edge | RowKind::Plain => Ok(()),
            RowKind::Selected => {
                let part = area.columns_from(0, gutter);
                paint_over(buf, part, style, &self.highlight_symbol)
            }
        }
    }

    /// Draws a row in its area.
    #[tactic(auto, unfolding(crate::specs::Strokes::row_layers))]
    fn paint_row(
        &self,
        buf: &mut Buffer,
        area: Rect,
        grid: Grid<'_>,
        kind: RowKind,
        row: &Row<'_>,
    ) -> Mem<()>
        ensures ok { OnOk result
            (Painted (row_layers (table_data self.now) grid.entry.gutter grid.entry.columns.now kind area (row_data row.now)) buf.old buf.new) }
        ensures kept { KeptOutside (covers area) buf.old buf.new }
    {
        buf.set_style(area, row.style);
        self.paint_symbol(buf, area, grid.gutter, kind, row.style)?;
        paint_cells(buf, area, grid, self.column_spacing, kind, &row.cells)
    }

    /// Draws the header or the footer, if there is one, after `from` rows of the screen.
    #[tactic(auto, unfolding(crate::specs::Strokes::edge_layers))]
    fn paint_edge(
        &self,
        buf: &mut Buffer,
        inner: Rect,
        grid: Grid<'_>,
        from: u128,
        row: &Option<Row<'_>>,
    ) -> Mem<()>
        requires { from < 2 ^ 100 }
        ensures ok { OnOk result
            (Painted (edge_layers (table_data self.now) inner grid.entry.gutter grid.entry.columns.now from (option_map row_data row.now)) buf.old buf.new) }
        ensures kept { KeptOutside (covers inner) buf.old buf.new }
    {
        match row {
            None => Ok(()),
            Some(row) => self.paint_row(buf, area_in(inner, from, row), grid, RowKind::Edge, row),
        }
    }

    /// Draws the rows `first..end`.
    fn paint_rows(
        &self,
        buf: &mut Buffer,
        body: Rect,
        grid: Grid<'_>,
        selected: Option<usize>,
        first: usize,
        end: usize,
    ) -> Mem<()>
        requires order { first ≤ end }
        requires within { end ≤ length (table_data self.now).rows }
        ensures ok { OnOk result
            (Painted (rows_layers (table_data self.now) body grid.entry.gutter grid.entry.columns.now selected first end) buf.old buf.new) }
        ensures kept { KeptOutside (covers body) buf.old buf.new }
    {
        let rows = self.rows.as_slice();
        let mut used = 0u128;
        'rows: for i in first..end {
            let row = &rows[i];
            let area = area_in(body, used, row);
            self.paint_row(buf, area, grid, kind_at(selected, i), row)?;
            used += u128::from(row.outer_height());
        }
        Ok(())
    }

    /// Highlights the selected row, the selected column, and the cell where they meet.
    #[tactic(auto, unfolding(crate::specs::Strokes::highlight_layers))]
    fn paint_highlights(&self, buf: &mut Buffer, row: Option<Rect>, column: Option<Rect>)
        ensures { Painted (highlight_layers (table_data self.now) row column) buf.old buf.new }
    {
        dress_if_some(buf, self.row_highlight_style, row);
        dress_if_some(buf, self.column_highlight_style, column);
        dress_if_some(buf, self.cell_highlight_style, both_areas(row, column));
    }

    /// Returns how many rows of the screen the rows `first..s` take.
    fn rows_between(&self, first: usize, s: usize) -> u128
        requires within { s ≤ length (table_data self.now).rows }
        ensures total { result ≡ total (heights_of (table_data self.now).rows) first s }
        ensures small { result < 2 ^ 100 }
    {
        if s <= first {
            return 0;
        }
        let rows = self.rows.as_slice();
        let mut sum = 0u128;
        'rows: for i in first..s {
            sum += u128::from(rows[i].outer_height());
        }
        sum
    }

    /// Returns the area of the selected row, if row `first` is the first that is shown.
    fn selected_row(&self, body: Rect, first: usize, selected: Option<usize>) -> Option<Rect>
        ensures { result ≡ selected_row (table_data self.now) body first selected }
    {
        match selected {
            None => None,
            Some(s) => {
                let rows = self.rows.as_slice();
                if s >= rows.len() {
                    return None;
                }
                Some(area_in(body, self.rows_between(first, s), &rows[s]))
            }
        }
    }

    /// Draws the rows of the window and one more, which is cut off, and then the highlights.
    fn paint_body(
        &self,
        buf: &mut Buffer,
        body: Rect,
        grid: Grid<'_>,
        selected: Option<usize>,
        column: Option<usize>,
        window: Window,
    ) -> Mem<()>
        requires order { window.first ≤ window.end }
        requires within { window.end ≤ length (table_data self.now).rows }
        ensures ok { OnOk result (Painted (body_layers (table_data self.now) body grid.entry.gutter grid.entry.columns.now
            selected column window.first window.end) buf.old buf.new) }
        ensures kept { KeptOutside (covers body) buf.old buf.new }
    {
        let end = one_more(window.end, self.rows.as_slice().len());
        self.paint_rows(buf, body, grid, selected, window.first, end)?;
        let row = self.selected_row(body, window.first, selected);
        let column = selected_column(body, grid, column);
        self.paint_highlights(buf, row, column);
        Ok(())
    }

    /// Draws the rows and the highlights, if there are rows.
    fn paint_body_if(
        &self,
        buf: &mut Buffer,
        inner: Rect,
        grid: Grid<'_>,
        state: TableState,
        window: Window,
    ) -> Mem<()>
        requires found { window ≡ table_window (table_data self.now) inner.height state }
        requires order { window.first ≤ window.end }
        requires within { window.end ≤ length (table_data self.now).rows }
        ensures ok { OnOk result (Painted (body_if (table_data self.now) inner grid.entry.gutter grid.entry.columns.now state) buf.old buf.new) }
        ensures kept { KeptOutside (covers inner) buf.old buf.new }
    {
        if self.rows.as_slice().is_empty() {
            return Ok(());
        }
        let body = self.body(inner);
        let selected = self.row_after(state);
        let column = self.column_after(state);
        self.paint_body(buf, body, grid, selected, column, window)
    }

    /// Returns the selected row that a drawing leaves.
    fn row_after(&self, state: TableState) -> Option<usize>
        ensures { result ≡ row_after (table_data self.now) state }
    {
        clamp_to(self.rows.as_slice().len(), state.selected())
    }

    fn column_after(&self, state: TableState) -> Option<usize>
        ensures { result ≡ column_after (table_data self.now) state }
    {
        clamp_to(self.column_count(), state.selected_column())
    }

    /// Draws the header, the rows and the footer. Returns the state that the drawing leaves.
    fn paint_content(
        &self,
        alloc: Global,
        buf: &mut Buffer,
        inner: Rect,
        state: TableState,
    ) -> Mem<TableState>
        requires { is_empty inner ≡ false }
        ensures ok { OnOk result (Painted (content_layers (table_data self.now) inner state) buf.old buf.new) }
        ensures after { IfOk result (λ after. after ≡ table_after (table_data self.now) inner state) }
        ensures kept { KeptOutside (covers inner) buf.old buf.new }
    {
        let selected = self.row_after(state);
        let columns = self.columns(alloc, inner.width, selected)?;
        let grid = Grid {
            gutter: self.gutter(inner.width, selected),
            columns: &columns,
        };
        let room = self.room(inner.height);
        let window = self.rows.window(room, state.offset(), state.selected());
        self.paint_edge(buf, inner, grid, 0, &self.header)?;
        self.paint_body_if(buf, inner, grid, state, window)?;
        let below = height_if(&self.header) + u128::from(room);
        self.paint_edge(buf, inner, grid, below, &self.footer)?;
        Ok(TableState::after_drawing(window.first, selected, self.column_after(state)))
    }

    /// Draws the content if its area is not empty. Otherwise the state is unchanged.
    fn paint_inside(
        &self,
        alloc: Global,
        buf: &mut Buffer,
        inner: Rect,
        state: TableState,
    ) -> Mem<TableState>
        ensures ok { OnOk result (Painted (content_layers (table_data self.now) inner state) buf.old buf.new) }
        ensures after { IfOk result (λ after. after ≡ table_after (table_data self.now) inner state) }
        ensures kept { KeptOutside (covers inner) buf.old buf.new }
    {
        if inner.is_empty() {
            return Ok(state);
        }
        self.paint_content(alloc, buf, inner, state)
    }

    /// Draws the style, the block, and the content inside it. Returns the state that the drawing leaves.
    fn paint_in(
        &self,
        alloc: Global,
        buf: &mut Buffer,
        clip: Rect,
        state: TableState,
    ) -> Mem<TableState>
        ensures ok { OnOk result (Painted (table_layers (table_data self.now) state clip) buf.old buf.new) }
        ensures after { IfOk result (λ after. after ≡ table_after (table_data self.now) (inner_of (table_data self.now).block clip) state) }
        ensures kept { KeptOutside (footprint_if (table_data self.now).block clip) buf.old buf.new }
        ensures empty { IsTrue (is_empty clip) → IsOk result }
    {
        if clip.is_empty() {
            return Ok(state);
        }
        let inner = paint_frame(alloc, buf, clip, self.style, &self.block)?;
        self.paint_inside(alloc, buf, inner, state)
    }
}

impl<'a> StatefulWidget for Table<'a> {
    type State = TableState;

    ghost stateful_drawing = { λ table. table_moving (table_data table) };

    fn render(
        &self,
        alloc: Global,
        area: Rect,
        buf: &mut Buffer,
        state: &mut TableState,
    ) -> Mem<()> {
        let clip = area.intersection(buf.area());
        *state = self.paint_in(alloc, buf, clip, *state)?;
        Ok(())
    }
}

/// As a plain widget a table is drawn from its first row on, with nothing selected.
impl<'a> Widget for Table<'a> {
    ghost drawing = { λ table. table_drawing (table_data table) };

    fn render(&self, alloc: Global, area: Rect, buf: &mut Buffer) -> Mem<()> {
        let clip = area.intersection(buf.area());
        self.paint_in(alloc, buf, clip, TableState::new())?;
        Ok(())
    }
}

/// Returns the role of row `i` of the body.
fn kind_at(selected: Option<usize>, i: usize) -> RowKind
    ensures { result ≡ kind_at selected i }
{
    if selected == Some(i) {
        RowKind::Selected
    } else {
        RowKind::Plain
    }
}

/// Returns one more than `last`, at most `count`.
fn one_more(last: usize, count: usize) -> usize
    requires { last ≤ count }
    ensures { result ≡ min (last + 1) count }
{
    if last < count { last + 1 } else { count }
}

/// Returns the area of the selected column, if there is one.
fn selected_column(body: Rect, grid: Grid<'_>, selected: Option<usize>) -> Option<Rect>
    ensures { result ≡ selected_column body grid.entry.gutter grid.entry.columns.now selected }
{
    match selected {
        None => None,
        Some(s) => {
            if s >= grid.columns.len() {
                return None;
            }
            let column = grid.columns[s];
            Some(part_of(body, grid.gutter, column.start, column.width))
        }
    }
}

/// Sets a style on an area, if there is one.
fn dress_if_some(buf: &mut Buffer, style: Style, area: Option<Rect>)
    ensures { Painted (dress_if_some style area) buf.old buf.new }
{
    if let Some(area) = area {
        buf.set_style(area, style);
    }
}

fn both_areas(row: Option<Rect>, column: Option<Rect>) -> Option<Rect>
    ensures { result ≡ both_areas row column }
{
    match (row, column) {
        (Some(row), Some(column)) => Some(row.intersection(column)),
        _ => None,
    }
}
