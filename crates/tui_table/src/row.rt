//! Rows of a table.

ghost use Rattle.std.specs.Prelude.{◌≡◌, ◌*◌, ◌≤◌, IfOk, map, true};
ghost use Rattle.tui_cells.specs.Rect.{farthest_edge};
ghost use Rattle.tui_table.specs.Cell.{cell_data};
ghost use Rattle.tui_table.specs.Row.{row_data, row_height, row_of};

use crate::cell::Cell;
use tui_cells::{Mem, Style, Styled};

/// Cells side by side, with free rows above and below.
#[derive(Debug, PartialEq, Eq, Hash)]
pub struct Row<'a> {
    pub(crate) cells: Vec<Cell<'a>>,
    pub(crate) height: u16,
    pub(crate) top_margin: u16,
    pub(crate) bottom_margin: u16,
    pub(crate) style: Style,
}

// Written out, so that dependent crates have nothing to prove about its fields when they drop it.
impl<'a> Drop for Row<'a> {
    fn drop(self) {
        let Row {
            cells,
            height,
            top_margin,
            bottom_margin,
            style,
        } = self;
    }
}

impl<'a> Row<'a> {
    /// Creates a row of these cells, one row of the screen high, without margins or a style of its own.
    pub fn new(cells: Vec<Cell<'a>>) -> Row<'a>
        ensures { row_data result ≡ row_of (map cell_data cells.entry.items) }
    {
        Row {
            cells,
            height: 1,
            top_margin: 0,
            bottom_margin: 0,
            style: Style::new(),
        }
    }

    /// Replaces the cells.
    pub fn cells(self, cells: Vec<Cell<'a>>) -> Row<'a>
        ensures { row_data result ≡ record (row_data self.entry) { cells = map cell_data cells.entry.items } }
    {
        let mut row = self;
        row.cells = cells;
        row
    }

    /// Sets the height in rows of the screen, without the margins.
    pub fn height(self, height: u16) -> Row<'a>
        ensures { row_data result ≡ record (row_data self.entry) { height = height } }
    {
        let mut row = self;
        row.height = height;
        row
    }

    /// Sets how many rows of the screen are left free above.
    pub fn top_margin(self, margin: u16) -> Row<'a>
        ensures { row_data result ≡ record (row_data self.entry) { top_margin = margin } }
    {
        let mut row = self;
        row.top_margin = margin;
        row
    }

    /// Sets how many rows of the screen are left free below.
    pub fn bottom_margin(self, margin: u16) -> Row<'a>
        ensures { row_data result ≡ record (row_data self.entry) { bottom_margin = margin } }
    {
        let mut row = self;
        row.bottom_margin = margin;
        row
    }

    /// Sets the style under the cells.
    pub fn style(self, style: Style) -> Row<'a>
        ensures { row_data result ≡ record (row_data self.entry) { style = style } }
    {
        let mut row = self;
        row.style = style;
        row
    }

    /// Returns an equal row. Fails with `NoMemory` if there is no memory for the cells.
    pub fn clone(&self) -> Mem<Row<'a>>
        ensures is { IfOk result (λ row. row_data row ≡ row_data self.now) }
        ensures equal { IfOk result (λ row. ⟦<Row<'a> as PartialEq>⟧.eq row self.now ≡ true) }
    {
        let mut cells = Vec::with_capacity(*self.cells.allocator(), self.cells.len())?;
        for cell in &self.cells {
            cells.push(cell.clone()?)?;
        }
        Ok(Row { cells, ..*self })
    }

    /// Returns how many rows of the screen it takes, both margins included.
    pub(crate) fn outer_height(&self) -> u32
        ensures rows { result ≡ row_height (row_data self.now) }
        ensures small { result ≤ 3 * farthest_edge }
    {
        // Each is read first, so that its range is known where the sum is computed.
        let above = self.top_margin;
        let height = self.height;
        let below = self.bottom_margin;
        u32::from(above) + u32::from(height) + u32::from(below)
    }
}

impl<'a> Styled for Row<'a> {
    ghost style_of = { λ row. row.style };

    ghost with_style = { λ row style. record row { style = style } };

    fn style(&self) -> Style {
        self.style
    }

    fn set_style(self, style: Style) -> Row<'a> {
        let mut row = self;
        row.style = style;
        row
    }
}
