//! The visible cells of a row.

ghost use Rattle.std.specs.Prelude.{◌≡◌};
ghost use Rattle.std.specs.Iterator.{item_count, YieldsFirstBy};
ghost use Rattle.tui_text.specs.Visible.{step_of, visible, visible_left};

use tui_cells::Cell;
use tui_clusters::cell_width;

/// The visible cells of a row, from the left, each with its column.
#[derive(Drop)]
pub struct VisibleCells<'r> {
    row: &'r [Cell],
    column: usize,
}

/// Returns the visible cells of a row, from the left, each as a pair of its column and the cell. Columns count from 0.
/// A symbol that is several columns wide covers the cells to its right, which are left out. A symbol without a width
/// counts as one column wide. Does not allocate.
#[tactic(auto, unfolding(crate::specs::Visible::visible_left))]
pub fn visible_cells<'r>(row: &'r [Cell]) -> VisibleCells<'r>
    ensures { visible_left result ≡ visible row.now }
{
    VisibleCells { row, column: 0 }
}

impl<'r> Iterator for VisibleCells<'r> {
    ghost use Rattle.tui_text.specs.Visible.{placed_cell, visible_left};

    type Item = (usize, &'r Cell);

    ghost next_gives = { YieldsFirstBy placed_cell visible_left };

    ghost remaining = { item_count visible_left };

    fn next(&mut self) -> Option<(usize, &'r Cell)> {
        let column = self.column;
        if column >= self.row.len() {
            return None;
        }
        let cell = &self.row[column];
        self.column = column + symbol_columns(cell.symbol()).min(self.row.len() - column);
        Some((column, cell))
    }
}

/// Returns the number of columns from a cell with this symbol to the next visible one: the symbol's width, but at least
/// 1.
#[tactic(auto, unfolding(crate::specs::Visible::step_of))]
pub fn symbol_columns(symbol: &str) -> usize
    ensures { result ≡ step_of symbol.now }
{
    (cell_width(symbol) as usize).max(1)
}
