//! What a table keeps from one drawing to the next.

ghost use Rattle.std.specs.Prelude.{◌≡◌, IfSome, None, Some};
ghost use Rattle.std.specs.Borrow.{sem};
ghost use Rattle.tui_layout.specs.Selection.{back_by, forward_by, greatest, next_of, previous_of};
ghost use Rattle.tui_table.specs.State.{BorrowsColumn, BorrowsOffset, BorrowsSelected, default_state, column_of_cell, row_of_cell, selected_cell};

use tui_layout::selection::{back_by, forward_by, next_of, previous_of};

/// The first row that is shown, and the selected row and column. All are indices from 0. A row or a column past the
/// last one may be selected; a drawing makes it the last.
#[derive(Clone, Copy, Debug, PartialEq, Eq, Hash)]
pub struct TableState {
    offset: usize,
    selected: Option<usize>,
    selected_column: Option<usize>,
}

impl Default for TableState {
    /// Offset 0, with nothing selected.
    fn default() -> TableState
        ensures { result ≡ default_state }
    {
        TableState::new()
    }
}

impl TableState {
    /// Creates a state with offset 0 and nothing selected.
    pub fn new() -> TableState
        ensures { result ≡ default_state }
    {
        TableState {
            offset: 0,
            selected: None,
            selected_column: None,
        }
    }

    /// Sets the first row that is shown.
    pub fn with_offset(self, offset: usize) -> TableState
        ensures { result ≡ record self { offset = offset } }
    {
        TableState { offset, ..self }
    }

    /// Sets the selected row.
    pub fn with_selected(self, selected: Option<usize>) -> TableState
        ensures { result ≡ record self { selected = selected } }
    {
        TableState { selected, ..self }
    }

    /// Sets the selected column.
    pub fn with_selected_column(self, selected: Option<usize>) -> TableState
        ensures { result ≡ record self { selected_column = selected } }
    {
        TableState {
            selected_column: selected,
            ..self
        }
    }

    /// Sets the selected row and column, or selects neither.
    pub fn with_selected_cell(self, selected: Option<(usize, usize)>) -> TableState
        ensures { result ≡ record self { selected = row_of_cell selected; selected_column = column_of_cell selected } }
    {
        TableState {
            selected: row_of_cell(selected),
            selected_column: column_of_cell(selected),
            ..self
        }
    }

    /// Returns the index of the first row that is shown.
    pub fn offset(&self) -> usize
        ensures { result ≡ self.now.offset }
    {
        self.offset
    }

    /// Returns a mutable reference to the index of the first row that is shown.
    pub fn offset_mut(&mut self) -> &mut usize
        ensures* writes_back { sem 𝓛 (BorrowsOffset self.entry result) }
        ensures value { result.now ≡ self.old.offset }
    {
        &mut self.offset
    }

    /// Returns the selected row.
    pub fn selected(&self) -> Option<usize>
        ensures { result ≡ self.now.selected }
    {
        self.selected
    }

    /// Returns a mutable reference to the selected row.
    pub fn selected_mut(&mut self) -> &mut Option<usize>
        ensures* writes_back { sem 𝓛 (BorrowsSelected self.entry result) }
        ensures value { result.now ≡ self.old.selected }
    {
        &mut self.selected
    }

    /// Returns the selected column.
    pub fn selected_column(&self) -> Option<usize>
        ensures { result ≡ self.now.selected_column }
    {
        self.selected_column
    }

    /// Returns a mutable reference to the selected column.
    pub fn selected_column_mut(&mut self) -> &mut Option<usize>
        ensures* writes_back { sem 𝓛 (BorrowsColumn self.entry result) }
        ensures value { result.now ≡ self.old.selected_column }
    {
        &mut self.selected_column
    }

    /// Returns the selected row and column, or `None` exactly if one of them is not selected.
    pub fn selected_cell(&self) -> Option<(usize, usize)>
        ensures { result ≡ selected_cell self.now.selected self.now.selected_column }
    {
        match (self.selected, self.selected_column) {
            (Some(row), Some(column)) => Some((row, column)),
            _ => None,
        }
    }

    /// Selects a row, or none. Selecting none also sets the offset to 0.
    pub fn select(&mut self, index: Option<usize>)
        ensures some { IfSome index (λ row. self.new ≡ record self.old { selected = Some row }) }
        ensures none { index ≡ None → self.new ≡ record self.old { selected = None; offset = 0 } }
    {
        self.selected = index;
        if index.is_none() {
            self.offset = 0;
        }
    }

    /// Selects a column, or none.
    pub fn select_column(&mut self, index: Option<usize>)
        ensures { self.new ≡ record self.old { selected_column = index } }
    {
        self.selected_column = index;
    }

    /// Selects a row and a column, or neither. Selecting neither also sets the offset to 0.
    pub fn select_cell(&mut self, cell: Option<(usize, usize)>)
        ensures some { IfSome cell (λ cell. self.new ≡ record self.old { selected = Some cell.0; selected_column = Some cell.1 }) }
        ensures none { cell ≡ None → self.new ≡ default_state }
    {
        self.selected = row_of_cell(cell);
        self.selected_column = column_of_cell(cell);
        if cell.is_none() {
            self.offset = 0;
        }
    }

    /// Selects the next row, or the first if none is selected.
    pub fn select_next(&mut self)
        ensures { self.new ≡ record self.old { selected = Some (next_of self.old.selected) } }
    {
        self.selected = Some(next_of(self.selected));
    }

    /// Selects the next column, or the first if none is selected.
    pub fn select_next_column(&mut self)
        ensures { self.new ≡ record self.old { selected_column = Some (next_of self.old.selected_column) } }
    {
        self.selected_column = Some(next_of(self.selected_column));
    }

    /// Selects the row before. If none is selected, selects `usize::MAX`, which a drawing makes the last row.
    pub fn select_previous(&mut self)
        ensures { self.new ≡ record self.old { selected = Some (previous_of self.old.selected) } }
    {
        self.selected = Some(previous_of(self.selected));
    }

    /// Selects the column before. If none is selected, selects `usize::MAX`, which a drawing makes the last column.
    pub fn select_previous_column(&mut self)
        ensures { self.new ≡ record self.old { selected_column = Some (previous_of self.old.selected_column) } }
    {
        self.selected_column = Some(previous_of(self.selected_column));
    }

    /// Selects the first row.
    pub fn select_first(&mut self)
        ensures { self.new ≡ record self.old { selected = Some 0 } }
    {
        self.selected = Some(0);
    }

    /// Selects the first column.
    pub fn select_first_column(&mut self)
        ensures { self.new ≡ record self.old { selected_column = Some 0 } }
    {
        self.selected_column = Some(0);
    }

    /// Selects `usize::MAX`, which a drawing makes the last row.
    pub fn select_last(&mut self)
        ensures { self.new ≡ record self.old { selected = Some greatest } }
    {
        self.selected = Some(usize::MAX);
    }

    /// Selects `usize::MAX`, which a drawing makes the last column.
    pub fn select_last_column(&mut self)
        ensures { self.new ≡ record self.old { selected_column = Some greatest } }
    {
        self.selected_column = Some(usize::MAX);
    }

    /// Selects the row `amount` places further down, counted from the first if none is selected.
    pub fn scroll_down_by(&mut self, amount: u16)
        ensures { self.new ≡ record self.old { selected = Some (forward_by self.old.selected amount) } }
    {
        self.selected = Some(forward_by(self.selected, amount));
    }

    /// Selects the row `amount` places further up, at least the first.
    pub fn scroll_up_by(&mut self, amount: u16)
        ensures { self.new ≡ record self.old { selected = Some (back_by self.old.selected amount) } }
    {
        self.selected = Some(back_by(self.selected, amount));
    }

    /// Selects the column `amount` places further right, counted from the first if none is selected.
    pub fn scroll_right_by(&mut self, amount: u16)
        ensures { self.new ≡ record self.old { selected_column = Some (forward_by self.old.selected_column amount) } }
    {
        self.selected_column = Some(forward_by(self.selected_column, amount));
    }

    /// Selects the column `amount` places further left, at least the first.
    pub fn scroll_left_by(&mut self, amount: u16)
        ensures { self.new ≡ record self.old { selected_column = Some (back_by self.old.selected_column amount) } }
    {
        self.selected_column = Some(back_by(self.selected_column, amount));
    }

    /// Creates the state that a drawing leaves.
    pub(crate) fn after_drawing(
        offset: usize,
        selected: Option<usize>,
        column: Option<usize>,
    ) -> TableState
        ensures { result ≡ record { offset = offset; selected = selected; selected_column = column } }
    {
        TableState {
            offset,
            selected,
            selected_column: column,
        }
    }
}

fn row_of_cell(cell: Option<(usize, usize)>) -> Option<usize>
    ensures { result ≡ row_of_cell cell }
{
    match cell {
        Some((row, _)) => Some(row),
        None => None,
    }
}

fn column_of_cell(cell: Option<(usize, usize)>) -> Option<usize>
    ensures { result ≡ column_of_cell cell }
{
    match cell {
        Some((_, column)) => Some(column),
        None => None,
    }
}
