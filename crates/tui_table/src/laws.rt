//! Laws of all tables.

ghost use Rattle.tui_table.specs.Laws.{ColumnsAreInOrder, RedrawIsIdempotent, SelectedIsShown};

/// Laws of every table. A selected row that fits between the header and the footer with its margins is shown in full.
/// Drawn again in the same clip, a table keeps its state and draws the same strokes. Its columns are side by side,
/// after the columns of the highlight symbol.
pub fn table_laws()
    ensures shown { SelectedIsShown }
    ensures again { RedrawIsIdempotent }
    ensures columns { ColumnsAreInOrder }
{}
