//! Cells of a table.

ghost use Rattle.std.specs.Prelude.{◌≡◌, IfOk, true};
ghost use Rattle.tui_table.specs.Cell.{cell_data, cell_of};
ghost use Rattle.tui_text.specs.Text.{text_data};

use std::mem;
use tui_cells::{Mem, Style, Styled};
use tui_text::Text;

/// A text in one column of a table, or across several.
#[derive(Debug, PartialEq, Eq, Hash)]
pub struct Cell<'a> {
    pub(crate) content: Text<'a>,
    pub(crate) style: Style,
    pub(crate) column_span: u16,
}

// Written out, so that dependent crates have nothing to prove about its fields when they drop it.
impl<'a> Drop for Cell<'a> {
    fn drop(self) {
        let Cell {
            content,
            style,
            column_span,
        } = self;
    }
}

impl<'a> Cell<'a> {
    /// Creates a cell of this text in one column, without a style of its own.
    pub fn new(content: Text<'a>) -> Cell<'a>
        ensures { cell_data result ≡ cell_of (text_data content.entry) }
    {
        Cell {
            content,
            style: Style::new(),
            column_span: 1,
        }
    }

    /// Replaces the text.
    pub fn content(mut self, content: Text<'a>) -> Cell<'a>
        ensures { cell_data result ≡ record (cell_data self.entry) { content = text_data content.entry } }
    {
        drop(mem::replace(&mut self.content, content));
        self
    }

    /// Sets how many columns the cell takes. With 0 it takes none and is not drawn. In a header or a footer each cell
    /// takes one, whatever its span.
    pub fn column_span(mut self, columns: u16) -> Cell<'a>
        ensures { cell_data result ≡ record (cell_data self.entry) { span = columns } }
    {
        self.column_span = columns;
        self
    }

    /// Sets the style under the text.
    pub fn style(mut self, style: Style) -> Cell<'a>
        ensures { cell_data result ≡ record (cell_data self.entry) { style = style } }
    {
        self.style = style;
        self
    }

    /// Returns an equal cell. Fails with `NoMemory` if there is no memory for the text.
    pub fn clone(&self) -> Mem<Cell<'a>>
        ensures is { IfOk result (λ cell. cell_data cell ≡ cell_data self.now) }
        ensures equal { IfOk result (λ cell. ⟦<Cell<'a> as PartialEq>⟧.eq cell self.now ≡ true) }
    {
        Ok(Cell {
            content: self.content.clone()?,
            style: self.style,
            column_span: self.column_span,
        })
    }
}

impl<'a> Styled for Cell<'a> {
    ghost style_of = { λ cell. cell.style };

    ghost with_style = { λ cell style. record cell { style = style } };

    fn style(&self) -> Style {
        self.style
    }

    fn set_style(mut self, style: Style) -> Cell<'a> {
        self.style = style;
        self
    }
}
