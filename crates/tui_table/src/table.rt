//! Tables.

ghost use Rattle.std.specs.Prelude.{◌≡◌, ◌↔◌, ℕ, Err, IfOk, OnErr, OnOk, Some, map, option_map, true};
ghost use Rattle.tui_frames.specs.Block.{block_data};
ghost use Rattle.tui_table.specs.Row.{row_data};
ghost use Rattle.tui_table.specs.Table.{table_data, table_of};
ghost use Rattle.tui_table.specs.Widths.{first_above_100};
ghost use Rattle.tui_text.specs.Text.{text_data};

mod areas;
mod rendering;

use crate::row::Row;
use crate::rows::TableRows;
use crate::widths::{check_widths, clone_widths};
use crate::widths_error::WidthsError;
use std::alloc::Global;
use std::mem;
use tui_cells::{Mem, Style, Styled};
use tui_frames::{Block, clone_if_some};
use tui_layout::{Constraint, Flex, HighlightSpacing};
use tui_text::Text;

/// Rows of cells in columns, which may have a header above and a footer below. A row and a column may be selected.
#[derive(Debug, PartialEq, Eq, Hash)]
pub struct Table<'a> {
    rows: TableRows<'a>,
    header: Option<Row<'a>>,
    footer: Option<Row<'a>>,
    block: Option<Block<'a>>,
    highlight_symbol: Text<'a>,
    widths: Vec<Constraint>,
    column_spacing: u16,
    style: Style,
    row_highlight_style: Style,
    column_highlight_style: Style,
    cell_highlight_style: Style,
    highlight_spacing: HighlightSpacing,
    flex: Flex,
}

// Written out, so that dependent crates have nothing to prove about its fields when they drop it.
impl<'a> Drop for Table<'a> {
    fn drop(self) {
        let Table {
            rows,
            header,
            footer,
            block,
            highlight_symbol,
            widths,
            column_spacing,
            style,
            row_highlight_style,
            column_highlight_style,
            cell_highlight_style,
            highlight_spacing,
            flex,
        } = self;
    }
}

impl<'a> Table<'a> {
    /// Creates a table of these rows. Its columns have these widths, or equal widths if `widths` is empty, and are one
    /// column of the screen apart. It has no header, footer, block, styles or highlight symbol.
    ///
    /// Fails with `PercentageAbove100` exactly if a width is a percentage above 100, and reports the first such width.
    /// This is checked before anything is allocated. Fails with `NoMemory` if there is no memory for what is computed
    /// from the rows.
    pub fn new(
        alloc: Global,
        rows: Vec<Row<'a>>,
        widths: Vec<Constraint>,
    ) -> Result<Table<'a>, WidthsError>
        ensures ok { IfOk result (λ table. table_data table ≡ table_of (map row_data rows.entry.items) widths.items) }
        ensures rejected { (index : ℕ) → (result ≡ Err (WidthsError.PercentageAbove100 index)) ↔ (first_above_100 widths.items ≡ Some index) }
    {
        check_widths(&widths)?;
        let rows = TableRows::new(rows)?;
        Ok(Table {
            rows,
            header: None,
            footer: None,
            block: None,
            highlight_symbol: Text::new(alloc),
            widths,
            column_spacing: 1,
            style: Style::new(),
            row_highlight_style: Style::new(),
            column_highlight_style: Style::new(),
            cell_highlight_style: Style::new(),
            highlight_spacing: HighlightSpacing::WhenSelected,
            flex: Flex::Start,
        })
    }

    /// Replaces the rows. If it fails with `NoMemory`, the table is unchanged and the new rows are dropped.
    pub fn rows(&mut self, rows: Vec<Row<'a>>) -> Mem<()>
        ensures ok { OnOk result (table_data self.new ≡ record (table_data self.old) { rows = map row_data rows.entry.items }) }
        ensures err { OnErr result (table_data self.new ≡ table_data self.old) }
    {
        self.rows.replace(rows)
    }

    /// Replaces the widths of the columns. Does not allocate. Fails with `PercentageAbove100` exactly if a width is a
    /// percentage above 100, and reports the first such width. Then the table is unchanged and the new widths are
    /// dropped.
    pub fn widths(&mut self, widths: Vec<Constraint>) -> Result<(), WidthsError>
        ensures ok { OnOk result (table_data self.new ≡ record (table_data self.old) { widths = widths.items }) }
        ensures rejected { (index : ℕ) → (result ≡ Err (WidthsError.PercentageAbove100 index)) ↔ (first_above_100 widths.items ≡ Some index) }
        ensures err { OnErr result (table_data self.new ≡ table_data self.old) }
        ensures memory { result ≡ Err WidthsError.NoMemory → ⊥ }
    {
        check_widths(&widths)?;
        self.widths = widths;
        Ok(())
    }

    /// Sets the row above the rows. Each of its cells takes one column.
    pub fn header(mut self, header: Row<'a>) -> Table<'a>
        ensures { table_data result ≡ record (table_data self.entry) { header = Some (row_data header.entry) } }
    {
        self.header = Some(header);
        self
    }

    /// Sets the row below the rows. Each of its cells takes one column.
    pub fn footer(mut self, footer: Row<'a>) -> Table<'a>
        ensures { table_data result ≡ record (table_data self.entry) { footer = Some (row_data footer.entry) } }
    {
        self.footer = Some(footer);
        self
    }

    /// Sets how many columns of the screen are left free between two columns.
    pub fn column_spacing(mut self, spacing: u16) -> Table<'a>
        ensures { table_data result ≡ record (table_data self.entry) { spacing = spacing } }
    {
        self.column_spacing = spacing;
        self
    }

    /// Surrounds the table with a block. The table is drawn inside it.
    pub fn block(mut self, block: Block<'a>) -> Table<'a>
        ensures { table_data result ≡ record (table_data self.entry) { block = Some (block_data block.entry) } }
    {
        self.block = Some(block);
        self
    }

    /// Sets the base style of the whole table.
    pub fn style(mut self, style: Style) -> Table<'a>
        ensures { table_data result ≡ record (table_data self.entry) { style = style } }
    {
        self.style = style;
        self
    }

    /// Sets the style that is drawn over the selected row, as `row_highlight_style` does.
    pub fn highlight_style(self, style: Style) -> Table<'a>
        ensures { table_data result ≡ record (table_data self.entry) { row_style = style } }
    {
        self.row_highlight_style(style)
    }

    /// Sets the style that is drawn over the selected row.
    pub fn row_highlight_style(mut self, style: Style) -> Table<'a>
        ensures { table_data result ≡ record (table_data self.entry) { row_style = style } }
    {
        self.row_highlight_style = style;
        self
    }

    /// Sets the style that is drawn over the selected column.
    pub fn column_highlight_style(mut self, style: Style) -> Table<'a>
        ensures { table_data result ≡ record (table_data self.entry) { column_style = style } }
    {
        self.column_highlight_style = style;
        self
    }

    /// Sets the style that is drawn over the cell where the selected row and the selected column meet.
    pub fn cell_highlight_style(mut self, style: Style) -> Table<'a>
        ensures { table_data result ≡ record (table_data self.entry) { cell_style = style } }
    {
        self.cell_highlight_style = style;
        self
    }

    /// Sets the text at the left of the selected row.
    pub fn highlight_symbol(mut self, symbol: Text<'a>) -> Table<'a>
        ensures { table_data result ≡ record (table_data self.entry) { symbol = text_data symbol.entry } }
    {
        drop(mem::replace(&mut self.highlight_symbol, symbol));
        self
    }

    /// Sets when columns of the screen are reserved for the highlight symbol.
    pub fn highlight_spacing(mut self, spacing: HighlightSpacing) -> Table<'a>
        ensures { table_data result ≡ record (table_data self.entry) { symbol_spacing = spacing } }
    {
        self.highlight_spacing = spacing;
        self
    }

    /// Sets where the columns are placed if they don't fill the width.
    pub fn flex(mut self, flex: Flex) -> Table<'a>
        ensures { table_data result ≡ record (table_data self.entry) { flex = flex } }
    {
        self.flex = flex;
        self
    }

    /// Returns an equal table. Fails with `NoMemory` if there is no memory for what it holds.
    pub fn clone(&self) -> Mem<Table<'a>>
        ensures is { IfOk result (λ table. table_data table ≡ table_data self.now) }
        ensures equal { IfOk result (λ table. ⟦<Table<'a> as PartialEq>⟧.eq table self.now ≡ true) }
    {
        Ok(Table {
            rows: self.rows.clone()?,
            header: clone_row_if_some(&self.header)?,
            footer: clone_row_if_some(&self.footer)?,
            block: clone_if_some(&self.block)?,
            highlight_symbol: self.highlight_symbol.clone()?,
            widths: clone_widths(&self.widths)?,
            ..*self
        })
    }
}

/// Returns an equal row, if there is a row.
fn clone_row_if_some<'a>(row: &Option<Row<'a>>) -> Mem<Option<Row<'a>>>
    ensures is { IfOk result (λ copy. option_map row_data copy ≡ option_map row_data row.now) }
    ensures equal { IfOk result (λ copy. ⟦<Option<Row<'a>> as PartialEq>⟧.eq copy row.now ≡ true) }
{
    match row {
        None => Ok(None),
        Some(row) => Ok(Some(row.clone()?)),
    }
}

impl<'a> Styled for Table<'a> {
    ghost style_of = { λ table. table.style };

    ghost with_style = { λ table style. record table { style = style } };

    fn style(&self) -> Style {
        self.style
    }

    fn set_style(mut self, style: Style) -> Table<'a> {
        self.style = style;
        self
    }
}
