//! The fields of `table`.

ghost use Rattle.std.specs.Prelude.{◌≡◌, IfOk, map, option_map, unwrap_or};
ghost use Rattle.std.specs.Option.{option_or};
ghost use Rattle.serde_json.specs.View.{view};
ghost use Rattle.tui_frames.specs.Block.{block_data};
ghost use Rattle.tui_table.specs.Row.{row_data};
ghost use Rattle.tui_table.specs.Table.{table_data};
ghost use Rattle.tui_schema.specs.Items.TableFields.{
  in_widths,
  shown_table,
  table_layout_of,
  table_marks_of,
  table_state_of,
  table_with_rows,
  widths_of,
};
ghost use Rattle.tui_json.specs.Refusals.{Gives};
ghost use Rattle.tui_text.specs.Text.{empty_text, raw_text, text_data};

use crate::bad_field::BadField;
use crate::field::Field;
use crate::items::frame::{read_frame, read_style};
use crate::kinds::Symbol;
use serde_json::Value;
use std::alloc::Global;
use tui_cells::{Mem, Style};
use tui_frames::Block;
use tui_json::{Fields, InputError, optional, optional_named, required};
use tui_layout::{Constraint, Flex, HighlightSpacing};
use tui_table::{Row, Table, TableState, WidthsError};
use tui_text::Text;

/// Returns a table of rows in columns of these widths.
fn in_widths<'v>(
    alloc: Global,
    item: Option<usize>,
    rows: Vec<Row<'v>>,
    widths: Vec<Constraint>,
) -> Result<Table<'v>, InputError<BadField>>
    ensures { Gives table_data result (in_widths item (map row_data rows.entry.items) widths.items) }
{
    match Table::new(alloc, rows, widths) {
        Ok(table) => Ok(table),
        Err(WidthsError::PercentageAbove100 { .. }) => Err(InputError::Refused(
            Field::Widths.refusal(item),
        )),
        Err(WidthsError::NoMemory) => Err(InputError::NoMemory),
    }
}

/// Returns the table in this block, if there is one, and with this style.
fn framed<'v>(table: Table<'v>, block: Option<Block<'v>>, style: Style) -> Table<'v>
    ensures { table_data result ≡ record (table_data table.entry) {
      block = option_or (option_map block_data block.entry) (table_data table.entry).block;
      style = style;
    } }
{
    let table = table.style(style);
    match block {
        Some(block) => table.block(block),
        None => table,
    }
}

/// Returns the table with this header and this footer, if they are given.
fn edged<'v>(table: Table<'v>, header: Option<Row<'v>>, footer: Option<Row<'v>>) -> Table<'v>
    ensures { table_data result ≡ record (table_data table.entry) {
      header = option_or (option_map row_data header.entry) (table_data table.entry).header;
      footer = option_or (option_map row_data footer.entry) (table_data table.entry).footer;
    } }
{
    let table = match header {
        Some(header) => table.header(header),
        None => table,
    };
    match footer {
        Some(footer) => table.footer(footer),
        None => table,
    }
}

fn symbol_text<'v>(alloc: Global, symbol: Option<Symbol<'v>>) -> Mem<Text<'v>>
    ensures { IfOk result (λ text. text_data text ≡ unwrap_or (option_map (λ s. raw_text s.0.now) symbol.entry) empty_text) }
{
    match symbol {
        Some(Symbol(symbol)) => Text::raw(alloc, symbol),
        None => Ok(Text::new(alloc)),
    }
}

#[tactic(auto, using(crate::proofs::TableWidths::same_widths), unfolding(crate::specs::Items::TableFields::widths_of))]
fn read_widths(
    alloc: Global,
    item: Option<usize>,
    value: &Value,
) -> Result<Vec<Constraint>, InputError<BadField>>
    ensures { Gives (λ widths. widths.items) result (widths_of item (view value.now)) }
{
    let widths: Option<Vec<Constraint>> = optional(alloc, item, Field::Widths, value)?;
    Ok(widths.unwrap_or(Vec::new(alloc)))
}

/// Reads the rows, the header, the footer and the column widths of a table.
#[tactic(auto, unfolding(crate::specs::Items::TableFields::table_with_rows))]
fn read_rows<'v>(
    alloc: Global,
    item: Option<usize>,
    value: &'v Value,
) -> Result<Table<'v>, InputError<BadField>>
    ensures { Gives table_data result (table_with_rows item (view value.now)) }
{
    let rows: Vec<Row<'v>> = required(alloc, item, Field::Rows, value)?;
    let header: Option<Row<'v>> = optional(alloc, item, Field::Header, value)?;
    let footer: Option<Row<'v>> = optional(alloc, item, Field::Footer, value)?;
    let widths = read_widths(alloc, item, value)?;
    let table = in_widths(alloc, item, rows, widths)?;
    Ok(edged(table, header, footer))
}

/// Reads the column spacing, and the styles of the selected row, column and cell.
#[tactic(auto, unfolding(crate::specs::Items::TableFields::table_marks_of))]
fn read_marks(
    alloc: Global,
    item: Option<usize>,
    value: &Value,
) -> Result<(u16, Style, Style, Style), InputError<BadField>>
    ensures { Gives (λ marks. marks) result (table_marks_of item (view value.now)) }
{
    let spacing: Option<u16> = optional(alloc, item, Field::ColumnSpacing, value)?;
    let row = read_style(alloc, item, Field::RowHighlightStyle, value)?;
    let column = read_style(alloc, item, Field::ColumnHighlightStyle, value)?;
    let cell = read_style(alloc, item, Field::CellHighlightStyle, value)?;
    Ok((spacing.unwrap_or(1), row, column, cell))
}

/// Reads the symbol beside the selected row, and how the columns are placed.
#[tactic(auto, unfolding(crate::specs::Items::TableFields::table_layout_of))]
fn read_layout<'v>(
    alloc: Global,
    item: Option<usize>,
    value: &'v Value,
) -> Result<(Text<'v>, HighlightSpacing, Flex), InputError<BadField>>
    ensures { Gives (λ layout. (text_data layout.0, layout.1, layout.2)) result (table_layout_of item (view value.now)) }
{
    let symbol: Option<Symbol<'v>> = optional(alloc, item, Field::HighlightSymbol, value)?;
    let spacing: Option<HighlightSpacing> = optional_named(
        alloc,
        item,
        Field::HighlightSpacing,
        value,
    )?;
    let flex: Option<Flex> = optional_named(alloc, item, Field::Flex, value)?;
    let symbol = symbol_text(alloc, symbol)?;
    let spacing = spacing.unwrap_or(HighlightSpacing::WhenSelected);
    Ok((symbol, spacing, flex.unwrap_or(Flex::Start)))
}

/// Returns the table with these marks and this layout.
fn marked<'v>(
    table: Table<'v>,
    marks: (u16, Style, Style, Style),
    layout: (Text<'v>, HighlightSpacing, Flex),
) -> Table<'v>
    ensures { table_data result ≡ record (table_data table.entry) {
      spacing = marks.0;
      row_style = marks.1;
      column_style = marks.2;
      cell_style = marks.3;
      symbol = text_data layout.entry.0;
      symbol_spacing = layout.entry.1;
      flex = layout.entry.2;
    } }
{
    let (spacing, row, column, cell) = marks;
    let (symbol, symbol_spacing, flex) = layout;
    table
        .column_spacing(spacing)
        .row_highlight_style(row)
        .column_highlight_style(column)
        .cell_highlight_style(cell)
        .highlight_symbol(symbol)
        .highlight_spacing(symbol_spacing)
        .flex(flex)
}

#[tactic(auto, unfolding(crate::specs::Items::TableFields::table_state_of))]
fn read_state<'v>(
    alloc: Global,
    item: Option<usize>,
    value: &'v Value,
) -> Result<TableState, InputError<BadField>>
    ensures { Gives (λ s. s) result (table_state_of item (view value.now)) }
{
    let offset: Option<u64> = optional(alloc, item, Field::Offset, value)?;
    let selected: Option<u64> = optional(alloc, item, Field::Selected, value)?;
    let column: Option<u64> = optional(alloc, item, Field::SelectedColumn, value)?;
    Ok(
        TableState::new()
            .with_offset(offset.unwrap_or(0) as usize)
            .with_selected(selected.map(|place| place as usize))
            .with_selected_column(column.map(|place| place as usize)),
    )
}

/// Reads a table and its initial state.
#[tactic(auto, unfolding(crate::specs::Items::TableFields::shown_table))]
pub(crate) fn read_table<'v>(
    alloc: Global,
    item: Option<usize>,
    value: &'v Value,
) -> Result<(Table<'v>, TableState), InputError<BadField>>
    ensures { Gives (λ p. (table_data p.0, p.1)) result (shown_table item (view value.now)) }
{
    let (block, style) = read_frame(alloc, item, value)?;
    let table = framed(read_rows(alloc, item, value)?, block, style);
    let marks = read_marks(alloc, item, value)?;
    let layout = read_layout(alloc, item, value)?;
    let state = read_state(alloc, item, value)?;
    Ok((marked(table, marks, layout), state))
}
