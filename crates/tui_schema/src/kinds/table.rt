//! Cells of a table: an object with `text`, or else text. Rows of a table: an array of cells, or an object with
//! `cells`.

ghost use Rattle.std.specs.Prelude.{◌≡◌, IfOk, option_map};
ghost use Rattle.serde_json.specs.View.{view};
ghost use Rattle.tui_json.specs.Faults.{fault_data};
ghost use Rattle.tui_schema.specs.Faults.{row_members};
ghost use Rattle.tui_schema.specs.Kinds.Table.{row_of, table_cell_of};

use crate::field::Field;
use crate::kinds::member::{
    elements_fault, member, member_fault, optional_member, optional_member_fault, part_fault, read,
};
use crate::kinds::style::{style_member, style_member_fault};
use serde_json::Value;
use std::alloc::Global;
use tui_cells::Mem;
use tui_json::{Explains, Fault, Kind, KindError, Wanted};
use tui_table::{Cell, Row};
use tui_text::Text;

impl<'v> Kind<'v, Field> for Cell<'v> {
    ghost use Rattle.tui_table.specs.Cell.{CellData, cell_data};

    ghost AsData = { CellData };

    ghost as_data = { cell_data };

    ghost kind = { table_cell_of };

    #[tactic(auto, unfolding(crate::specs::Kinds::Table::table_cell_of))]
    fn read(alloc: Global, value: &'v Value) -> Result<Cell<'v>, KindError> {
        match value.get("text") {
            None => Ok(Cell::new(read(alloc, value)?)),
            Some(content) => {
                let content = read(alloc, content)?;
                let style = style_member(alloc, value, "style")?;
                let span: Option<u16> = optional_member(alloc, value, "column_span")?;
                let cell = Cell::new(content).style(style);
                Ok(cell.column_span(span.unwrap_or(1)))
            }
        }
    }
}

impl<'v> Explains<'v, Field> for Cell<'v> {
    ghost use Rattle.tui_schema.specs.Faults.{a_list_item, cell_parts};

    ghost wanted = { a_list_item };

    ghost part_fault = { cell_parts };

    fn wanted() -> Wanted<'v> {
        Wanted::Words("a text, or an object with `text`")
    }

    #[tactic(auto, unfolding(crate::specs::Faults::cell_parts))]
    fn part_fault(alloc: Global, value: &'v Value) -> Mem<Option<Fault<'v>>> {
        match value.get("text") {
            None => part_fault::<Text<'v>>(alloc, value),
            Some(_) => {
                let content = member_fault::<Text<'v>>(alloc, value, "text")?;
                let style = style_member_fault(alloc, value)?;
                let span = optional_member_fault::<u16>(alloc, value, "column_span")?;
                Ok(content.or(style).or(span))
            }
        }
    }
}

impl<'v> Kind<'v, Field> for Row<'v> {
    ghost use Rattle.tui_table.specs.Row.{RowData, row_data};

    ghost AsData = { RowData };

    ghost as_data = { row_data };

    ghost kind = { row_of };

    #[tactic(auto, unfolding(crate::specs::Kinds::Table::row_of))]
    fn read(alloc: Global, value: &'v Value) -> Result<Row<'v>, KindError> {
        match value {
            Value::Array(_) => {
                let cells: Vec<Cell<'v>> = read(alloc, value)?;
                Ok(Row::new(cells))
            }
            _ => {
                let cells: Vec<Cell<'v>> = member(alloc, value, "cells")?;
                let height: Option<u16> = optional_member(alloc, value, "height")?;
                let top: Option<u16> = optional_member(alloc, value, "top_margin")?;
                let bottom: Option<u16> = optional_member(alloc, value, "bottom_margin")?;
                let style = style_member(alloc, value, "style")?;
                Ok(
                    Row::new(cells)
                        .height(height.unwrap_or(1))
                        .top_margin(top.unwrap_or(0))
                        .bottom_margin(bottom.unwrap_or(0))
                        .style(style),
                )
            }
        }
    }
}

impl<'v> Explains<'v, Field> for Row<'v> {
    ghost use Rattle.tui_schema.specs.Faults.{a_row, row_parts};

    ghost wanted = { a_row };

    ghost part_fault = { row_parts };

    fn wanted() -> Wanted<'v> {
        Wanted::Words("an array of cells, or an object with `cells`")
    }

    #[tactic(auto, unfolding(crate::specs::Faults::row_parts))]
    fn part_fault(alloc: Global, value: &'v Value) -> Mem<Option<Fault<'v>>> {
        match value {
            Value::Array(_) => elements_fault::<Cell<'v>>(alloc, value),
            Value::Object(_) => row_members_fault(alloc, value),
            _ => Ok(None),
        }
    }
}

/// Returns the fault of the first member of an object with `cells` that has one.
fn row_members_fault<'v>(alloc: Global, value: &'v Value) -> Mem<Option<Fault<'v>>>
    ensures { IfOk result (λ found. option_map fault_data found ≡ row_members (view value.now)) }
{
    let cells = member_fault::<Vec<Cell<'v>>>(alloc, value, "cells")?;
    let height = optional_member_fault::<u16>(alloc, value, "height")?;
    let top = optional_member_fault::<u16>(alloc, value, "top_margin")?;
    let bottom = optional_member_fault::<u16>(alloc, value, "bottom_margin")?;
    let style = style_member_fault(alloc, value)?;
    Ok(cells.or(height).or(top).or(bottom).or(style))
}
