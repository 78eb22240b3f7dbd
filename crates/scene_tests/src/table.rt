//! Tables by the calls that no program makes.

use crate::drawing::draws;
use std::alloc::Global;
use tui_cells::{Mem, NoMemory};
use tui_layout::Constraint;
use tui_table::{Cell, Row, Table, WidthsError};
use tui_text::Text;

/// One row of one cell.
fn rows(alloc: Global, text: &'static str) -> Mem<Vec<Row<'static>>> {
    let cell = Cell::new(Text::raw(alloc, text)?);
    let row = Row::new(vec![in alloc; cell]?);
    Ok(vec![in alloc; row]?)
}

/// One column.
fn widths(alloc: Global, width: Constraint) -> Mem<Vec<Constraint>> {
    Ok(vec![in alloc; width]?)
}

fn table(alloc: Global) -> Mem<Table<'static>> {
    let widths = widths(alloc, Constraint::Length(2))?;
    match Table::new(alloc, rows(alloc, "a")?, widths) {
        Ok(table) => Ok(table),
        Err(_) => Err(NoMemory),
    }
}

/// A table whose rows have been replaced.
fn replaced(alloc: Global) -> Mem<Table<'static>> {
    let mut table = table(alloc)?;
    table.rows(rows(alloc, "b")?)?;
    Ok(table)
}

#[test]
fn a_table_is_drawn_without_a_state(rt: HostRuntime) -> Mem<()> {
    let copy = replaced(rt.alloc())?.clone()?;
    assert!(&rt; draws(rt.alloc(), &copy, (2, 1), "b \n")?);
    Ok(())
}

#[test]
fn widths_are_replaced_or_refused(rt: HostRuntime) -> Mem<()> {
    let mut table = table(rt.alloc())?;
    let one = widths(rt.alloc(), Constraint::Length(1))?;
    assert!(&rt; table.widths(one) == Ok(()));
    let refused = widths(rt.alloc(), Constraint::Percentage(101))?;
    assert!(&rt; table.widths(refused) == Err(WidthsError::PercentageAbove100 { index: 0 }));
    Ok(())
}
