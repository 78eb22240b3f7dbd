//! The rows of a table, with what is computed from all of them.

ghost use Rattle.std.specs.Prelude.{◌≡◌, ◌≤◌, IfOk, OnErr, OnOk, length, map, true};
ghost use Rattle.std.specs.Cmp.Lexicographic.{lists_equiv, lists_per, pointwise};
ghost use Rattle.std.specs.Hash as fed;
ghost use Rattle.std.specs.Hash.{items_Alike};
ghost use Rattle.tui_layout.specs.Found.{window_of};
ghost use Rattle.tui_table.specs.Row.{heights_of, most_cells, row_data};
ghost use Rattle.tui_table.specs.contracts.row.RowEq.TheImpl.Laws as rows_equal;
ghost use Rattle.tui_table.specs.contracts.row.RowHash.TheImpl.Laws as rows_hash;
ghost use Rattle.tui_table.specs.contracts.row.RowPartialEq.TheImpl.Laws as rows_agree;

use crate::row::Row;
use std::fmt;
use std::hash::{Hash, Hasher};
use std::marker::Model;
use tui_cells::Mem;
use tui_layout::{Sums, Window, window_of};

/// Rows, the sums of their heights, and the greatest number of cells in a row. The last two follow from the rows, so
/// `PartialEq`, `Hash` and `Debug` leave them out.
#[derive(Drop)]
pub struct TableRows<'a> {
    rows: Vec<Row<'a>>,
    heights: Sums,
    most: usize,
}

impl<'a> Model for TableRows<'a> {
    ghost use Rattle.std.specs.Prelude.{◌≡◌, List, map};
    ghost use Rattle.tui_table.specs.Row.{heights_of, most_cells, row_data};
    ghost use Rattle.tui_table.specs.declared.row.Row.{Row};

    ghost Value = { List Row };

    ghost view = { λ r. r.rows.items };

    ghost invariant = { λ r. (r.heights ≡ heights_of (map row_data r.rows.items)) × (r.most ≡ most_cells (map row_data r.rows.items)) };
}

impl<'a> TableRows<'a> {
    /// Takes these rows. Fails with `NoMemory` if there is no memory for the sums of their heights.
    pub(crate) fn new(rows: Vec<Row<'a>>) -> Mem<TableRows<'a>>
        ensures { IfOk result (λ kept. kept ≡ rows.entry.items) }
    {
        let heights = heights_of(&rows)?;
        let most = most_cells(&rows);
        Ok(TableRows {
            rows,
            heights,
            most,
        })
    }

    /// Replaces the rows. If it fails with `NoMemory`, the old rows stay.
    pub(crate) fn replace(&mut self, rows: Vec<Row<'a>>) -> Mem<()>
        ensures ok { OnOk result (self.new ≡ rows.entry.items) }
        ensures err { OnErr result (self.new ≡ self.old) }
    {
        let heights = heights_of(&rows)?;
        self.most = most_cells(&rows);
        self.heights = heights;
        self.rows = rows;
        Ok(())
    }

    pub(crate) fn as_slice(&self) -> &[Row<'a>]
        ensures { result.now ≡ self.now }
    {
        &self.rows
    }

    /// Returns the greatest number of cells in a row, or 0 if there are no rows.
    pub(crate) fn most_cells(&self) -> usize
        ensures { result ≡ most_cells (map row_data self.now) }
    {
        self.most
    }

    /// Returns the rows that are shown in `room` rows of the screen.
    pub(crate) fn window(&self, room: u16, offset: usize, selected: Option<usize>) -> Window
        ensures found { result ≡ window_of (heights_of (map row_data self.now)) room offset selected 0 }
        ensures order { (result.first ≤ result.end) × (result.end ≤ length self.now) }
    {
        window_of(
            *self.rows.allocator(),
            &self.heights,
            u64::from(room),
            offset,
            selected,
            0,
        )
    }

    /// Returns equal rows. Fails with `NoMemory` if there is no memory for them.
    pub(crate) fn clone(&self) -> Mem<TableRows<'a>>
        ensures is { IfOk result (λ rows. map row_data rows ≡ map row_data self.now) }
        ensures equal { IfOk result (λ rows. ⟦<TableRows<'a> as PartialEq>⟧.eq rows self.now ≡ true) }
    {
        let mut rows = Vec::with_capacity(*self.rows.allocator(), self.rows.len())?;
        for row in &self.rows {
            rows.push(row.clone()?)?;
        }
        TableRows::new(rows)
    }
}

fn heights_of(rows: &Vec<Row<'_>>) -> Mem<Sums>
    ensures { IfOk result (λ heights. heights ≡ heights_of (map row_data rows.now.items)) }
{
    let mut heights = Sums::with_capacity(*rows.allocator(), rows.len())?;
    for row in rows {
        heights.push(u64::from(row.outer_height()))?;
    }
    Ok(heights)
}

fn most_cells(rows: &[Row<'_>]) -> usize
    ensures { result ≡ most_cells (map row_data rows.now) }
{
    let mut most = 0usize;
    for row in rows {
        most = most.max(row.cells.len());
    }
    most
}

impl<'a> PartialEq for TableRows<'a> {
    ghost eq = { pointwise ⟦<Row<'a> as PartialEq>⟧.eq };

    ghost laws = { lists_per rows_agree.laws-law };

    fn eq(&self, other: &TableRows<'a>) -> bool {
        self.rows == other.rows
    }
}

impl<'a> Eq for TableRows<'a> {
    ghost laws = { lists_equiv rows_equal.laws-law };
}

impl<'a> Hash for TableRows<'a> {
    ghost hash_input = { fed.slice ⟦<Row<'a> as Hash>⟧.hash_input };

    ghost respects_eq = { (items_Alike (record { fed = rows_hash.respects_eq-law })).fed };

    fn hash<H: Hasher>(&self, state: &mut H) {
        self.rows.hash(state);
    }
}

impl<'a> fmt::Debug for TableRows<'a> {
    fn fmt<W: fmt::Write>(&self, f: &mut fmt::Formatter<W>) -> fmt::Result {
        self.rows.fmt(f)
    }
}
