//! The sides and corners of a block.

ghost use Rattle.std.specs.Prelude.{◌≡◌, ◌≤◌, ◌&&◌, [], ◌∷◌, IsOk, OnOk};
ghost use Rattle.tui_cells.specs.Cell.{IsAllocationFree, set_style, merge};
ghost use Rattle.tui_cells.specs.Layers.{KeptOutside, Painted, over};
ghost use Rattle.tui_cells.specs.Rect.{covers};
ghost use Rattle.tui_text.specs.Painting.{cells_at};
ghost use Rattle.tui_frames.specs.Block.{block_data};
ghost use Rattle.tui_frames.specs.Borders.{has};
ghost use Rattle.tui_frames.specs.AllocationFree.{AreAllocationFreeBorders, IsAllocationFreeIf};
ghost use Rattle.tui_frames.specs.Strokes.{
  border_layers,
  column_of,
  column_side,
  corner_layers,
  corners_layers,
  gap,
  joins,
  last_column,
  last_row,
  row_of,
  row_side,
  sides_layers,
};

use crate::block::Block;
use crate::borders::Borders;
use std::alloc::Global;
use tui_cells::{Buffer, Mem, MergeStrategy, Position, Rect};

/// A side of the border: its part of the clip, and its symbol.
#[derive(Clone, Copy)]
struct BorderSide<'s> {
    border: Borders,
    part: Rect,
    symbol: &'s str,
}

/// A corner of the border: the two borders that meet there, its cell, and its symbol.
#[derive(Clone, Copy)]
struct BorderCorner<'s> {
    borders: (Borders, Borders),
    cell: Position,
    symbol: &'s str,
}

fn joins(strategy: MergeStrategy) -> bool
    ensures { result ≡ joins strategy }
{
    match strategy {
        MergeStrategy::Replace => false,
        _ => true,
    }
}

fn last_column(clip: Rect) -> u16
    ensures { result ≡ last_column clip }
{
    clip.right().saturating_sub(1)
}

pub(crate) fn last_row(clip: Rect) -> u16
    ensures { result ≡ last_row clip }
{
    clip.bottom().saturating_sub(1)
}

fn column_of(clip: Rect, x: u16) -> Rect
    ensures { result ≡ column_of clip x }
{
    Rect {
        x,
        width: 1,
        ..clip
    }
}

pub(crate) fn row_of(clip: Rect, y: u16) -> Rect
    ensures { result ≡ row_of clip y }
{
    Rect {
        y,
        height: 1,
        ..clip
    }
}

fn cell_at(position: Position) -> Rect
    ensures { result ≡ cells_at position.x position.y 1 }
{
    Rect {
        x: position.x,
        y: position.y,
        width: 1,
        height: 1,
    }
}

impl<'a> Block<'a> {
    ghost use Rattle.tui_frames.specs.Borders.{bottom, left, right, top};

    fn has(&self, side: Borders) -> bool
        ensures { result ≡ has (block_data self.now).borders side.bits }
    {
        self.borders.contains(side)
    }

    /// Returns how many cells a side leaves to the corner at another side.
    fn gap(&self, side: Borders) -> u16
        ensures is { result ≡ gap (block_data self.now) side.bits }
        ensures few { result ≤ 1 }
    {
        u16::from(joins(self.merge_borders) & self.has(side))
    }

    fn column_side(&self, clip: Rect, x: u16) -> Rect
        ensures { result ≡ column_side (block_data self.now) clip x }
    {
        let first = self.gap(Borders::TOP);
        let last = self.gap(Borders::BOTTOM);
        column_of(clip, x).rows_from(first, clip.height.saturating_sub(first + last))
    }

    fn row_side(&self, clip: Rect, y: u16) -> Rect
        ensures { result ≡ row_side (block_data self.now) clip y }
    {
        let first = self.gap(Borders::LEFT);
        let last = self.gap(Borders::RIGHT);
        row_of(clip, y).columns_from(first, clip.width.saturating_sub(first + last))
    }

    /// Joins a symbol with those in an area, and sets the border style there.
    fn paint_border(&self, alloc: Global, buf: &mut Buffer, area: Rect, symbol: &str) -> Mem<()>
        ensures ok { OnOk result
            (Painted (over (covers area) (merge (block_data self.now).strategy symbol.now ∷ set_style (block_data self.now).border_style ∷ [])) buf.old buf.new) }
        ensures kept { KeptOutside (covers area) buf.old buf.new }
        ensures allocation_free { IsAllocationFree symbol.now → IsOk result }
    {
        match self.merge_borders {
            MergeStrategy::Replace => buf.fill(alloc, area, symbol, self.border_style),
            strategy => {
                buf.merge(area, symbol, strategy)?;
                buf.set_style(area, self.border_style);
                Ok(())
            }
        }
    }

    /// Paints a side, if its border is set.
    fn paint_side(
        &self,
        alloc: Global,
        buf: &mut Buffer,
        clip: Rect,
        side: BorderSide<'_>,
    ) -> Mem<()>
        ensures ok { OnOk result
            (Painted (border_layers (block_data self.now) clip (has (block_data self.now).borders side.entry.border.bits)
            side.entry.part side.entry.symbol.now) buf.old buf.new) }
        ensures kept { KeptOutside (covers clip) buf.old buf.new }
        ensures allocation_free { IsAllocationFreeIf (has (block_data self.now).borders side.entry.border.bits) side.entry.symbol.now → IsOk result }
    {
        if self.has(side.border) {
            self.paint_border(alloc, buf, clip.intersection(side.part), side.symbol)
        } else {
            Ok(())
        }
    }

    #[tactic(auto, unfolding(crate::specs::Strokes::sides_layers))]
    pub(crate) fn paint_sides(&self, alloc: Global, buf: &mut Buffer, clip: Rect) -> Mem<()>
        ensures ok { OnOk result (Painted (sides_layers (block_data self.now) clip) buf.old buf.new) }
        ensures kept { KeptOutside (covers clip) buf.old buf.new }
        ensures allocation_free { AreAllocationFreeBorders (block_data self.now) → IsOk result }
    {
        let set = self.border_set;
        let left = BorderSide {
            border: Borders::LEFT,
            part: self.column_side(clip, clip.x),
            symbol: set.vertical_left,
        };
        let top = BorderSide {
            border: Borders::TOP,
            part: self.row_side(clip, clip.y),
            symbol: set.horizontal_top,
        };
        let right = BorderSide {
            border: Borders::RIGHT,
            part: self.column_side(clip, last_column(clip)),
            symbol: set.vertical_right,
        };
        let bottom = BorderSide {
            border: Borders::BOTTOM,
            part: self.row_side(clip, last_row(clip)),
            symbol: set.horizontal_bottom,
        };
        self.paint_side(alloc, buf, clip, left)?;
        self.paint_side(alloc, buf, clip, top)?;
        self.paint_side(alloc, buf, clip, right)?;
        self.paint_side(alloc, buf, clip, bottom)
    }

    /// Paints a corner, if both borders that meet there are set.
    fn paint_corner(
        &self,
        alloc: Global,
        buf: &mut Buffer,
        clip: Rect,
        corner: BorderCorner<'_>,
    ) -> Mem<()>
        ensures ok { OnOk result
            (Painted (corner_layers (block_data self.now) clip corner.entry.borders.0.bits corner.entry.borders.1.bits
            corner.entry.cell.x corner.entry.cell.y corner.entry.symbol.now) buf.old buf.new) }
        ensures kept { KeptOutside (covers clip) buf.old buf.new }
        ensures allocation_free { IsAllocationFreeIf
            (has (block_data self.now).borders corner.entry.borders.0.bits && has (block_data self.now).borders corner.entry.borders.1.bits)
            corner.entry.symbol.now → IsOk result }
    {
        let is_set = self.has(corner.borders.0) & self.has(corner.borders.1);
        if is_set {
            let area = clip.intersection(cell_at(corner.cell));
            self.paint_border(alloc, buf, area, corner.symbol)
        } else {
            Ok(())
        }
    }

    #[tactic(auto, unfolding(crate::specs::Strokes::corners_layers))]
    pub(crate) fn paint_corners(&self, alloc: Global, buf: &mut Buffer, clip: Rect) -> Mem<()>
        ensures ok { OnOk result (Painted (corners_layers (block_data self.now) clip) buf.old buf.new) }
        ensures kept { KeptOutside (covers clip) buf.old buf.new }
        ensures allocation_free { AreAllocationFreeBorders (block_data self.now) → IsOk result }
    {
        let set = self.border_set;
        let (left, top) = (clip.x, clip.y);
        let (right, bottom) = (last_column(clip), last_row(clip));
        let bottom_right = BorderCorner {
            borders: (Borders::BOTTOM, Borders::RIGHT),
            cell: Position {
                x: right,
                y: bottom,
            },
            symbol: set.bottom_right,
        };
        let top_right = BorderCorner {
            borders: (Borders::TOP, Borders::RIGHT),
            cell: Position { x: right, y: top },
            symbol: set.top_right,
        };
        let bottom_left = BorderCorner {
            borders: (Borders::BOTTOM, Borders::LEFT),
            cell: Position { x: left, y: bottom },
            symbol: set.bottom_left,
        };
        let top_left = BorderCorner {
            borders: (Borders::TOP, Borders::LEFT),
            cell: Position { x: left, y: top },
            symbol: set.top_left,
        };
        self.paint_corner(alloc, buf, clip, bottom_right)?;
        self.paint_corner(alloc, buf, clip, top_right)?;
        self.paint_corner(alloc, buf, clip, bottom_left)?;
        self.paint_corner(alloc, buf, clip, top_left)
    }
}
