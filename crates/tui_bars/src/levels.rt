//! Vertical bars: how much of their length a value fills, and the symbols of their cells.

ghost use Rattle.std.specs.Prelude.{◌≡◌, ◌*◌, ◌≤◌, IsOk, OnOk};
ghost use Rattle.tui_bars.specs.Levels.{AreAllocationFreeLevels, level, row_at, vertical_bar_layers, ticks};
ghost use Rattle.tui_cells.specs.Cell.{IsAllocationFree};
ghost use Rattle.tui_cells.specs.Layers.{KeptOutside, Painted};
ghost use Rattle.tui_cells.specs.Rect.{covers};
ghost use Rattle.tui_cells.specs.Symbols.{bar_data};

use crate::areas::{StyledSymbol, fill_clipped};
use std::alloc::Global;
use tui_cells::{Buffer, Mem, Rect, Style, bar};

/// Returns how many eighths of a length a value fills, if the greatest value fills all of it.
#[tactic(auto, unfolding(crate::specs::Levels::ticks))]
pub(crate) fn ticks(greatest: u64, value: u64, length: u16) -> u32
    ensures is { result ≡ ticks greatest value length }
    ensures within { result ≤ 8 * length }
{
    if greatest == 0 {
        return 0;
    }
    let whole = 8 * u128::from(length);
    (u128::from(value) * whole / u128::from(greatest)).min(whole) as u32
}

/// Returns the symbol of a cell of which this many eighths are still to be filled. From 8 on the cell is full.
#[tactic(auto, unfolding(crate::specs::Levels::level))]
fn level<'a>(set: &bar::Set<'a>, eighths: u32) -> &'a str
    ensures is { result.now ≡ level (bar_data set.now) eighths }
    ensures allocation_free { AreAllocationFreeLevels (bar_data set.now) → IsAllocationFree result.now }
{
    match eighths {
        0 => set.empty,
        1 => set.one_eighth,
        2 => set.one_quarter,
        3 => set.three_eighths,
        4 => set.half,
        5 => set.five_eighths,
        6 => set.three_quarters,
        7 => set.seven_eighths,
        _ => set.full,
    }
}

/// Returns row `n` of an area.
fn row_at(area: Rect, n: u16) -> Rect
    ensures { result ≡ row_at area n }
{
    Rect {
        y: area.y.saturating_add(n),
        height: 1,
        ..area
    }
}

/// A vertical bar.
#[derive(Clone, Copy, Debug)]
pub(crate) struct VerticalBar {
    /// All of its cells, filled or not.
    pub(crate) area: Rect,
    /// How many eighths of a cell are filled, from the bottom.
    pub(crate) filled: u32,
    pub(crate) style: Style,
}

/// Draws the part of a bar that is in the clip, row by row from the bottom up.
pub(crate) fn paint_levels(
    alloc: Global,
    buf: &mut Buffer,
    clip: Rect,
    set: &bar::Set<'_>,
    bar: VerticalBar,
) -> Mem<()>
    ensures ok { OnOk result (Painted (vertical_bar_layers (bar_data set.now) clip bar.area bar.style bar.filled) buf.old buf.new) }
    ensures kept { KeptOutside (covers clip) buf.old buf.new }
    ensures allocation_free { AreAllocationFreeLevels (bar_data set.now) → IsOk result }
{
    let mut left = bar.filled;
    'rows: for up in 0..bar.area.height {
        let row = row_at(bar.area, bar.area.height - 1 - up);
        let content = StyledSymbol {
            symbol: level(set, left),
            style: bar.style,
        };
        fill_clipped(alloc, buf, clip, row, content)?;
        left = left.saturating_sub(8);
    }
    Ok(())
}
