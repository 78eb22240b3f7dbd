//! How a sparkline is drawn.

ghost use Rattle.std.specs.Prelude.{◌≡◌, ◌<◌, IsOk, IsTrue, OnOk};
ghost use Rattle.tui_bars.specs.Drawing.{IsAllocationFreeSparkline, sparkline_drawing};
ghost use Rattle.tui_frames.specs.InBlock.{in_block_layers};
ghost use Rattle.tui_bars.specs.Sparkline.{bar_layers, column_at, greatest_of, side, sparkline_bar_data, sparkline_data, sparkline_layers};
ghost use Rattle.tui_cells.specs.Layers.{KeptOutside, Painted};
ghost use Rattle.tui_cells.specs.Rect.{covers, is_empty};
ghost use Rattle.tui_frames.specs.Footprint.{footprint_if};

use crate::areas::{StyledSymbol, fill_clipped};
use crate::levels::{VerticalBar, paint_levels, ticks};
use crate::render_direction::RenderDirection;
use crate::sparkline::Sparkline;
use crate::sparkline_bar::SparklineBar;
use std::alloc::Global;
use tui_cells::{Buffer, Mem, Rect, Style, Widget};
use tui_frames::{BlockExt, paint_if_some};

/// What all bars of a sparkline share while it is drawn.
#[derive(Clone, Copy)]
struct SparklinePlan {
    area: Rect,
    /// The value that fills a column.
    greatest: u64,
}

/// A bar and its index.
#[derive(Clone, Copy)]
struct IndexedBar {
    index: u16,
    bar: SparklineBar,
}

impl RenderDirection {
    /// Returns the column of bar `i`.
    fn side(self, width: u16, i: u16) -> u16
        requires { i < width }
        ensures { result ≡ side self width i }
    {
        match self {
            RenderDirection::LeftToRight => i,
            RenderDirection::RightToLeft => width - 1 - i,
        }
    }
}

impl<'a> Sparkline<'a> {
    /// Returns the value that fills a column.
    fn greatest(&self) -> u64
        ensures { result ≡ greatest_of (sparkline_data self.now) }
    {
        if let Some(max) = self.max {
            return max;
        }
        let mut most = 0;
        for bar in &self.bars {
            most = most.max(bar.value.unwrap_or(0));
        }
        most
    }

    fn column_at(&self, area: Rect, i: u16) -> Rect
        requires { i < area.width }
        ensures { result ≡ column_at (sparkline_data self.now) area i }
    {
        Rect {
            x: area.x.saturating_add(self.direction.side(area.width, i)),
            width: 1,
            ..area
        }
    }

    /// Draws a bar in its column.
    fn paint_bar(
        &self,
        alloc: Global,
        buf: &mut Buffer,
        plan: SparklinePlan,
        indexed: IndexedBar,
    ) -> Mem<()>
        requires { indexed.index < plan.area.width }
        ensures ok { OnOk result (Painted (bar_layers (sparkline_data self.now) plan.area plan.greatest indexed.index (sparkline_bar_data indexed.bar)) buf.old buf.new) }
        ensures kept { KeptOutside (covers plan.area) buf.old buf.new }
        ensures allocation_free { IsAllocationFreeSparkline (sparkline_data self.now) → IsOk result }
    {
        let column = self.column_at(plan.area, indexed.index);
        match indexed.bar.value {
            None => {
                let content = StyledSymbol {
                    symbol: self.absent_value_symbol,
                    style: self.style.patch(self.absent_value_style),
                };
                fill_clipped(alloc, buf, plan.area, column, content)
            }
            Some(value) => {
                let vertical = VerticalBar {
                    area: column,
                    filled: ticks(plan.greatest, value, column.height),
                    style: self.style.patch(indexed.bar.style.unwrap_or(Style::new())),
                };
                paint_levels(alloc, buf, plan.area, &self.bar_set, vertical)
            }
        }
    }

    /// Draws the bars that have a column.
    fn paint_content(&self, alloc: Global, buf: &mut Buffer, area: Rect) -> Mem<()>
        ensures ok { OnOk result (Painted (sparkline_layers (sparkline_data self.now) area) buf.old buf.new) }
        ensures kept { KeptOutside (covers area) buf.old buf.new }
        ensures allocation_free { IsAllocationFreeSparkline (sparkline_data self.now) → IsOk result }
    {
        let plan = SparklinePlan {
            area,
            greatest: self.greatest(),
        };
        let count = self.bars.len().min(area.width as usize);
        'bars: for i in 0..count {
            let bar = self.bars[i];
            self.paint_bar(
                alloc,
                buf,
                plan,
                IndexedBar {
                    index: i as u16,
                    bar,
                },
            )?;
        }
        Ok(())
    }

    fn paint_in(&self, alloc: Global, buf: &mut Buffer, clip: Rect) -> Mem<()>
        ensures ok { OnOk result (Painted (in_block_layers (sparkline_data self.now).block (sparkline_layers (sparkline_data self.now)) clip) buf.old buf.new) }
        ensures kept { KeptOutside (footprint_if (sparkline_data self.now).block clip) buf.old buf.new }
        ensures empty { IsTrue (is_empty clip) → IsOk result }
        ensures allocation_free { IsAllocationFreeSparkline (sparkline_data self.now) → IsOk result }
    {
        if clip.is_empty() {
            return Ok(());
        }
        paint_if_some(alloc, buf, clip, &self.block)?;
        self.paint_content(alloc, buf, self.block.inner_if_some(clip))
    }
}

impl<'a> Widget for Sparkline<'a> {
    ghost drawing = { λ line. sparkline_drawing (sparkline_data line) };

    fn render(&self, alloc: Global, area: Rect, buf: &mut Buffer) -> Mem<()> {
        self.paint_in(alloc, buf, area.intersection(buf.area()))
    }
}
