//! How a bar chart is drawn.

ghost use Rattle.std.specs.Prelude.{◌≡◌, ◌<◌, IsOk, IsTrue, OnOk};
ghost use Rattle.tui_bars.specs.BarChart.{bar_chart_data};
ghost use Rattle.tui_bars.specs.AllocationFreeCharts.{IsAllocationFreeChart};
ghost use Rattle.tui_bars.specs.ChartStrokes.{bar_chart_layers, directed_layers};
ghost use Rattle.tui_bars.specs.Drawing.{bar_chart_drawing};
ghost use Rattle.tui_bars.specs.Framed.{framed_layers};
ghost use Rattle.tui_cells.specs.Layers.{KeptOutside, Painted};
ghost use Rattle.tui_cells.specs.Rect.{covers, is_empty};
ghost use Rattle.tui_frames.specs.Footprint.{footprint_if};

use crate::bar_chart::BarChart;
use crate::plan::{Pass, Stretch, Walk};
use std::alloc::Global;
use tui_cells::{Buffer, Mem, Rect, Widget};
use tui_frames::paint_frame;
use tui_layout::Direction;

impl<'a> BarChart<'a> {
    fn paint_directed(&self, alloc: Global, buf: &mut Buffer, area: Rect) -> Mem<()>
        requires { 0 < (bar_chart_data self.now).width }
        ensures ok { OnOk result (Painted (directed_layers (bar_chart_data self.now) area (bar_chart_data self.now).direction) buf.old buf.new) }
        ensures kept { KeptOutside (covers area) buf.old buf.new }
        ensures allocation_free { IsAllocationFreeChart (bar_chart_data self.now) → IsOk result }
    {
        match self.direction {
            Direction::Vertical => {
                let plan = self.vertical_plan(area);
                let across = Stretch {
                    first: area.x,
                    room: area.width,
                };
                let columns = Walk {
                    plan,
                    pass: Pass::Columns,
                };
                self.paint_walk(alloc, buf, columns, across)?;
                let texts = Walk {
                    plan,
                    pass: Pass::Texts,
                };
                self.paint_walk(alloc, buf, texts, across)
            }
            Direction::Horizontal => {
                let plan = self.horizontal_plan(area);
                let down = Stretch {
                    first: area.y,
                    room: area.height,
                };
                let rows = Walk {
                    plan,
                    pass: Pass::Rows,
                };
                self.paint_walk(alloc, buf, rows, down)
            }
        }
    }

    /// Draws the chart inside the block.
    #[tactic(auto, unfolding(crate::specs::ChartStrokes::bar_chart_layers))]
    fn paint_content(&self, alloc: Global, buf: &mut Buffer, area: Rect) -> Mem<()>
        ensures ok { OnOk result (Painted (bar_chart_layers (bar_chart_data self.now) area) buf.old buf.new) }
        ensures kept { KeptOutside (covers area) buf.old buf.new }
        ensures allocation_free { IsAllocationFreeChart (bar_chart_data self.now) → IsOk result }
    {
        if self.bar_width == 0 {
            return Ok(());
        }
        self.paint_directed(alloc, buf, area)
    }

    fn paint_in(&self, alloc: Global, buf: &mut Buffer, clip: Rect) -> Mem<()>
        ensures ok { OnOk result
            (Painted (framed_layers (bar_chart_data self.now).block self.now.style (bar_chart_layers (bar_chart_data self.now)) clip) buf.old buf.new) }
        ensures kept { KeptOutside (footprint_if (bar_chart_data self.now).block clip) buf.old buf.new }
        ensures empty { IsTrue (is_empty clip) → IsOk result }
        ensures allocation_free { IsAllocationFreeChart (bar_chart_data self.now) → IsOk result }
    {
        if clip.is_empty() {
            return Ok(());
        }
        let inner = paint_frame(alloc, buf, clip, self.style, &self.block)?;
        self.paint_content(alloc, buf, inner)
    }
}

impl<'a> Widget for BarChart<'a> {
    ghost drawing = { λ chart. bar_chart_drawing (bar_chart_data chart) };

    fn render(&self, alloc: Global, area: Rect, buf: &mut Buffer) -> Mem<()> {
        self.paint_in(alloc, buf, area.intersection(buf.area()))
    }
}
