//! How a line gauge is drawn.

ghost use Rattle.std.specs.Prelude.{◌≡◌, IfOk, IsOk, IsTrue, OnOk};
ghost use Rattle.tui_bars.specs.Drawing.{IsAllocationFreeLineGauge, line_gauge_drawing};
ghost use Rattle.tui_bars.specs.Framed.{framed_layers};
ghost use Rattle.tui_bars.specs.LineGauge.{IsAllocationFreeLine, bar_layers, label_end, label_layers, line_gauge_data, line_gauge_layers};
ghost use Rattle.tui_cells.specs.Cell.{IsAllocationFree};
ghost use Rattle.tui_cells.specs.Layers.{KeptOutside, Painted};
ghost use Rattle.tui_cells.specs.Rect.{covers, is_empty};
ghost use Rattle.tui_frames.specs.Footprint.{footprint_if};
ghost use Rattle.tui_text.specs.Painting.{cells_at};

use crate::areas::{StyledSymbol, fill_clipped};
use crate::line_gauge::LineGauge;
use crate::percent::{percent_label, whole_columns};
use std::alloc::Global;
use tui_cells::{Buffer, Mem, Position, Rect, Style, Widget};
use tui_frames::paint_frame;
use tui_text::{set_line_in, set_stringn_in};

/// Returns `width` cells of a row from column `x` on.
fn cells_at(x: u16, y: u16, width: u16) -> Rect
    ensures { result ≡ cells_at x y width }
{
    Rect {
        x,
        y,
        width,
        height: 1,
    }
}

impl<'a> LineGauge<'a> {
    /// Writes the label, or the percentage if none is set. Returns the column after it.
    fn paint_label(&self, buf: &mut Buffer, area: Rect) -> Mem<u16>
        ensures ok { OnOk result (Painted (label_layers (line_gauge_data self.now) area) buf.old buf.new) }
        ensures end { IfOk result (λ x. x ≡ label_end (line_gauge_data self.now) area) }
        ensures kept { KeptOutside (covers area) buf.old buf.new }
        ensures allocation_free { IsAllocationFreeLine (line_gauge_data self.now).label → IsOk result }
    {
        let place = Position {
            x: area.x,
            y: area.y,
        };
        let room = usize::from(area.width);
        match &self.label {
            Some(line) => set_line_in(buf, area, place, line, room),
            None => {
                let text = percent_label(self.share);
                set_stringn_in(buf, area, place, text.as_str(), room, Style::new())
            }
        }
    }

    /// Draws the line from a column on.
    #[tactic(auto, unfolding(crate::specs::LineGauge::bar_layers))]
    fn paint_line(&self, alloc: Global, buf: &mut Buffer, area: Rect, start: u16) -> Mem<()>
        ensures ok { OnOk result (Painted (bar_layers (line_gauge_data self.now) area start) buf.old buf.new) }
        ensures kept { KeptOutside (covers area) buf.old buf.new }
        ensures allocation_free { IsAllocationFree (line_gauge_data self.now).filled → IsAllocationFree (line_gauge_data self.now).unfilled → IsOk result }
    {
        let columns = area.right().saturating_sub(start);
        let count = whole_columns(columns, self.share);
        let filled = cells_at(start, area.y, count);
        let rest = cells_at(
            start.saturating_add(count),
            area.y,
            columns.saturating_sub(count),
        );
        let full = StyledSymbol {
            symbol: self.filled_symbol,
            style: self.filled_style,
        };
        let empty = StyledSymbol {
            symbol: self.unfilled_symbol,
            style: self.unfilled_style,
        };
        fill_clipped(alloc, buf, area, filled, full)?;
        fill_clipped(alloc, buf, area, rest, empty)
    }

    /// Draws the line gauge inside the block.
    fn paint_content(&self, alloc: Global, buf: &mut Buffer, area: Rect) -> Mem<()>
        ensures ok { OnOk result (Painted (line_gauge_layers (line_gauge_data self.now) area) buf.old buf.new) }
        ensures kept { KeptOutside (covers area) buf.old buf.new }
        ensures allocation_free { IsAllocationFreeLineGauge (line_gauge_data self.now) → IsOk result }
    {
        let end = self.paint_label(buf, area)?;
        self.paint_line(alloc, buf, area, end.saturating_add(1))
    }

    fn paint_in(&self, alloc: Global, buf: &mut Buffer, clip: Rect) -> Mem<()>
        ensures ok { OnOk result
            (Painted (framed_layers (line_gauge_data self.now).block self.now.style (line_gauge_layers (line_gauge_data self.now)) clip) buf.old buf.new) }
        ensures kept { KeptOutside (footprint_if (line_gauge_data self.now).block clip) buf.old buf.new }
        ensures empty { IsTrue (is_empty clip) → IsOk result }
        ensures allocation_free { IsAllocationFreeLineGauge (line_gauge_data self.now) → IsOk result }
    {
        if clip.is_empty() {
            return Ok(());
        }
        let inner = paint_frame(alloc, buf, clip, self.style, &self.block)?;
        self.paint_content(alloc, buf, inner)
    }
}

impl<'a> Widget for LineGauge<'a> {
    ghost drawing = { λ gauge. line_gauge_drawing (line_gauge_data gauge) };

    fn render(&self, alloc: Global, area: Rect, buf: &mut Buffer) -> Mem<()> {
        self.paint_in(alloc, buf, area.intersection(buf.area()))
    }
}
