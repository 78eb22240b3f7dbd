//! How a gauge is drawn.

ghost use Rattle.std.specs.Prelude.{◌≡◌, ◌≤◌, [], ◌∷◌, IsOk, IsTrue, OnOk};
ghost use Rattle.tui_bars.specs.Drawing.{IsAllocationFreeGauge, gauge_drawing};
ghost use Rattle.tui_bars.specs.Framed.{framed_layers};
ghost use Rattle.tui_bars.specs.Gauge.{
  IsAllocationFreeLabel,
  eighth,
  filled_area,
  filled_style,
  gauge_data,
  gauge_layers,
  label_area,
  label_place,
  label_width,
  labelled_layers,
  tip_area,
  tip_layers,
  swapped_style,
};
ghost use Rattle.tui_bars.specs.Percent.{fill_of};
ghost use Rattle.tui_cells.specs.Cell.{IsAllocationFree};
ghost use Rattle.tui_cells.specs.Layers.{KeptOutside, Painted};
ghost use Rattle.tui_cells.specs.Rect.{covers, is_empty};
ghost use Rattle.tui_frames.specs.Footprint.{footprint_if};
ghost use Rattle.tui_text.specs.Setting.{AreAllocationFree};
ghost use Rattle.tui_text.specs.Span.{span_data};

use crate::areas::{StyledSymbol, fill_clipped};
use crate::gauge::Gauge;
use crate::percent::{eighths_of, percent_text, rounded_columns, whole_columns};
use std::alloc::Global;
use tui_cells::{Buffer, Color, Mem, Position, Rect, Style, Widget, block};
use tui_frames::paint_frame;
use tui_text::{Span, set_span_in};

/// Returns the symbol of a cell of which this many eighths are filled from the left.
#[tactic(auto, unfolding(crate::specs::Gauge::eighth))]
fn eighth(eighths: u8) -> &'static str
    ensures is { result.now ≡ eighth eighths }
    ensures allocation_free { IsAllocationFree result.now }
{
    match eighths {
        0 => " ",
        1 => block::ONE_EIGHTH,
        2 => block::ONE_QUARTER,
        3 => block::THREE_EIGHTHS,
        4 => block::HALF,
        5 => block::FIVE_EIGHTHS,
        6 => block::THREE_QUARTERS,
        7 => block::SEVEN_EIGHTHS,
        _ => block::FULL,
    }
}

/// Returns the style of filled cells.
fn filled_style(style: Style) -> Style
    ensures { result ≡ filled_style style }
{
    Style::new()
        .fg(style.fg.unwrap_or(Color::Reset))
        .bg(style.bg.unwrap_or(Color::Reset))
}

/// Returns the style of filled cells with foreground and background swapped.
fn swapped_style(style: Style) -> Style
    ensures { result ≡ swapped_style style }
{
    Style::new()
        .fg(style.bg.unwrap_or(Color::Reset))
        .bg(style.fg.unwrap_or(Color::Reset))
}

/// Returns the first `fill` columns of an area.
fn filled_area(area: Rect, fill: u16) -> Rect
    ensures { result ≡ filled_area area fill }
{
    Rect {
        width: fill,
        ..area
    }
}

/// Returns the column after the first `fill` ones.
fn tip_area(area: Rect, fill: u16) -> Rect
    ensures { result ≡ tip_area area fill }
{
    Rect {
        x: area.x.saturating_add(fill),
        width: 1,
        ..area
    }
}

fn label_width(area: Rect, label: &Span<'_>) -> u16
    ensures is { result ≡ label_width area (span_data label.now) }
    ensures within { result ≤ area.width }
{
    label.width().min(area.width as usize) as u16
}

/// Returns where a label of `width` columns starts.
fn label_place(area: Rect, width: u16) -> Position
    requires { width ≤ area.width }
    ensures { result ≡ label_place area width }
{
    Position {
        x: area.x.saturating_add((area.width - width) / 2),
        y: area.y.saturating_add(area.height / 2),
    }
}

/// Returns the filled cells under a label of `width` columns and in the column after it.
fn label_area(area: Rect, fill: u16, width: u16) -> Rect
    requires { width ≤ area.width }
    ensures { result ≡ label_area area fill width }
{
    let column = (area.width - width) / 2;
    let filled = fill.saturating_sub(column);
    Rect {
        x: area.x.saturating_add(column),
        y: area.y.saturating_add(area.height / 2),
        width: filled.min(width.saturating_add(1)),
        height: 1,
    }
}

impl<'a> Gauge<'a> {
    /// Draws the partly filled column.
    #[tactic(auto, unfolding(crate::specs::Gauge::tip_layers))]
    fn paint_tip(&self, alloc: Global, buf: &mut Buffer, area: Rect, fill: u16) -> Mem<()>
        ensures ok { OnOk result (Painted (tip_layers (gauge_data self.now) area fill) buf.old buf.new) }
        ensures kept { KeptOutside (covers area) buf.old buf.new }
        ensures allocation_free { IsOk result }
    {
        if !self.use_unicode || self.share.num >= self.share.den {
            return Ok(());
        }
        let content = StyledSymbol {
            symbol: eighth(eighths_of(area.width, self.share)),
            style: Style::new(),
        };
        fill_clipped(alloc, buf, area, tip_area(area, fill), content)
    }

    /// Returns how many columns are filled: only whole ones if the next one is drawn in part, otherwise rounded.
    fn fill(&self, width: u16) -> u16
        ensures { result ≡ fill_of (gauge_data self.now).use_unicode width (gauge_data self.now).num (gauge_data self.now).den }
    {
        if self.use_unicode {
            whole_columns(width, self.share)
        } else {
            rounded_columns(width, self.share)
        }
    }

    /// Draws the gauge with a label.
    fn paint_labelled(
        &self,
        alloc: Global,
        buf: &mut Buffer,
        area: Rect,
        label: &Span<'_>,
    ) -> Mem<()>
        ensures ok { OnOk result (Painted (labelled_layers (gauge_data self.now) (span_data label.now) area) buf.old buf.new) }
        ensures kept { KeptOutside (covers area) buf.old buf.new }
        ensures allocation_free { AreAllocationFree (span_data label.now ∷ []) → IsOk result }
    {
        let fill = self.fill(area.width);
        let width = label_width(area, label);
        let under = label_area(area, fill, width);
        let place = label_place(area, width);
        let filled = StyledSymbol {
            symbol: block::FULL,
            style: filled_style(self.gauge_style),
        };
        let swapped = StyledSymbol {
            symbol: " ",
            style: swapped_style(self.gauge_style),
        };
        buf.set_style(area, self.gauge_style);
        fill_clipped(alloc, buf, area, filled_area(area, fill), filled)?;
        fill_clipped(alloc, buf, area, under, swapped)?;
        self.paint_tip(alloc, buf, area, fill)?;
        set_span_in(buf, area, place, label, usize::from(width))?;
        Ok(())
    }

    /// Draws the gauge inside the block.
    fn paint_content(&self, alloc: Global, buf: &mut Buffer, area: Rect) -> Mem<()>
        ensures ok { OnOk result (Painted (gauge_layers (gauge_data self.now) area) buf.old buf.new) }
        ensures kept { KeptOutside (covers area) buf.old buf.new }
        ensures allocation_free { IsAllocationFreeLabel (gauge_data self.now).label → IsOk result }
    {
        match &self.label {
            Some(label) => self.paint_labelled(alloc, buf, area, label),
            None => {
                let text = percent_text(self.share);
                self.paint_labelled(alloc, buf, area, &Span::raw(text.as_str()))
            }
        }
    }

    fn paint_in(&self, alloc: Global, buf: &mut Buffer, clip: Rect) -> Mem<()>
        ensures ok { OnOk result
            (Painted (framed_layers (gauge_data self.now).block self.now.style (gauge_layers (gauge_data self.now)) clip) buf.old buf.new) }
        ensures kept { KeptOutside (footprint_if (gauge_data self.now).block clip) buf.old buf.new }
        ensures empty { IsTrue (is_empty clip) → IsOk result }
        ensures allocation_free { IsAllocationFreeGauge (gauge_data self.now) → IsOk result }
    {
        if clip.is_empty() {
            return Ok(());
        }
        let inner = paint_frame(alloc, buf, clip, self.style, &self.block)?;
        self.paint_content(alloc, buf, inner)
    }
}

impl<'a> Widget for Gauge<'a> {
    ghost drawing = { λ gauge. gauge_drawing (gauge_data gauge) };

    fn render(&self, alloc: Global, area: Rect, buf: &mut Buffer) -> Mem<()> {
        self.paint_in(alloc, buf, area.intersection(buf.area()))
    }
}
