//! Vertical bars with their labels and values, side by side.

ghost use Rattle.std.specs.Prelude.{◌≡◌, All, IsOk, OnOk, false};
ghost use Rattle.tui_bars.specs.BarChart.{bar_chart_data, bar_data};
ghost use Rattle.tui_bars.specs.AllocationFreeCharts.{IsAllocationFreeBar};
ghost use Rattle.tui_bars.specs.Labels.{alignment_of, columns_of, group_title_layers, aligned_in, titled_layers};
ghost use Rattle.tui_bars.specs.Levels.{AreAllocationFreeLevels};
ghost use Rattle.tui_bars.specs.LineGauge.{IsAllocationFreeLine};
ghost use Rattle.tui_bars.specs.Shown.{shown_data};
ghost use Rattle.tui_bars.specs.VerticalBars.{
  bar_area,
  column_layers,
  group_label_layers,
  group_row,
  has_room,
  label_layers,
  label_row,
  texts_layers,
  value_layers,
  value_place,
  value_text_layers,
};
ghost use Rattle.tui_cells.specs.Cell.{IsAllocationFree};
ghost use Rattle.tui_cells.specs.Layers.{KeptOutside, Painted};
ghost use Rattle.tui_cells.specs.Rect.{covers};
ghost use Rattle.tui_layout.specs.declared.direction.Direction.TheVariants.{Vertical};
ghost use Rattle.tui_clusters.specs.Shown.{clusters};
ghost use Rattle.tui_text.specs.Line.{line_data};
ghost use Rattle.tui_text.specs.Painting.{alignment_offset};
ghost use Rattle.tui_text.specs.Setting.{AreAllocationFree};
ghost use Rattle.tui_text.specs.Span.{raw_span};
ghost use Rattle.tui_text.specs.Width.{span_width};

use crate::bar_chart::BarChart;
use crate::levels::{VerticalBar, paint_levels, ticks};
use crate::plan::ChartPlan;
use crate::shown_bar::ShownBar;
use crate::shown_group::ShownGroup;
use crate::styled_text::StyledText;
use itoa::Buffer as Digits;
use std::alloc::Global;
use tui_cells::{Buffer, FARTHEST_EDGE, Mem, Position, Rect};
use tui_text::{Alignment, Line, Span, paint_row, set_stringn_in};

/// Where a bar is, and how much of it is filled.
#[derive(Clone, Copy)]
struct FilledBar {
    /// The first of its columns.
    at: u16,
    /// How many eighths of a cell are filled, from the bottom.
    filled: u32,
}

/// Returns how many columns of `room` are left free before content of `width` columns.
fn alignment_offset(alignment: Alignment, room: u16, width: u16) -> u16
    ensures { result ≡ alignment_offset alignment room width }
{
    match alignment {
        Alignment::Left => 0,
        Alignment::Center => room.saturating_sub(width) / 2,
        Alignment::Right => room.saturating_sub(width),
    }
}

/// Returns the alignment of a label, `Left` if it has none.
fn alignment_of(label: &Line<'_>) -> Alignment
    ensures { result ≡ alignment_of (line_data label.now) }
{
    label.line_alignment().unwrap_or(Alignment::Left)
}

/// Returns `width` columns of a row, placed by an alignment.
fn aligned_in(row: Rect, alignment: Alignment, width: u16) -> Rect
    ensures { result ≡ aligned_in row alignment width }
{
    Rect {
        x: row
            .x
            .saturating_add(alignment_offset(alignment, row.width, width)),
        y: row.y,
        width,
        height: 1,
    }
}

impl<'a> BarChart<'a> {
    /// Draws a label in the part of the clip that `part` covers.
    #[tactic(auto, unfolding(crate::specs::Labels::titled_layers))]
    fn paint_titled(&self, buf: &mut Buffer, clip: Rect, part: Rect, label: &Line<'a>) -> Mem<()>
        ensures ok { OnOk result (Painted (titled_layers (bar_chart_data self.now) clip part (line_data label.now)) buf.old buf.new) }
        ensures kept { KeptOutside (covers clip) buf.old buf.new }
        ensures allocation_free { AreAllocationFree (line_data label.now).spans → IsOk result }
    {
        let part = clip.intersection(part);
        let alignment = alignment_of(label);
        buf.set_style(part, self.label_style);
        paint_row(buf, part, label, alignment)
    }

    /// Draws a group's label in a row.
    pub(super) fn paint_group_title(
        &self,
        buf: &mut Buffer,
        clip: Rect,
        row: Rect,
        label: &Line<'a>,
    ) -> Mem<()>
        ensures ok { OnOk result (Painted (group_title_layers (bar_chart_data self.now) clip row (line_data label.now)) buf.old buf.new) }
        ensures kept { KeptOutside (covers clip) buf.old buf.new }
        ensures allocation_free { AreAllocationFree (line_data label.now).spans → IsOk result }
    {
        let width = label.width().min(FARTHEST_EDGE as usize) as u16;
        let part = aligned_in(row, alignment_of(label), width);
        self.paint_titled(buf, clip, part, label)
    }

    fn bar_area(&self, plan: ChartPlan, at: u16) -> Rect
        ensures { result ≡ bar_area (bar_chart_data self.now) plan at }
    {
        Rect {
            x: at,
            y: plan.area.y,
            width: self.bar_width,
            height: plan.length,
        }
    }

    /// Draws the cells of a bar.
    #[tactic(auto, unfolding(crate::specs::VerticalBars::column_layers))]
    pub(super) fn paint_column(
        &self,
        alloc: Global,
        buf: &mut Buffer,
        plan: ChartPlan,
        shown: ShownBar<'_, 'a>,
    ) -> Mem<()>
        ensures ok { OnOk result (Painted (column_layers (bar_chart_data self.now) plan shown.entry.at (bar_data shown.entry.bar.now)) buf.old buf.new) }
        ensures kept { KeptOutside (covers plan.area) buf.old buf.new }
        ensures allocation_free { AreAllocationFreeLevels (bar_chart_data self.now).symbols → IsOk result }
    {
        let vertical = VerticalBar {
            area: self.bar_area(plan, shown.at),
            filled: ticks(plan.greatest, shown.bar.value, plan.length),
            style: self.bar_style.patch(shown.bar.style),
        };
        paint_levels(alloc, buf, plan.area, &self.bar_set, vertical)
    }

    /// Returns the last row of the chart, as wide as `count` bars.
    fn group_row(&self, plan: ChartPlan, at: u16, count: usize) -> Rect
        ensures { result ≡ group_row (bar_chart_data self.now) plan at count }
    {
        let bars = count as u128 * (self.bar_width as u128 + self.bar_gap as u128);
        Rect {
            x: at,
            y: plan
                .area
                .y
                .saturating_add(plan.area.height.saturating_sub(1)),
            width: bars
                .saturating_sub(self.bar_gap as u128)
                .min(FARTHEST_EDGE as u128) as u16,
            height: 1,
        }
    }

    /// Draws a group's label below its bars.
    #[tactic(auto, unfolding(crate::specs::VerticalBars::group_label_layers))]
    pub(super) fn paint_group_label(
        &self,
        buf: &mut Buffer,
        plan: ChartPlan,
        shown: ShownGroup<'_, 'a>,
    ) -> Mem<()>
        ensures ok { OnOk result (Painted (group_label_layers (bar_chart_data self.now) plan (shown_data shown.entry)) buf.old buf.new) }
        ensures kept { KeptOutside (covers plan.area) buf.old buf.new }
        ensures allocation_free { IsAllocationFreeLine (shown_data shown.entry).group.label → IsOk result }
    {
        if !plan.group_labels {
            return Ok(());
        }
        match &shown.group.label {
            None => Ok(()),
            Some(label) => {
                let row = self.group_row(plan, shown.at, shown.count);
                self.paint_group_title(buf, plan.area, row, label)
            }
        }
    }

    /// Returns the row below a bar.
    fn label_row(&self, plan: ChartPlan, at: u16) -> Rect
        ensures { result ≡ label_row (bar_chart_data self.now) plan at }
    {
        Rect {
            x: at,
            y: plan.area.y.saturating_add(plan.length),
            width: self.bar_width,
            height: 1,
        }
    }

    /// Draws a bar's label below the bar.
    #[tactic(auto, unfolding(crate::specs::VerticalBars::label_layers))]
    fn paint_label(&self, buf: &mut Buffer, plan: ChartPlan, shown: ShownBar<'_, 'a>) -> Mem<()>
        ensures ok { OnOk result (Painted (label_layers (bar_chart_data self.now) plan shown.entry.at (bar_data shown.entry.bar.now)) buf.old buf.new) }
        ensures kept { KeptOutside (covers plan.area) buf.old buf.new }
        ensures allocation_free { IsAllocationFreeLine (bar_data shown.entry.bar.now).label → IsOk result }
    {
        if !plan.bar_labels {
            return Ok(());
        }
        match &shown.bar.label {
            None => Ok(()),
            Some(label) => {
                let width = label.width().min(self.bar_width as usize) as u16;
                let part = aligned_in(self.label_row(plan, shown.at), Alignment::Center, width);
                self.paint_titled(buf, plan.area, part, label)
            }
        }
    }

    /// Returns where the text of a value starts.
    fn value_place(&self, plan: ChartPlan, at: u16, text: &str) -> Position
        ensures { result ≡ value_place (bar_chart_data self.now) plan at text.now }
    {
        let free = (self.bar_width as usize).saturating_sub(text.len());
        Position {
            x: at.saturating_add((free / 2) as u16),
            y: plan.area.y.saturating_add(plan.length.saturating_sub(1)),
        }
    }

    /// Returns whether a value's text is narrower than the bar, or just as wide and the bar's last row is full.
    fn has_room(&self, text: &str, filled: u32) -> bool
        ensures { result ≡ has_room (bar_chart_data self.now).width (span_width false (raw_span text.now)) filled }
    {
        let width = Span::raw(text).width();
        let room = self.bar_width as usize;
        width < room || width == room && filled >= 8
    }

    /// Writes this text in the last row of a bar, if it has room.
    #[tactic(auto, using(tui_text::proofs::AllocationFreeTexts::allocation_free_styled), unfolding(crate::specs::VerticalBars::value_text_layers))]
    fn paint_value_text(
        &self,
        buf: &mut Buffer,
        plan: ChartPlan,
        bar: FilledBar,
        styled: StyledText<'_>,
    ) -> Mem<()>
        ensures ok { OnOk result (Painted (value_text_layers (bar_chart_data self.now) plan bar.at bar.filled styled.entry.text.now styled.entry.style) buf.old buf.new) }
        ensures kept { KeptOutside (covers plan.area) buf.old buf.new }
        ensures allocation_free { All IsAllocationFree (clusters styled.entry.text.now) → IsOk result }
    {
        if !self.has_room(styled.text, bar.filled) {
            return Ok(());
        }
        let place = self.value_place(plan, bar.at, styled.text);
        set_stringn_in(
            buf,
            plan.area,
            place,
            styled.text,
            FARTHEST_EDGE as usize,
            styled.style,
        )?;
        Ok(())
    }

    /// Writes the value of a bar in its last row, if the value is not 0 and its text has room.
    #[tactic(auto, unfolding(crate::specs::VerticalBars::value_layers))]
    fn paint_value(&self, buf: &mut Buffer, plan: ChartPlan, shown: ShownBar<'_, 'a>) -> Mem<()>
        ensures ok { OnOk result (Painted (value_layers (bar_chart_data self.now) plan shown.entry.at (bar_data shown.entry.bar.now)) buf.old buf.new) }
        ensures kept { KeptOutside (covers plan.area) buf.old buf.new }
        ensures allocation_free { IsAllocationFreeBar Vertical (bar_data shown.entry.bar.now) → IsOk result }
    {
        if shown.bar.value == 0 {
            return Ok(());
        }
        let style = self.value_style.patch(shown.bar.value_style);
        let bar = FilledBar {
            at: shown.at,
            filled: ticks(plan.greatest, shown.bar.value, plan.length),
        };
        let mut digits = Digits::new();
        let text = shown.bar.value_text(&mut digits);
        self.paint_value_text(buf, plan, bar, StyledText { text, style })
    }

    /// Draws a bar's label and then its value.
    #[tactic(auto, unfolding(crate::specs::VerticalBars::texts_layers))]
    pub(super) fn paint_texts(
        &self,
        buf: &mut Buffer,
        plan: ChartPlan,
        shown: ShownBar<'_, 'a>,
    ) -> Mem<()>
        ensures ok { OnOk result (Painted (texts_layers (bar_chart_data self.now) plan shown.entry.at (bar_data shown.entry.bar.now)) buf.old buf.new) }
        ensures kept { KeptOutside (covers plan.area) buf.old buf.new }
        ensures allocation_free { IsAllocationFreeBar Vertical (bar_data shown.entry.bar.now) → IsOk result }
    {
        self.paint_label(buf, plan, shown)?;
        self.paint_value(buf, plan, shown)
    }
}
