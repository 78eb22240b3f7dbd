//! Horizontal bars with their labels and values, one below the other.

ghost use Rattle.std.specs.Prelude.{◌≡◌, ◌≤◌, IsOk, OnOk, length};
ghost use Rattle.std.specs.Str.{IsCharBoundary};
ghost use Rattle.tui_bars.specs.BarChart.{bar_chart_data, bar_data};
ghost use Rattle.tui_bars.specs.AllocationFreeCharts.{IsAllocationFreeBar, IsAllocationFreeText};
ghost use Rattle.tui_bars.specs.Levels.{AreAllocationFreeLevels};
ghost use Rattle.tui_bars.specs.LineGauge.{IsAllocationFreeLine};
ghost use Rattle.tui_bars.specs.HorizontalBars.{
  beyond_layers,
  filled_of,
  gap_row,
  group_row_layers,
  left_layers,
  middle_of,
  rest_layers,
  horizontal_bar_layers,
  char_start_from,
  strip_layers,
  within_layers,
};
ghost use Rattle.tui_bars.specs.Shown.{shown_data};
ghost use Rattle.tui_cells.specs.Layers.{KeptOutside, Painted};
ghost use Rattle.tui_cells.specs.Rect.{covers};
ghost use Rattle.tui_layout.specs.declared.direction.Direction.TheVariants.{Horizontal};

use crate::areas::{StyledSymbol, fill_clipped};
use crate::bar::Bar;
use crate::bar_chart::BarChart;
use crate::levels::ticks;
use crate::plan::ChartPlan;
use crate::shown_bar::ShownBar;
use crate::shown_group::ShownGroup;
use crate::styled_text::StyledText;
use itoa::Buffer as Digits;
use std::alloc::Global;
use tui_cells::{Buffer, FARTHEST_EDGE, Mem, Position, Rect, Style};
use tui_text::{set_line_in, set_stringn_in};

/// A horizontal bar.
#[derive(Clone, Copy)]
struct HorizontalBar {
    /// The first of its rows.
    at: u16,
    /// How many of its columns are filled.
    filled: u16,
    style: Style,
}

/// Returns how many columns of a bar are filled.
fn filled_of(plan: ChartPlan, bar: &Bar<'_>) -> u16
    ensures { result ≡ filled_of plan (bar_data bar.now) }
{
    (ticks(plan.greatest, bar.value, plan.length) / 8) as u16
}

/// Returns the first byte from `place` on at which a character starts or the text ends.
fn char_start_from(text: &str, place: usize) -> usize
    requires { place ≤ length text.now }
    ensures is { result ≡ char_start_from place text.now }
    ensures boundary { IsCharBoundary text.now result }
{
    text.ceil_char_boundary(place)
}

/// Writes a text from byte `from` on, `from` columns after the start of the bar.
#[tactic(auto, using(tui_text::proofs::AllocationFreeTexts::allocation_free_styled))]
fn paint_rest(
    buf: &mut Buffer,
    plan: ChartPlan,
    middle: u16,
    from: usize,
    styled: StyledText<'_>,
) -> Mem<()>
    requires { IsCharBoundary styled.text.now from }
    ensures ok { OnOk result (Painted (rest_layers plan middle from styled.entry.text.now styled.entry.style) buf.old buf.new) }
    ensures kept { KeptOutside (covers plan.area) buf.old buf.new }
    ensures allocation_free { IsAllocationFreeText Horizontal styled.entry.text.now → IsOk result }
{
    let place = Position {
        x: (plan.start as usize)
            .saturating_add(from)
            .min(FARTHEST_EDGE as usize) as u16,
        y: middle,
    };
    let room = (plan.length as usize).saturating_sub(from);
    set_stringn_in(
        buf,
        plan.area,
        place,
        &styled.text[from..],
        room,
        styled.style,
    )?;
    Ok(())
}

/// Writes the part of a text that is past the filled cells.
#[tactic(auto, unfolding(crate::specs::HorizontalBars::beyond_layers))]
fn paint_beyond(
    buf: &mut Buffer,
    plan: ChartPlan,
    middle: u16,
    filled: u16,
    styled: StyledText<'_>,
) -> Mem<()>
    ensures ok { OnOk result (Painted (beyond_layers plan middle filled styled.entry.text.now styled.entry.style) buf.old buf.new) }
    ensures kept { KeptOutside (covers plan.area) buf.old buf.new }
    ensures allocation_free { IsAllocationFreeText Horizontal styled.entry.text.now → IsOk result }
{
    if styled.text.len() <= filled as usize {
        return Ok(());
    }
    let from = char_start_from(styled.text, filled as usize);
    paint_rest(buf, plan, middle, from, styled)
}

/// Writes the start of a value's text over the filled cells.
#[tactic(auto, using(tui_text::proofs::AllocationFreeTexts::allocation_free_styled))]
fn paint_within(
    buf: &mut Buffer,
    plan: ChartPlan,
    middle: u16,
    filled: u16,
    styled: StyledText<'_>,
) -> Mem<()>
    ensures ok { OnOk result (Painted (within_layers plan middle filled styled.entry.text.now styled.entry.style) buf.old buf.new) }
    ensures kept { KeptOutside (covers plan.area) buf.old buf.new }
    ensures allocation_free { IsAllocationFreeText Horizontal styled.entry.text.now → IsOk result }
{
    let place = Position {
        x: plan.start,
        y: middle,
    };
    set_stringn_in(
        buf,
        plan.area,
        place,
        styled.text(),
        filled as usize,
        styled.style,
    )?;
    Ok(())
}

/// Writes a bar's label at the left.
#[tactic(auto, unfolding(crate::specs::HorizontalBars::left_layers))]
fn paint_left(buf: &mut Buffer, plan: ChartPlan, middle: u16, bar: &Bar<'_>) -> Mem<()>
    ensures ok { OnOk result (Painted (left_layers plan middle (bar_data bar.now)) buf.old buf.new) }
    ensures kept { KeptOutside (covers plan.area) buf.old buf.new }
    ensures allocation_free { IsAllocationFreeLine (bar_data bar.now).label → IsOk result }
{
    match &bar.label {
        None => Ok(()),
        Some(label) => {
            let place = Position {
                x: plan.area.x,
                y: middle,
            };
            set_line_in(buf, plan.area, place, label, plan.labels as usize)?;
            Ok(())
        }
    }
}

impl<'a> BarChart<'a> {
    /// Draws the cells of a bar, the filled ones and the others.
    fn paint_strip(
        &self,
        alloc: Global,
        buf: &mut Buffer,
        plan: ChartPlan,
        bar: HorizontalBar,
    ) -> Mem<()>
        ensures ok { OnOk result (Painted (strip_layers (bar_chart_data self.now) plan bar.at bar.filled bar.style) buf.old buf.new) }
        ensures kept { KeptOutside (covers plan.area) buf.old buf.new }
        ensures allocation_free { AreAllocationFreeLevels (bar_chart_data self.now).symbols → IsOk result }
    {
        let full = Rect {
            x: plan.start,
            y: bar.at,
            width: bar.filled,
            height: self.bar_width,
        };
        let empty = Rect {
            x: plan.start.saturating_add(bar.filled),
            y: bar.at,
            width: plan.length.saturating_sub(bar.filled),
            height: self.bar_width,
        };
        let filled = StyledSymbol {
            symbol: self.bar_set.full,
            style: bar.style,
        };
        let unfilled = StyledSymbol {
            symbol: self.bar_set.empty,
            style: bar.style,
        };
        fill_clipped(alloc, buf, plan.area, full, filled)?;
        fill_clipped(alloc, buf, plan.area, empty, unfilled)
    }

    fn middle_of(&self, at: u16) -> u16
        ensures { result ≡ middle_of (bar_chart_data self.now) at }
    {
        at.saturating_add(self.bar_width / 2)
    }

    /// Draws a bar with its label and value.
    pub(super) fn paint_row(
        &self,
        alloc: Global,
        buf: &mut Buffer,
        plan: ChartPlan,
        shown: ShownBar<'_, 'a>,
    ) -> Mem<()>
        ensures ok { OnOk result (Painted (horizontal_bar_layers (bar_chart_data self.now) plan shown.entry.at (bar_data shown.entry.bar.now)) buf.old buf.new) }
        ensures kept { KeptOutside (covers plan.area) buf.old buf.new }
        ensures allocation_free { AreAllocationFreeLevels (bar_chart_data self.now).symbols → IsAllocationFreeBar Horizontal (bar_data shown.entry.bar.now) → IsOk result }
    {
        let filled = filled_of(plan, shown.bar);
        let style = self.bar_style.patch(shown.bar.style);
        let value_style = self.value_style.patch(shown.bar.value_style);
        let middle = self.middle_of(shown.at);
        let strip = HorizontalBar {
            at: shown.at,
            filled,
            style,
        };
        self.paint_strip(alloc, buf, plan, strip)?;
        paint_left(buf, plan, middle, shown.bar)?;
        let mut digits = Digits::new();
        let text = shown.bar.value_text(&mut digits);
        let within = StyledText {
            text,
            style: value_style,
        };
        paint_within(buf, plan, middle, filled, within)?;
        paint_beyond(buf, plan, middle, filled, StyledText { text, style })
    }

    /// Returns the row below `count` bars.
    fn gap_row(&self, plan: ChartPlan, at: u16, count: usize) -> Rect
        ensures { result ≡ gap_row (bar_chart_data self.now) plan at count }
    {
        let bars = count as u128 * (self.bar_width as u128 + self.bar_gap as u128);
        let below = at as u128 + bars.saturating_sub(self.bar_gap as u128);
        Rect {
            x: plan.start,
            y: below.min(FARTHEST_EDGE as u128) as u16,
            width: plan.length,
            height: 1,
        }
    }

    /// Writes the label of a group in the gap below the group.
    #[tactic(auto, unfolding(crate::specs::HorizontalBars::group_row_layers))]
    pub(super) fn paint_group_row(
        &self,
        buf: &mut Buffer,
        plan: ChartPlan,
        shown: ShownGroup<'_, 'a>,
    ) -> Mem<()>
        ensures ok { OnOk result (Painted (group_row_layers (bar_chart_data self.now) plan (shown_data shown.entry)) buf.old buf.new) }
        ensures kept { KeptOutside (covers plan.area) buf.old buf.new }
        ensures allocation_free { IsAllocationFreeLine (shown_data shown.entry).group.label → IsOk result }
    {
        if self.group_gap == 0 {
            return Ok(());
        }
        match &shown.group.label {
            None => Ok(()),
            Some(label) => {
                let row = self.gap_row(plan, shown.at, shown.count);
                self.paint_group_title(buf, plan.area, row, label)
            }
        }
    }
}
