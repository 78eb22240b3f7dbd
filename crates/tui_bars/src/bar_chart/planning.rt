//! Computing what all bars of a chart share.

ghost use Rattle.std.specs.Prelude.{◌≡◌};
ghost use Rattle.std.specs.List.{list_any};
ghost use Rattle.tui_bars.specs.BarChart.{bar_chart_data, greatest_of, has_bar_label, has_group_label, label_width_of};
ghost use Rattle.tui_bars.specs.ChartStrokes.{horizontal_plan, vertical_plan};

use crate::bar_chart::BarChart;
use crate::plan::ChartPlan;
use tui_cells::{FARTHEST_EDGE, Rect};

impl<'a> BarChart<'a> {
    /// Returns the value that fills a bar, at least 1.
    fn greatest(&self) -> u64
        ensures { result ≡ greatest_of (bar_chart_data self.now) }
    {
        if let Some(max) = self.max {
            return max.max(1);
        }
        let mut most = 0;
        for group in &self.groups {
            most = most.max(group.greatest());
        }
        most.max(1)
    }

    fn has_bar_labels(&self) -> bool
        ensures { result ≡ list_any has_bar_label (bar_chart_data self.now).groups }
    {
        for group in &self.groups {
            if group.has_bar_label() {
                return true;
            }
        }
        false
    }

    fn has_group_labels(&self) -> bool
        ensures { result ≡ list_any has_group_label (bar_chart_data self.now).groups }
    {
        for group in &self.groups {
            if group.label.is_some() {
                return true;
            }
        }
        false
    }

    /// Returns the width of the widest bar label in columns.
    fn label_width(&self) -> u16
        ensures { result ≡ label_width_of (bar_chart_data self.now) }
    {
        let mut most = 0;
        for group in &self.groups {
            most = most.max(group.label_width());
        }
        most
    }

    /// Returns the plan of a vertical chart.
    pub(super) fn vertical_plan(&self, area: Rect) -> ChartPlan
        ensures { result ≡ vertical_plan (bar_chart_data self.now) area }
    {
        let has_room = area.height >= 2;
        let bar_labels = has_room & self.has_bar_labels();
        let is_free = !((area.height == 2) & bar_labels);
        let group_labels = has_room & self.has_group_labels() & is_free;
        ChartPlan {
            area,
            greatest: self.greatest(),
            length: area
                .height
                .saturating_sub(u16::from(bar_labels) + u16::from(group_labels)),
            bar_labels,
            group_labels,
            labels: 0,
            start: 0,
        }
    }

    /// Returns the plan of a horizontal chart.
    pub(super) fn horizontal_plan(&self, area: Rect) -> ChartPlan
        ensures { result ≡ horizontal_plan (bar_chart_data self.now) area }
    {
        let labels = self.label_width();
        let margin = u32::from(labels) + u32::from(labels > 0);
        ChartPlan {
            area,
            greatest: self.greatest(),
            length: (area.width as u32).saturating_sub(margin) as u16,
            bar_labels: false,
            group_labels: false,
            labels,
            start: (area.x as u32 + margin).min(FARTHEST_EDGE as u32) as u16,
        }
    }
}
