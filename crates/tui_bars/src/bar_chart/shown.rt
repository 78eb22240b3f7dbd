//! Which bars are shown, and where.

ghost use Rattle.std.specs.Prelude.{◌≡◌, ◌<◌, ◌≤◌};
ghost use Rattle.tui_bars.specs.BarChart.{bar_chart_data};
ghost use Rattle.tui_bars.specs.Shown.{place_after, extent_of, shown_in, space_after, step_of};

use crate::bar_chart::BarChart;
use tui_cells::FARTHEST_EDGE;

impl<'a> BarChart<'a> {
    /// Returns how many of `count` bars are shown in a space.
    pub(super) fn shown_in(&self, space: u16, count: usize) -> usize
        requires { 0 < (bar_chart_data self.now).width }
        ensures is { result ≡ shown_in (bar_chart_data self.now) space count }
        ensures some { result ≤ count }
    {
        let room = self.room(count);
        if room < space as u128 {
            return count;
        }
        let step = self.bar_width as usize + self.bar_gap as usize;
        count.min((space as usize + self.bar_gap as usize) / step)
    }

    /// Returns how many columns or rows `count` bars take, with the gaps between them.
    fn room(&self, count: usize) -> u128
        ensures { result ≡ extent_of (bar_chart_data self.now) count }
    {
        let gaps = count.saturating_sub(1) as u128;
        count as u128 * self.bar_width as u128 + gaps * self.bar_gap as u128
    }

    /// Returns the space that is left for the next group, 0 if the bars did not all fit.
    pub(super) fn space_after(&self, space: u16, count: usize) -> u16
        ensures { result ≡ space_after (bar_chart_data self.now) space count }
    {
        let used = self.room(count);
        if used >= space as u128 {
            return 0;
        }
        (space as u128).saturating_sub(used + self.group_gap as u128 + self.bar_gap as u128) as u16
    }

    /// Returns the column or row of the next group.
    pub(super) fn place_after(&self, place: u16, shown: usize) -> u16
        ensures { result ≡ place_after (bar_chart_data self.now) place shown }
    {
        let bars = shown as u128 * (self.bar_width as u128 + self.bar_gap as u128);
        let end = (place as u128 + bars).min(FARTHEST_EDGE as u128) as u16;
        end.saturating_add(self.group_gap)
    }

    /// Returns the column or row of the next bar.
    pub(super) fn step(&self, place: u16) -> u16
        ensures { result ≡ step_of (bar_chart_data self.now) place }
    {
        place
            .saturating_add(self.bar_width)
            .saturating_add(self.bar_gap)
    }
}
