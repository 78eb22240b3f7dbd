//! Passes over groups and their bars.

ghost use Rattle.std.specs.Prelude.{◌≡◌, ◌<◌, ◌≤◌, [], All, IsOk, OnOk, flat_map, length, if◌then◌else◌, ◌==◌};
ghost use Rattle.tui_bars.specs.BarChart.{bar_chart_data, bar_data};
ghost use Rattle.tui_bars.specs.AllocationFreeCharts.{IsAllocationFreeBar, IsAllocationFreeGroup, direction_of};
ghost use Rattle.tui_bars.specs.ChartStrokes.{bar_layers, group_layers, walk_layers};
ghost use Rattle.tui_bars.specs.Levels.{AreAllocationFreeLevels};
ghost use Rattle.tui_bars.specs.Shown.{bars_of, shown_data};
ghost use Rattle.tui_cells.specs.Layers.{KeptOutside, Painted};
ghost use Rattle.tui_cells.specs.Rect.{covers};

use crate::bar_chart::BarChart;
use crate::plan::{Pass, Stretch, Walk};
use crate::shown_bar::ShownBar;
use crate::shown_group::ShownGroup;
use std::alloc::Global;
use tui_cells::{Buffer, Mem};

impl<'a> BarChart<'a> {
    /// Draws one bar in a pass.
    #[tactic(auto, unfolding(crate::specs::ChartStrokes::bar_layers))]
    fn paint_bar(
        &self,
        alloc: Global,
        buf: &mut Buffer,
        walk: Walk,
        shown: ShownBar<'_, 'a>,
    ) -> Mem<()>
        ensures ok { OnOk result (Painted (bar_layers (bar_chart_data self.now) walk.plan walk.pass
            (record { at = shown.entry.at; bar = bar_data shown.entry.bar.now })) buf.old buf.new) }
        ensures kept { KeptOutside (covers walk.plan.area) buf.old buf.new }
        ensures allocation_free { AreAllocationFreeLevels (bar_chart_data self.now).symbols → IsAllocationFreeBar (direction_of walk.pass) (bar_data shown.entry.bar.now) → IsOk result }
    {
        match walk.pass {
            Pass::Columns => self.paint_column(alloc, buf, walk.plan, shown),
            Pass::Texts => self.paint_texts(buf, walk.plan, shown),
            Pass::Rows => self.paint_row(alloc, buf, walk.plan, shown),
        }
    }

    /// Draws the bars of a group that are shown.
    fn paint_bars(
        &self,
        alloc: Global,
        buf: &mut Buffer,
        walk: Walk,
        shown: ShownGroup<'_, 'a>,
    ) -> Mem<()>
        requires { shown.count ≤ length (shown_data shown).group.bars }
        ensures ok { OnOk result (Painted (flat_map (bar_layers (bar_chart_data self.now) walk.plan walk.pass)
            (bars_of (bar_chart_data self.now) (shown_data shown.entry))) buf.old buf.new) }
        ensures kept { KeptOutside (covers walk.plan.area) buf.old buf.new }
        ensures allocation_free { AreAllocationFreeLevels (bar_chart_data self.now).symbols
            → All (IsAllocationFreeBar (direction_of walk.pass)) (shown_data shown.entry).group.bars → IsOk result }
    {
        let mut place = shown.at;
        'bars: for j in 0..shown.count {
            let bar = &shown.group.bars[j];
            self.paint_bar(alloc, buf, walk, ShownBar { at: place, bar })?;
            place = self.step(place);
        }
        Ok(())
    }

    /// Draws a group of which at least one bar is shown.
    #[tactic(auto, unfolding(crate::specs::ChartStrokes::group_layers))]
    fn paint_group(
        &self,
        alloc: Global,
        buf: &mut Buffer,
        walk: Walk,
        shown: ShownGroup<'_, 'a>,
    ) -> Mem<()>
        requires { shown.count ≤ length (shown_data shown).group.bars }
        ensures ok { OnOk result (Painted (group_layers (bar_chart_data self.now) walk.plan walk.pass (shown_data shown.entry)) buf.old buf.new) }
        ensures kept { KeptOutside (covers walk.plan.area) buf.old buf.new }
        ensures allocation_free { AreAllocationFreeLevels (bar_chart_data self.now).symbols
            → IsAllocationFreeGroup (direction_of walk.pass) (shown_data shown.entry).group → IsOk result }
    {
        match walk.pass {
            Pass::Columns => self.paint_bars(alloc, buf, walk, shown),
            Pass::Texts => {
                self.paint_group_label(buf, walk.plan, shown)?;
                self.paint_bars(alloc, buf, walk, shown)
            }
            Pass::Rows => {
                self.paint_bars(alloc, buf, walk, shown)?;
                self.paint_group_row(buf, walk.plan, shown)
            }
        }
    }

    /// Draws a group if any of its bars is shown.
    fn paint_shown(
        &self,
        alloc: Global,
        buf: &mut Buffer,
        walk: Walk,
        shown: ShownGroup<'_, 'a>,
    ) -> Mem<()>
        requires { shown.count ≤ length (shown_data shown).group.bars }
        ensures ok { OnOk result (Painted (if shown.entry.count == 0 then []
            else group_layers (bar_chart_data self.now) walk.plan walk.pass (shown_data shown.entry)) buf.old buf.new) }
        ensures kept { KeptOutside (covers walk.plan.area) buf.old buf.new }
        ensures allocation_free { AreAllocationFreeLevels (bar_chart_data self.now).symbols
            → IsAllocationFreeGroup (direction_of walk.pass) (shown_data shown.entry).group → IsOk result }
    {
        if shown.count == 0 {
            return Ok(());
        }
        self.paint_group(alloc, buf, walk, shown)
    }

    /// Draws the groups that are shown in these columns or rows.
    pub(super) fn paint_walk(
        &self,
        alloc: Global,
        buf: &mut Buffer,
        walk: Walk,
        stretch: Stretch,
    ) -> Mem<()>
        requires { 0 < (bar_chart_data self.now).width }
        ensures ok { OnOk result (Painted (walk_layers (bar_chart_data self.now) walk.plan walk.pass stretch.first stretch.room) buf.old buf.new) }
        ensures kept { KeptOutside (covers walk.plan.area) buf.old buf.new }
        ensures allocation_free { AreAllocationFreeLevels (bar_chart_data self.now).symbols
            → All (IsAllocationFreeGroup (direction_of walk.pass)) (bar_chart_data self.now).groups → IsOk result }
    {
        let mut at = stretch.first;
        let mut space = stretch.room;
        'groups: for i in 0..self.groups.len() {
            let group = &self.groups[i];
            let bars = group.len();
            let count = self.shown_in(space, bars);
            self.paint_shown(alloc, buf, walk, ShownGroup { at, count, group })?;
            at = self.place_after(at, count);
            space = self.space_after(space, bars);
        }
        Ok(())
    }
}
