//! Charts of bars in groups.

ghost use Rattle.std.specs.Prelude.{◌≡◌, [], ◌∷◌, ◌++◌, IfOk, OnErr, OnOk, Some, map, true};
ghost use Rattle.tui_bars.specs.BarChart.{bar_chart_data, bar_data, chart_of, group_data, one_group, with_bars};
ghost use Rattle.tui_cells.specs.Symbols.{bar_data as symbols_of};
ghost use Rattle.tui_frames.specs.Block.{block_data};
ghost use Rattle.tui_layout.specs.declared.direction.Direction.TheVariants.{Horizontal, Vertical};

mod horizontal_bars;
mod planning;
mod rendering;
mod shown;
mod vertical_bars;
mod walking;

use crate::bar::Bar;
use crate::bar_group::BarGroup;
use std::alloc::Global;
use tui_cells::{Mem, Style, Styled, bar};
use tui_frames::{Block, clone_if_some};
use tui_layout::Direction;

/// Bars in groups, side by side or one below the other. The greatest value fills the available length.
#[derive(Debug, PartialEq, Eq, Hash)]
pub struct BarChart<'a> {
    block: Option<Block<'a>>,
    groups: Vec<BarGroup<'a>>,
    style: Style,
    max: Option<u64>,
    bar_width: u16,
    bar_gap: u16,
    group_gap: u16,
    bar_set: bar::Set<'a>,
    bar_style: Style,
    value_style: Style,
    label_style: Style,
    direction: Direction,
}

// Written by hand, so that dependent crates need no proofs about dropping the fields.
impl<'a> Drop for BarChart<'a> {
    fn drop(self) {
        let BarChart {
            block,
            groups,
            style,
            max,
            bar_width,
            bar_gap,
            group_gap,
            bar_set,
            bar_style,
            value_style,
            label_style,
            direction,
        } = self;
    }
}

impl<'a> BarChart<'a> {
    /// Returns a vertical chart with one group of these bars, or with no group if there are no bars. Fails with
    /// `NoMemory` if the group can't be allocated.
    pub fn new(alloc: Global, bars: Vec<Bar<'a>>) -> Mem<BarChart<'a>>
        ensures { IfOk result (λ chart. bar_chart_data chart ≡ chart_of Vertical (one_group (map bar_data bars.entry.items))) }
    {
        let mut groups = Vec::with_capacity(alloc, 1)?;
        groups.push(BarGroup::new(bars))?;
        Ok(BarChart::grouped(groups))
    }

    /// Returns a vertical chart, as `new` does.
    pub fn vertical(alloc: Global, bars: Vec<Bar<'a>>) -> Mem<BarChart<'a>>
        ensures { IfOk result (λ chart. bar_chart_data chart ≡ chart_of Vertical (one_group (map bar_data bars.entry.items))) }
    {
        BarChart::new(alloc, bars)
    }

    /// Returns a horizontal chart of these bars. Fails as `new` does.
    pub fn horizontal(alloc: Global, bars: Vec<Bar<'a>>) -> Mem<BarChart<'a>>
        ensures { IfOk result (λ chart. bar_chart_data chart ≡ chart_of Horizontal (one_group (map bar_data bars.entry.items))) }
    {
        Ok(BarChart::new(alloc, bars)?.direction(Direction::Horizontal))
    }

    /// Returns a vertical chart of these groups. Groups without bars are left out.
    pub fn grouped(groups: Vec<BarGroup<'a>>) -> BarChart<'a>
        ensures { bar_chart_data result ≡ chart_of Vertical (with_bars (map group_data groups.entry.items)) }
    {
        BarChart {
            block: None,
            groups: without_empty(groups),
            style: Style::new(),
            max: None,
            bar_width: 1,
            bar_gap: 1,
            group_gap: 0,
            bar_set: bar::NINE_LEVELS,
            bar_style: Style::new(),
            value_style: Style::new(),
            label_style: Style::new(),
            direction: Direction::Vertical,
        }
    }

    /// Appends a group, or leaves it out if it has no bars. On `NoMemory` the chart is unchanged and the group is
    /// dropped.
    pub fn data(&mut self, group: BarGroup<'a>) -> Mem<()>
        ensures ok { OnOk result (bar_chart_data self.new ≡ record (bar_chart_data self.old) {
          groups = (bar_chart_data self.old).groups ++ with_bars (group_data group.entry ∷ []);
        }) }
        ensures err { OnErr result (bar_chart_data self.new ≡ bar_chart_data self.old) }
    {
        if group.has_bars() {
            self.groups.push(group)?;
        }
        Ok(())
    }

    /// Sets the block around the chart. The chart is drawn in the block's inner area.
    pub fn block(mut self, block: Block<'a>) -> BarChart<'a>
        ensures { bar_chart_data result ≡ record (bar_chart_data self.entry) { block = Some (block_data block.entry) } }
    {
        self.block = Some(block);
        self
    }

    /// Sets the value that fills a bar, instead of the greatest of the values. 0 counts as 1.
    pub fn max(mut self, max: u64) -> BarChart<'a>
        ensures { bar_chart_data result ≡ record (bar_chart_data self.entry) { max = Some max } }
    {
        self.max = Some(max);
        self
    }

    /// Sets the style of the bars.
    pub fn bar_style(mut self, style: Style) -> BarChart<'a>
        ensures { bar_chart_data result ≡ record (bar_chart_data self.entry) { bar_style = style } }
    {
        self.bar_style = style;
        self
    }

    /// Sets the width of a bar in columns, or its height in rows in a horizontal chart.
    pub fn bar_width(mut self, width: u16) -> BarChart<'a>
        ensures { bar_chart_data result ≡ record (bar_chart_data self.entry) { width = width } }
    {
        self.bar_width = width;
        self
    }

    /// Sets the columns between two bars, or the rows in a horizontal chart.
    pub fn bar_gap(mut self, gap: u16) -> BarChart<'a>
        ensures { bar_chart_data result ≡ record (bar_chart_data self.entry) { gap = gap } }
    {
        self.bar_gap = gap;
        self
    }

    /// Sets the symbols of partly filled cells. A horizontal chart uses only the full and the empty one.
    pub fn bar_set(mut self, set: bar::Set<'a>) -> BarChart<'a>
        ensures { bar_chart_data result ≡ record (bar_chart_data self.entry) { symbols = symbols_of set.entry } }
    {
        self.bar_set = set;
        self
    }

    /// Sets the style of the values.
    pub fn value_style(mut self, style: Style) -> BarChart<'a>
        ensures { bar_chart_data result ≡ record (bar_chart_data self.entry) { value_style = style } }
    {
        self.value_style = style;
        self
    }

    /// Sets the style under the labels. A horizontal chart uses it only for the labels of groups.
    pub fn label_style(mut self, style: Style) -> BarChart<'a>
        ensures { bar_chart_data result ≡ record (bar_chart_data self.entry) { label_style = style } }
    {
        self.label_style = style;
        self
    }

    /// Sets the columns after a group, or the rows in a horizontal chart. The gap of the group's last bar is added to
    /// them.
    pub fn group_gap(mut self, gap: u16) -> BarChart<'a>
        ensures { bar_chart_data result ≡ record (bar_chart_data self.entry) { group_gap = gap } }
    {
        self.group_gap = gap;
        self
    }

    /// Sets the style under everything, including the block's area.
    pub fn style(mut self, style: Style) -> BarChart<'a>
        ensures { bar_chart_data result ≡ record (bar_chart_data self.entry) { style = style } }
    {
        self.style = style;
        self
    }

    /// Sets whether the bars are side by side (`Vertical`) or one below the other (`Horizontal`).
    pub fn direction(mut self, direction: Direction) -> BarChart<'a>
        ensures { bar_chart_data result ≡ record (bar_chart_data self.entry) { direction = direction } }
    {
        self.direction = direction;
        self
    }

    /// Returns an equal copy. Fails with `NoMemory` if the block or the groups can't be allocated.
    pub fn clone(&self) -> Mem<BarChart<'a>>
        ensures is { IfOk result (λ chart. bar_chart_data chart ≡ bar_chart_data self.now) }
        ensures equal { IfOk result (λ chart. ⟦<BarChart<'a> as PartialEq>⟧.eq chart self.now ≡ true) }
    {
        let mut groups = Vec::with_capacity(*self.groups.allocator(), self.groups.len())?;
        for group in &self.groups {
            groups.push(group.clone()?)?;
        }
        Ok(BarChart {
            block: clone_if_some(&self.block)?,
            groups,
            ..*self
        })
    }
}

fn without_empty<'a>(groups: Vec<BarGroup<'a>>) -> Vec<BarGroup<'a>>
    ensures { map group_data result.items ≡ with_bars (map group_data groups.entry.items) }
{
    let mut groups = groups;
    groups.retain(|group| group.has_bars());
    groups
}

impl<'a> Styled for BarChart<'a> {
    ghost style_of = { λ chart. chart.style };

    ghost with_style = { λ chart style. record chart { style = style } };

    fn style(&self) -> Style {
        self.style
    }

    fn set_style(mut self, style: Style) -> BarChart<'a> {
        self.style = style;
        self
    }
}
