//! The fields of `bar_chart`.

ghost use Rattle.std.specs.Prelude.{◌≡◌, map, option_map, unwrap_or};
ghost use Rattle.serde_json.specs.View.{view};
ghost use Rattle.tui_bars.specs.BarChart.{bar_chart_data, chart_of, group_data, with_bars};
ghost use Rattle.tui_cells.specs.Symbols.{bar_data as symbols_of};
ghost use Rattle.tui_frames.specs.Block.{block_data};
ghost use Rattle.tui_layout.specs.declared.direction.Direction.TheVariants.{Vertical};
ghost use Rattle.tui_schema.specs.Items.ChartFields.{chart_space_of, chart_styles_of, shown_chart};
ghost use Rattle.tui_json.specs.Refusals.{Gives};

use crate::bad_field::BadField;
use crate::field::Field;
use crate::items::frame::{read_frame, read_style};
use serde_json::Value;
use std::alloc::Global;
use tui_bars::{BarChart, BarGroup};
use tui_cells::{Style, bar};
use tui_frames::Block;
use tui_json::{InputError, optional, optional_named, required};
use tui_layout::Direction;

/// Returns a chart of groups in a block, with a style and a maximum.
fn framed<'v>(
    groups: Vec<BarGroup<'v>>,
    block: Option<Block<'v>>,
    style: Style,
    max: Option<u64>,
) -> BarChart<'v>
    ensures { bar_chart_data result ≡ record (chart_of Vertical (with_bars (map group_data groups.entry.items))) {
      block = option_map block_data block.entry;
      style = style;
      max = max;
    } }
{
    let chart = BarChart::grouped(groups).style(style);
    let chart = match block {
        Some(block) => chart.block(block),
        None => chart,
    };
    match max {
        Some(max) => chart.max(max),
        None => chart,
    }
}

/// Reads the widths of the bars and of the gaps between them, and the symbols.
#[tactic(auto, unfolding(crate::specs::Items::ChartFields::chart_space_of))]
fn read_space<'v>(
    alloc: Global,
    item: Option<usize>,
    value: &'v Value,
) -> Result<(u16, u16, u16, Option<bar::Set<'v>>), InputError<BadField>>
    ensures { Gives (λ space. (space.0, space.1, space.2, option_map symbols_of space.3)) result (chart_space_of item (view value.now)) }
{
    let width: Option<u16> = optional(alloc, item, Field::BarWidth, value)?;
    let gap: Option<u16> = optional(alloc, item, Field::BarGap, value)?;
    let group_gap: Option<u16> = optional(alloc, item, Field::GroupGap, value)?;
    let symbols: Option<bar::Set<'v>> = optional(alloc, item, Field::BarSet, value)?;
    Ok((
        width.unwrap_or(1),
        gap.unwrap_or(1),
        group_gap.unwrap_or(0),
        symbols,
    ))
}

/// Reads the styles of bars, values and labels, and the direction.
#[tactic(auto, unfolding(crate::specs::Items::ChartFields::chart_styles_of))]
fn read_styles(
    alloc: Global,
    item: Option<usize>,
    value: &Value,
) -> Result<(Style, Style, Style, Direction), InputError<BadField>>
    ensures { Gives (λ styles. styles) result (chart_styles_of item (view value.now)) }
{
    let bar = read_style(alloc, item, Field::BarStyle, value)?;
    let number = read_style(alloc, item, Field::ValueStyle, value)?;
    let label = read_style(alloc, item, Field::LabelStyle, value)?;
    let direction: Option<Direction> = optional_named(alloc, item, Field::Direction, value)?;
    Ok((bar, number, label, direction.unwrap_or(Direction::Vertical)))
}

/// Returns the chart with this space of its bars and these styles, and with symbols, if they are given.
fn spaced<'v>(
    chart: BarChart<'v>,
    space: (u16, u16, u16, Option<bar::Set<'v>>),
    styles: (Style, Style, Style, Direction),
) -> BarChart<'v>
    ensures { bar_chart_data result ≡ record (bar_chart_data chart.entry) {
      width = space.entry.0;
      gap = space.entry.1;
      group_gap = space.entry.2;
      symbols = unwrap_or (option_map symbols_of space.entry.3) (bar_chart_data chart.entry).symbols;
      bar_style = styles.0;
      value_style = styles.1;
      label_style = styles.2;
      direction = styles.3;
    } }
{
    let (width, gap, group_gap, symbols) = space;
    let (bar, number, label, direction) = styles;
    let chart = chart.bar_width(width).bar_gap(gap).group_gap(group_gap);
    let chart = chart
        .bar_style(bar)
        .value_style(number)
        .label_style(label)
        .direction(direction);
    match symbols {
        Some(symbols) => chart.bar_set(symbols),
        None => chart,
    }
}

#[tactic(auto, unfolding(crate::specs::Items::ChartFields::shown_chart))]
pub(crate) fn read_bar_chart<'v>(
    alloc: Global,
    item: Option<usize>,
    value: &'v Value,
) -> Result<BarChart<'v>, InputError<BadField>>
    ensures { Gives bar_chart_data result (shown_chart item (view value.now)) }
{
    let (block, style) = read_frame(alloc, item, value)?;
    let groups: Vec<BarGroup<'v>> = required(alloc, item, Field::Groups, value)?;
    let max: Option<u64> = optional(alloc, item, Field::Max, value)?;
    let chart = framed(groups, block, style, max);
    let space = read_space(alloc, item, value)?;
    let styles = read_styles(alloc, item, value)?;
    Ok(spaced(chart, space, styles))
}
