//! The fields of `sparkline`.

ghost use Rattle.std.specs.Prelude.{◌≡◌, map, option_map, unwrap_or};
ghost use Rattle.serde_json.specs.View.{view};
ghost use Rattle.tui_bars.specs.Sparkline.{empty_sparkline, sparkline_bar_data, sparkline_data};
ghost use Rattle.tui_cells.specs.Symbols.{bar_data as symbols_of};
ghost use Rattle.tui_frames.specs.Block.{block_data};
ghost use Rattle.tui_schema.specs.Items.ChartFields.{shown_sparkline, sparkline_strokes_of};
ghost use Rattle.tui_json.specs.Refusals.{Gives};

use crate::bad_field::BadField;
use crate::field::Field;
use crate::items::frame::{read_frame, read_style};
use crate::kinds::Symbol;
use serde_json::Value;
use std::alloc::Global;
use tui_bars::{RenderDirection, Sparkline, SparklineBar};
use tui_cells::{Style, bar};
use tui_frames::Block;
use tui_json::{InputError, optional, optional_named, required};

/// Returns a sparkline of bars in a block, with a style and a maximum.
fn framed<'v>(
    alloc: Global,
    bars: Vec<SparklineBar>,
    block: Option<Block<'v>>,
    style: Style,
    max: Option<u64>,
) -> Sparkline<'v>
    ensures { sparkline_data result ≡ record empty_sparkline {
      block = option_map block_data block.entry;
      style = style;
      bars = map sparkline_bar_data bars.items;
      max = max;
    } }
{
    let sparkline = Sparkline::new(alloc).style(style).data(bars);
    let sparkline = match block {
        Some(block) => sparkline.block(block),
        None => sparkline,
    };
    match max {
        Some(max) => sparkline.max(max),
        None => sparkline,
    }
}

/// Reads how missing values and bars are drawn, and the direction.
#[tactic(auto, unfolding(crate::specs::Items::ChartFields::sparkline_strokes_of))]
fn read_strokes<'v>(
    alloc: Global,
    item: Option<usize>,
    value: &'v Value,
) -> Result<
    (
        Style,
        Option<Symbol<'v>>,
        Option<bar::Set<'v>>,
        RenderDirection,
    ),
    InputError<BadField>,
>
    ensures { Gives (λ strokes. (strokes.0, option_map (λ s. s.0.now) strokes.1, option_map symbols_of strokes.2, strokes.3))
        result (sparkline_strokes_of item (view value.now)) }
{
    let style = read_style(alloc, item, Field::AbsentValueStyle, value)?;
    let absent: Option<Symbol<'v>> = optional(alloc, item, Field::AbsentValueSymbol, value)?;
    let symbols: Option<bar::Set<'v>> = optional(alloc, item, Field::BarSet, value)?;
    let direction: Option<RenderDirection> = optional_named(alloc, item, Field::Direction, value)?;
    Ok((
        style,
        absent,
        symbols,
        direction.unwrap_or(RenderDirection::LeftToRight),
    ))
}

/// Returns the sparkline with these strokes; symbols that are not given stay as they are.
fn drawn<'v>(
    sparkline: Sparkline<'v>,
    strokes: (
        Style,
        Option<Symbol<'v>>,
        Option<bar::Set<'v>>,
        RenderDirection,
    ),
) -> Sparkline<'v>
    ensures { sparkline_data result ≡ record (sparkline_data sparkline.entry) {
      absent_style = strokes.entry.0;
      absent_symbol = unwrap_or (option_map (λ s. s.0.now) strokes.entry.1) (sparkline_data sparkline.entry).absent_symbol;
      symbols = unwrap_or (option_map symbols_of strokes.entry.2) (sparkline_data sparkline.entry).symbols;
      direction = strokes.entry.3;
    } }
{
    let (style, absent, symbols, direction) = strokes;
    let sparkline = sparkline.absent_value_style(style).direction(direction);
    let sparkline = match absent {
        Some(Symbol(symbol)) => sparkline.absent_value_symbol(symbol),
        None => sparkline,
    };
    match symbols {
        Some(symbols) => sparkline.bar_set(symbols),
        None => sparkline,
    }
}

#[tactic(auto, unfolding(crate::specs::Items::ChartFields::shown_sparkline))]
pub(crate) fn read_sparkline<'v>(
    alloc: Global,
    item: Option<usize>,
    value: &'v Value,
) -> Result<Sparkline<'v>, InputError<BadField>>
    ensures { Gives sparkline_data result (shown_sparkline item (view value.now)) }
{
    let (block, style) = read_frame(alloc, item, value)?;
    let bars: Vec<SparklineBar> = required(alloc, item, Field::Data, value)?;
    let max: Option<u64> = optional(alloc, item, Field::Max, value)?;
    let sparkline = framed(alloc, bars, block, style, max);
    let strokes = read_strokes(alloc, item, value)?;
    Ok(drawn(sparkline, strokes))
}
