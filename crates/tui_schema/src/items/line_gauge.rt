//! The fields of `line_gauge`.

ghost use Rattle.std.specs.Prelude.{◌≡◌, option_map, unwrap_or};
ghost use Rattle.std.specs.Option.{option_or};
ghost use Rattle.serde_json.specs.View.{view};
ghost use Rattle.tui_bars.specs.LineGauge.{line_gauge_data};
ghost use Rattle.tui_frames.specs.Block.{block_data};
ghost use Rattle.tui_schema.specs.Items.GaugeFields.{line_gauge_with_share, line_with_ratio, shown_line_gauge, strokes_of};
ghost use Rattle.tui_json.specs.Refusals.{Gives};
ghost use Rattle.tui_text.specs.Line.{line_data};

use crate::bad_field::BadField;
use crate::field::Field;
use crate::items::frame::{read_frame, read_style};
use crate::kinds::Symbol;
use serde_json::Value;
use std::alloc::Global;
use tui_bars::LineGauge;
use tui_cells::Style;
use tui_frames::Block;
use tui_json::{Fields, InputError, optional};
use tui_layout::Fraction;
use tui_text::Line;

fn with_ratio<'v>(
    item: Option<usize>,
    gauge: LineGauge<'v>,
    ratio: Option<Fraction>,
) -> Result<LineGauge<'v>, InputError<BadField>>
    ensures { Gives line_gauge_data result (line_with_ratio item (line_gauge_data gauge.entry) ratio) }
{
    let Some(ratio) = ratio else {
        return Ok(gauge);
    };
    match gauge.ratio(ratio) {
        Ok(gauge) => Ok(gauge),
        Err(_) => Err(InputError::Refused(Field::Ratio.refusal(item))),
    }
}

#[tactic(auto, unfolding(crate::specs::Items::GaugeFields::line_gauge_with_share))]
fn read_share<'v>(
    alloc: Global,
    item: Option<usize>,
    value: &'v Value,
) -> Result<LineGauge<'v>, InputError<BadField>>
    ensures { Gives line_gauge_data result (line_gauge_with_share item (view value.now)) }
{
    let ratio: Option<Fraction> = optional(alloc, item, Field::Ratio, value)?;
    with_ratio(item, LineGauge::default(), ratio)
}

/// Reads the symbols and their styles.
#[tactic(auto, unfolding(crate::specs::Items::GaugeFields::strokes_of))]
fn read_strokes<'v>(
    alloc: Global,
    item: Option<usize>,
    value: &'v Value,
) -> Result<(Option<Symbol<'v>>, Option<Symbol<'v>>, Style, Style), InputError<BadField>>
    ensures { Gives (λ strokes. (option_map (λ s. s.0.now) strokes.0, option_map (λ s. s.0.now) strokes.1, strokes.2, strokes.3))
        result (strokes_of item (view value.now)) }
{
    let filled: Option<Symbol<'v>> = optional(alloc, item, Field::FilledSymbol, value)?;
    let unfilled: Option<Symbol<'v>> = optional(alloc, item, Field::UnfilledSymbol, value)?;
    let filled_style = read_style(alloc, item, Field::FilledStyle, value)?;
    let unfilled_style = read_style(alloc, item, Field::UnfilledStyle, value)?;
    Ok((filled, unfilled, filled_style, unfilled_style))
}

/// Returns the line gauge with this style, and with a block and a label, if they are given.
fn framed<'v>(
    gauge: LineGauge<'v>,
    block: Option<Block<'v>>,
    style: Style,
    label: Option<Line<'v>>,
) -> LineGauge<'v>
    ensures { line_gauge_data result ≡ record (line_gauge_data gauge.entry) {
      block = option_or (option_map block_data block.entry) (line_gauge_data gauge.entry).block;
      label = option_or (option_map line_data label.entry) (line_gauge_data gauge.entry).label;
      style = style;
    } }
{
    let gauge = gauge.style(style);
    let gauge = match block {
        Some(block) => gauge.block(block),
        None => gauge,
    };
    match label {
        Some(label) => gauge.label(label),
        None => gauge,
    }
}

/// Returns the line gauge with these styles, and with these symbols, if they are given.
fn drawn<'v>(
    gauge: LineGauge<'v>,
    strokes: (Option<Symbol<'v>>, Option<Symbol<'v>>, Style, Style),
) -> LineGauge<'v>
    ensures { line_gauge_data result ≡ record (line_gauge_data gauge.entry) {
      filled = unwrap_or (option_map (λ s. s.0.now) strokes.entry.0) (line_gauge_data gauge.entry).filled;
      unfilled = unwrap_or (option_map (λ s. s.0.now) strokes.entry.1) (line_gauge_data gauge.entry).unfilled;
      filled_style = strokes.entry.2;
      unfilled_style = strokes.entry.3;
    } }
{
    let (filled, unfilled, filled_style, unfilled_style) = strokes;
    let gauge = gauge
        .filled_style(filled_style)
        .unfilled_style(unfilled_style);
    let gauge = match filled {
        Some(Symbol(symbol)) => gauge.filled_symbol(symbol),
        None => gauge,
    };
    match unfilled {
        Some(Symbol(symbol)) => gauge.unfilled_symbol(symbol),
        None => gauge,
    }
}

#[tactic(auto, unfolding(crate::specs::Items::GaugeFields::shown_line_gauge))]
pub(crate) fn read_line_gauge<'v>(
    alloc: Global,
    item: Option<usize>,
    value: &'v Value,
) -> Result<LineGauge<'v>, InputError<BadField>>
    ensures { Gives line_gauge_data result (shown_line_gauge item (view value.now)) }
{
    let (block, style) = read_frame(alloc, item, value)?;
    let gauge = read_share(alloc, item, value)?;
    let label: Option<Line<'v>> = optional(alloc, item, Field::Label, value)?;
    let strokes = read_strokes(alloc, item, value)?;
    Ok(drawn(framed(gauge, block, style, label), strokes))
}
