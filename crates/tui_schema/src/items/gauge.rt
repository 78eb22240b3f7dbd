//! The fields of `gauge`.

ghost use Rattle.std.specs.Prelude.{◌≡◌, option_map};
ghost use Rattle.std.specs.Option.{option_or};
ghost use Rattle.serde_json.specs.View.{view};
ghost use Rattle.tui_bars.specs.Gauge.{gauge_data};
ghost use Rattle.tui_frames.specs.Block.{block_data};
ghost use Rattle.tui_schema.specs.Items.GaugeFields.{
  filling_of,
  gauge_with_percent,
  gauge_with_ratio,
  gauge_with_share,
  shown_gauge,
};
ghost use Rattle.tui_json.specs.Refusals.{Gives};
ghost use Rattle.tui_text.specs.Span.{span_data};

use crate::bad_field::BadField;
use crate::field::Field;
use crate::items::frame::{read_frame, read_style};
use serde_json::Value;
use std::alloc::Global;
use tui_bars::Gauge;
use tui_cells::Style;
use tui_frames::Block;
use tui_json::{Fields, InputError, optional};
use tui_layout::Fraction;
use tui_text::Span;

fn with_ratio<'v>(
    item: Option<usize>,
    gauge: Gauge<'v>,
    ratio: Option<Fraction>,
) -> Result<Gauge<'v>, InputError<BadField>>
    ensures { Gives gauge_data result (gauge_with_ratio item (gauge_data gauge.entry) ratio) }
{
    let Some(ratio) = ratio else {
        return Ok(gauge);
    };
    match gauge.ratio(ratio) {
        Ok(gauge) => Ok(gauge),
        Err(_) => Err(InputError::Refused(Field::Ratio.refusal(item))),
    }
}

fn with_percent<'v>(
    item: Option<usize>,
    gauge: Gauge<'v>,
    percent: Option<u16>,
) -> Result<Gauge<'v>, InputError<BadField>>
    ensures { Gives gauge_data result (gauge_with_percent item (gauge_data gauge.entry) percent) }
{
    let Some(percent) = percent else {
        return Ok(gauge);
    };
    match gauge.percent(percent) {
        Ok(gauge) => Ok(gauge),
        Err(_) => Err(InputError::Refused(Field::Percent.refusal(item))),
    }
}

/// Reads the share of a gauge: `percent` if it is there, or else `ratio`.
#[tactic(auto, unfolding(crate::specs::Items::GaugeFields::gauge_with_share))]
fn read_share<'v>(
    alloc: Global,
    item: Option<usize>,
    value: &'v Value,
) -> Result<Gauge<'v>, InputError<BadField>>
    ensures { Gives gauge_data result (gauge_with_share item (view value.now)) }
{
    let ratio: Option<Fraction> = optional(alloc, item, Field::Ratio, value)?;
    let gauge = with_ratio(item, Gauge::default(), ratio)?;
    let percent: Option<u16> = optional(alloc, item, Field::Percent, value)?;
    with_percent(item, gauge, percent)
}

/// Reads the label, and how the gauge is filled.
#[tactic(auto, unfolding(crate::specs::Items::GaugeFields::filling_of))]
fn read_filling<'v>(
    alloc: Global,
    item: Option<usize>,
    value: &'v Value,
) -> Result<(Option<Span<'v>>, Style, bool), InputError<BadField>>
    ensures { Gives (λ filling. (option_map span_data filling.0, filling.1, filling.2)) result (filling_of item (view value.now)) }
{
    let label: Option<Span<'v>> = optional(alloc, item, Field::Label, value)?;
    let style = read_style(alloc, item, Field::GaugeStyle, value)?;
    let use_unicode: Option<bool> = optional(alloc, item, Field::UseUnicode, value)?;
    Ok((label, style, use_unicode.unwrap_or(false)))
}

/// Returns the gauge in this block, if there is one, with this style and this filling.
fn filled<'v>(
    gauge: Gauge<'v>,
    block: Option<Block<'v>>,
    style: Style,
    filling: (Option<Span<'v>>, Style, bool),
) -> Gauge<'v>
    ensures { gauge_data result ≡ record (gauge_data gauge.entry) {
      block = option_or (option_map block_data block.entry) (gauge_data gauge.entry).block;
      style = style;
      label = option_or (option_map span_data filling.entry.0) (gauge_data gauge.entry).label;
      gauge_style = filling.entry.1;
      use_unicode = filling.entry.2;
    } }
{
    let (label, gauge_style, use_unicode) = filling;
    let gauge = gauge
        .style(style)
        .gauge_style(gauge_style)
        .use_unicode(use_unicode);
    let gauge = match block {
        Some(block) => gauge.block(block),
        None => gauge,
    };
    match label {
        Some(label) => gauge.label(label),
        None => gauge,
    }
}

#[tactic(auto, unfolding(crate::specs::Items::GaugeFields::shown_gauge))]
pub(crate) fn read_gauge<'v>(
    alloc: Global,
    item: Option<usize>,
    value: &'v Value,
) -> Result<Gauge<'v>, InputError<BadField>>
    ensures { Gives gauge_data result (shown_gauge item (view value.now)) }
{
    let (block, style) = read_frame(alloc, item, value)?;
    let gauge = read_share(alloc, item, value)?;
    let filling = read_filling(alloc, item, value)?;
    Ok(filled(gauge, block, style, filling))
}
