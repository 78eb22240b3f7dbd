//! What many widgets have: a block around them, and styles.

ghost use Rattle.std.specs.Prelude.{option_map};
ghost use Rattle.serde_json.specs.View.{view};
ghost use Rattle.tui_frames.specs.Block.{block_data};
ghost use Rattle.tui_schema.specs.Items.Frame.{frame_in, style_in};
ghost use Rattle.tui_json.specs.Refusals.{Gives};

use crate::bad_field::BadField;
use crate::field::Field;
use serde_json::Value;
use std::alloc::Global;
use tui_cells::Style;
use tui_frames::Block;
use tui_json::{InputError, optional};

/// Reads a style that may be absent or null, which gives an empty style.
#[tactic(auto, unfolding(crate::specs::Items::Frame::style_in))]
pub(crate) fn read_style(
    alloc: Global,
    item: Option<usize>,
    field: Field,
    value: &Value,
) -> Result<Style, InputError<BadField>>
    ensures { Gives (λ style. style) result (style_in item field (view value.now)) }
{
    let style: Option<Style> = optional(alloc, item, field, value)?;
    Ok(style.unwrap_or(Style::new()))
}

/// Reads the block around a widget, if there is one, and the style of the widget.
#[tactic(auto, unfolding(crate::specs::Items::Frame::frame_in))]
pub(crate) fn read_frame<'v>(
    alloc: Global,
    item: Option<usize>,
    value: &'v Value,
) -> Result<(Option<Block<'v>>, Style), InputError<BadField>>
    ensures { Gives (λ frame. (option_map block_data frame.0, frame.1)) result (frame_in item (view value.now)) }
{
    let block: Option<Block<'v>> = optional(alloc, item, Field::Block, value)?;
    Ok((block, read_style(alloc, item, Field::Style, value)?))
}
