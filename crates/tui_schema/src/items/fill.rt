//! The fields of `fill`.

ghost use Rattle.serde_json.specs.View.{view};
ghost use Rattle.tui_frames.specs.Fill.{fill_data};
ghost use Rattle.tui_schema.specs.Items.Fill.{fill_of};
ghost use Rattle.tui_json.specs.Refusals.{Gives};

use crate::bad_field::BadField;
use crate::field::Field;
use crate::items::frame::read_style;
use crate::kinds::Symbol;
use serde_json::Value;
use std::alloc::Global;
use tui_frames::Fill;
use tui_json::{InputError, required};

#[tactic(auto, unfolding(crate::specs::Items::Fill::fill_of))]
pub(crate) fn read_fill<'v>(
    alloc: Global,
    item: Option<usize>,
    value: &'v Value,
) -> Result<Fill<'v>, InputError<BadField>>
    ensures { Gives fill_data result (fill_of item (view value.now)) }
{
    let Symbol(symbol) = required(alloc, item, Field::Symbol, value)?;
    let style = read_style(alloc, item, Field::Style, value)?;
    Ok(Fill::new(symbol).style(style))
}
