//! The field of `block`.

ghost use Rattle.serde_json.specs.View.{view};
ghost use Rattle.tui_frames.specs.Block.{block_data};
ghost use Rattle.tui_schema.specs.Items.Block.{block_in};
ghost use Rattle.tui_json.specs.Refusals.{Gives};

use crate::bad_field::BadField;
use crate::field::Field;
use serde_json::Value;
use std::alloc::Global;
use tui_frames::Block;
use tui_json::{InputError, optional};

#[tactic(auto, unfolding(crate::specs::Items::Block::block_in))]
pub(crate) fn read_block<'v>(
    alloc: Global,
    item: Option<usize>,
    value: &'v Value,
) -> Result<Block<'v>, InputError<BadField>>
    ensures { Gives block_data result (block_in item (view value.now)) }
{
    let block: Option<Block<'v>> = optional(alloc, item, Field::Block, value)?;
    Ok(block.unwrap_or(Block::new(alloc)))
}
