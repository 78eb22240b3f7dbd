//! The fields of `paragraph`.

ghost use Rattle.std.specs.Prelude.{◌≡◌, None, option_map};
ghost use Rattle.serde_json.specs.View.{view};
ghost use Rattle.tui_frames.specs.Block.{block_data};
ghost use Rattle.tui_text.specs.Text.{text_data};
ghost use Rattle.tui_para.specs.Paragraph.{paragraph_data};
ghost use Rattle.tui_schema.specs.Items.Paragraph.{paragraph_of, paragraph_with};
ghost use Rattle.tui_json.specs.Refusals.{Gives};

use crate::bad_field::BadField;
use crate::field::Field;
use crate::items::frame::read_frame;
use serde_json::Value;
use std::alloc::Global;
use tui_cells::Style;
use tui_frames::Block;
use tui_json::{InputError, optional, optional_named, required};
use tui_para::{Paragraph, Wrap};
use tui_text::{Alignment, Text};

/// Returns a paragraph with these fields, and with the defaults of `Paragraph::new` for the others.
fn paragraph_with<'v>(
    text: Text<'v>,
    style: Style,
    wrap: Option<Wrap>,
    scroll: Option<(u16, u16)>,
    alignment: Option<Alignment>,
) -> Paragraph<'v>
    ensures { paragraph_data result ≡ paragraph_with (text_data text.entry) style wrap scroll alignment }
{
    let alignment = alignment.or(text.text_alignment());
    let paragraph = Paragraph::new(text)
        .style(style)
        .scroll(scroll.unwrap_or((0, 0)))
        .alignment(alignment.unwrap_or(Alignment::Left));
    match wrap {
        Some(wrap) => paragraph.wrap(wrap),
        None => paragraph,
    }
}

fn in_block<'v>(paragraph: Paragraph<'v>, block: Option<Block<'v>>) -> Paragraph<'v>
    requires { (paragraph_data paragraph).block ≡ None }
    ensures { paragraph_data result ≡ record (paragraph_data paragraph.entry) { block = option_map block_data block.entry } }
{
    match block {
        Some(block) => paragraph.block(block),
        None => paragraph,
    }
}

#[tactic(auto, unfolding(crate::specs::Items::Paragraph::paragraph_of))]
pub(crate) fn read_paragraph<'v>(
    alloc: Global,
    item: Option<usize>,
    value: &'v Value,
) -> Result<Paragraph<'v>, InputError<BadField>>
    ensures { Gives paragraph_data result (paragraph_of item (view value.now)) }
{
    let (block, style) = read_frame(alloc, item, value)?;
    let text: Text<'v> = required(alloc, item, Field::Text, value)?;
    let wrap: Option<Wrap> = optional(alloc, item, Field::Wrap, value)?;
    let scroll: Option<(u16, u16)> = optional(alloc, item, Field::Scroll, value)?;
    let alignment: Option<Alignment> = optional_named(alloc, item, Field::Alignment, value)?;
    let paragraph = paragraph_with(text, style, wrap, scroll, alignment);
    Ok(in_block(paragraph, block))
}
