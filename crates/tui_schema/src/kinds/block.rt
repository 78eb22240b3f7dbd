//! Blocks: objects whose members may all be left out.

ghost use Rattle.std.specs.Prelude.{◌≡◌, IfOk, map, option_map};
ghost use Rattle.std.specs.Option.{option_or};
ghost use Rattle.serde_json.specs.View.{view};
ghost use Rattle.tui_frames.specs.Block.{block_data, block_of as new_block, title_data};
ghost use Rattle.tui_frames.specs.BorderType.{symbols_of};
ghost use Rattle.tui_frames.specs.Shadow.{shadow_data};
ghost use Rattle.tui_json.specs.Faults.{fault_data};
ghost use Rattle.tui_json.specs.Kinds.{Reads};
ghost use Rattle.tui_schema.specs.Faults.{frame_parts, titles_parts};
ghost use Rattle.tui_schema.specs.Kinds.Block.{block_of, borders_in, space_in, titles_in};

use crate::field::Field;
use crate::kinds::member::{
    named_fault, optional_member, optional_member_fault, optional_named_member,
};
use crate::kinds::style::{style_member, style_member_fault};
use serde_json::Value;
use std::alloc::Global;
use tui_cells::{Mem, MergeStrategy, Style};
use tui_frames::{Block, BorderType, Borders, Padding, Shadow, Title, TitlePosition};
use tui_json::{Explains, Fault, Kind, KindError, Wanted};
use tui_text::Alignment;

/// Reads the sides, the kind and the style of the borders.
#[tactic(auto, unfolding(crate::specs::Kinds::Block::borders_in))]
fn read_borders(alloc: Global, value: &Value) -> Result<(Borders, BorderType, Style), KindError>
    ensures { Reads (λ borders. borders) result (borders_in (view value.now)) }
{
    let borders: Option<Borders> = optional_member(alloc, value, "borders")?;
    let kind: Option<BorderType> = optional_named_member(alloc, value, "border_type")?;
    let style = style_member(alloc, value, "border_style")?;
    let borders = borders.unwrap_or(Borders::NONE);
    let kind = kind.unwrap_or(BorderType::Plain);
    Ok((borders, kind, style))
}

/// Reads the style and the padding of a block.
#[tactic(auto, unfolding(crate::specs::Kinds::Block::space_in))]
fn read_space(alloc: Global, value: &Value) -> Result<(Style, Padding), KindError>
    ensures { Reads (λ space. space) result (space_in (view value.now)) }
{
    let style = style_member(alloc, value, "style")?;
    let padding: Option<Padding> = optional_member(alloc, value, "padding")?;
    Ok((style, padding.unwrap_or(Padding::ZERO)))
}

/// Reads the titles of a block, and their style, alignment and position.
#[tactic(auto, unfolding(crate::specs::Kinds::Block::titles_in))]
fn read_titles<'v>(
    alloc: Global,
    value: &'v Value,
) -> Result<(Vec<Title<'v>>, Style, Alignment, TitlePosition), KindError>
    ensures { Reads (λ titles. (map title_data titles.0.items, titles.1, titles.2, titles.3)) result (titles_in (view value.now)) }
{
    let titles: Option<Vec<Title<'v>>> = optional_member(alloc, value, "titles")?;
    let style = style_member(alloc, value, "title_style")?;
    let alignment: Option<Alignment> = optional_named_member(alloc, value, "title_alignment")?;
    let position: Option<TitlePosition> = optional_named_member(alloc, value, "title_position")?;
    let titles = titles.unwrap_or(Vec::new(alloc));
    let alignment = alignment.unwrap_or(Alignment::Left);
    Ok((
        titles,
        style,
        alignment,
        position.unwrap_or(TitlePosition::Top),
    ))
}

/// Returns a block with these borders and titles, and with this space around its content.
fn framed<'v>(
    alloc: Global,
    borders: (Borders, BorderType, Style),
    space: (Style, Padding),
    titles: (Vec<Title<'v>>, Style, Alignment, TitlePosition),
) -> Block<'v>
    ensures { block_data result ≡ record (new_block 0) {
      borders = borders.0;
      symbols = symbols_of borders.1;
      border_style = borders.2;
      style = space.0;
      padding = space.1;
      titles = map title_data titles.entry.0.items;
      title_style = titles.entry.1;
      title_alignment = titles.entry.2;
      title_position = titles.entry.3;
    } }
{
    let block = Block::new(alloc)
        .borders(borders.0)
        .border_type(borders.1)
        .border_style(borders.2)
        .style(space.0)
        .padding(space.1);
    let (titles, style, alignment, position) = titles;
    block
        .titles(titles)
        .title_style(style)
        .title_alignment(alignment)
        .title_position(position)
}

/// Returns the block with a merge strategy of its borders, and with a shadow, if there is one.
fn joined<'v>(block: Block<'v>, strategy: MergeStrategy, shadow: Option<Shadow<'v>>) -> Block<'v>
    ensures { block_data result ≡ record (block_data block.entry) {
      strategy = strategy;
      shadow = option_or (option_map shadow_data shadow.entry) (block_data block.entry).shadow;
    } }
{
    let block = block.merge_borders(strategy);
    match shadow {
        Some(shadow) => block.shadow(shadow),
        None => block,
    }
}

impl<'v> Kind<'v, Field> for Block<'v> {
    ghost use Rattle.tui_frames.specs.Block.{BlockData};

    ghost AsData = { BlockData };

    ghost as_data = { block_data };

    ghost kind = { block_of };

    #[tactic(auto, unfolding(crate::specs::Kinds::Block::block_of))]
    fn read(alloc: Global, value: &'v Value) -> Result<Block<'v>, KindError> {
        if !value.is_object() {
            return Err(KindError::WrongKind);
        }
        let borders = read_borders(alloc, value)?;
        let space = read_space(alloc, value)?;
        let titles = read_titles(alloc, value)?;
        let strategy: Option<MergeStrategy> = optional_named_member(alloc, value, "merge_borders")?;
        let shadow: Option<Shadow<'v>> = optional_member(alloc, value, "shadow")?;
        let block = framed(alloc, borders, space, titles);
        Ok(joined(block, strategy.unwrap_or(MergeStrategy::Replace), shadow))
    }
}

impl<'v> Explains<'v, Field> for Block<'v> {
    ghost use Rattle.tui_schema.specs.Faults.{an_object, block_parts};

    ghost wanted = { an_object };

    ghost part_fault = { block_parts };

    fn wanted() -> Wanted<'v> {
        Wanted::Words("an object")
    }

    #[tactic(auto, unfolding(crate::specs::Faults::block_parts))]
    fn part_fault(alloc: Global, value: &'v Value) -> Mem<Option<Fault<'v>>> {
        let frame = frame_fault(alloc, value)?;
        let titles = titles_fault(alloc, value)?;
        let strategy = named_fault::<MergeStrategy>(alloc, value, "merge_borders")?;
        let shadow = optional_member_fault::<Shadow<'v>>(alloc, value, "shadow")?;
        Ok(frame.or(titles).or(strategy).or(shadow))
    }
}

/// Returns the fault of the borders, or of the space inside them.
#[tactic(auto, unfolding(crate::specs::Faults::frame_parts))]
fn frame_fault<'v>(alloc: Global, value: &'v Value) -> Mem<Option<Fault<'v>>>
    ensures { IfOk result (λ found. option_map fault_data found ≡ frame_parts (view value.now)) }
{
    let borders = optional_member_fault::<Borders>(alloc, value, "borders")?;
    let kind = named_fault::<BorderType>(alloc, value, "border_type")?;
    let border_style = optional_member_fault::<Style>(alloc, value, "border_style")?;
    let style = style_member_fault(alloc, value)?;
    let padding = optional_member_fault::<Padding>(alloc, value, "padding")?;
    Ok(borders.or(kind).or(border_style).or(style).or(padding))
}

/// Returns the fault of the titles, or of their style, alignment or position.
#[tactic(auto, unfolding(crate::specs::Faults::titles_parts))]
fn titles_fault<'v>(alloc: Global, value: &'v Value) -> Mem<Option<Fault<'v>>>
    ensures { IfOk result (λ found. option_map fault_data found ≡ titles_parts (view value.now)) }
{
    let titles = optional_member_fault::<Vec<Title<'v>>>(alloc, value, "titles")?;
    let style = optional_member_fault::<Style>(alloc, value, "title_style")?;
    let alignment = named_fault::<Alignment>(alloc, value, "title_alignment")?;
    let position = named_fault::<TitlePosition>(alloc, value, "title_position")?;
    Ok(titles.or(style).or(alignment).or(position))
}
