//! The fields of `list`.

ghost use Rattle.std.specs.Prelude.{◌≡◌, IfOk, option_map};
ghost use Rattle.serde_json.specs.View.{view};
ghost use Rattle.tui_frames.specs.Block.{block_data};
ghost use Rattle.tui_lists.specs.List.{list_data};
ghost use Rattle.tui_schema.specs.Items.ListFields.{list_marks_of, scrolling_of, shown_list};
ghost use Rattle.tui_json.specs.Refusals.{Gives};
ghost use Rattle.std.specs.Option.{option_or};
ghost use Rattle.tui_text.specs.Line.{line_data, raw_line};

use crate::bad_field::BadField;
use crate::field::Field;
use crate::items::frame::{read_frame, read_style};
use crate::kinds::Symbol;
use serde_json::Value;
use std::alloc::Global;
use tui_cells::{Mem, Style};
use tui_frames::Block;
use tui_json::{InputError, optional, optional_named, required};
use tui_layout::HighlightSpacing;
use tui_lists::{List, ListDirection, ListItem, ListState};
use tui_text::Line;

/// Returns the list in this block, if there is one, and with this style.
fn framed<'v>(list: List<'v>, block: Option<Block<'v>>, style: Style) -> List<'v>
    ensures { list_data result ≡ record (list_data list.entry) {
      block = option_or (option_map block_data block.entry) (list_data list.entry).block;
      style = style;
    } }
{
    let list = list.style(style);
    match block {
        Some(block) => list.block(block),
        None => list,
    }
}

fn symbol_line<'v>(alloc: Global, symbol: Option<Symbol<'v>>) -> Mem<Option<Line<'v>>>
    ensures { IfOk result (λ line. option_map line_data line ≡ option_map (λ s. raw_line s.0.now) symbol.entry) }
{
    match symbol {
        Some(Symbol(symbol)) => Ok(Some(Line::raw(alloc, symbol)?)),
        None => Ok(None),
    }
}

/// Reads the highlight of the selected item.
#[tactic(auto, unfolding(crate::specs::Items::ListFields::list_marks_of))]
fn read_marks<'v>(
    alloc: Global,
    item: Option<usize>,
    value: &'v Value,
) -> Result<(Option<Line<'v>>, Style, bool, HighlightSpacing), InputError<BadField>>
    ensures { Gives (λ marks. (option_map line_data marks.0, marks.1, marks.2, marks.3)) result (list_marks_of item (view value.now)) }
{
    let symbol: Option<Symbol<'v>> = optional(alloc, item, Field::HighlightSymbol, value)?;
    let style = read_style(alloc, item, Field::HighlightStyle, value)?;
    let repeats: Option<bool> = optional(alloc, item, Field::RepeatHighlightSymbol, value)?;
    let spacing: Option<HighlightSpacing> = optional_named(
        alloc,
        item,
        Field::HighlightSpacing,
        value,
    )?;
    let symbol = symbol_line(alloc, symbol)?;
    let spacing = spacing.unwrap_or(HighlightSpacing::WhenSelected);
    Ok((symbol, style, repeats.unwrap_or(false), spacing))
}

/// Returns the list with this highlight of the selected item, a direction and a padding.
fn marked<'v>(
    list: List<'v>,
    marks: (Option<Line<'v>>, Style, bool, HighlightSpacing),
    direction: ListDirection,
    padding: usize,
) -> List<'v>
    ensures { list_data result ≡ record (list_data list.entry) {
      symbol = option_or (option_map line_data marks.entry.0) (list_data list.entry).symbol;
      highlight_style = marks.entry.1;
      repeats = marks.entry.2;
      spacing = marks.entry.3;
      direction = direction;
      padding = padding;
    } }
{
    let (symbol, style, repeats, spacing) = marks;
    let list = list
        .highlight_style(style)
        .repeat_highlight_symbol(repeats)
        .highlight_spacing(spacing)
        .direction(direction)
        .scroll_padding(padding);
    match symbol {
        Some(symbol) => list.highlight_symbol(symbol),
        None => list,
    }
}

/// Reads the direction, the scroll padding and the initial state.
#[tactic(auto, unfolding(crate::specs::Items::ListFields::scrolling_of))]
fn read_scrolling(
    alloc: Global,
    item: Option<usize>,
    value: &Value,
) -> Result<(ListDirection, usize, ListState), InputError<BadField>>
    ensures { Gives (λ scrolling. scrolling) result (scrolling_of item (view value.now)) }
{
    let direction: Option<ListDirection> = optional_named(alloc, item, Field::Direction, value)?;
    let padding: Option<u64> = optional(alloc, item, Field::ScrollPadding, value)?;
    let offset: Option<u64> = optional(alloc, item, Field::Offset, value)?;
    let selected: Option<u64> = optional(alloc, item, Field::Selected, value)?;
    let direction = direction.unwrap_or(ListDirection::TopToBottom);
    let state = ListState::default()
        .with_offset(offset.unwrap_or(0) as usize)
        .with_selected(selected.map(|place| place as usize));
    Ok((direction, padding.unwrap_or(0) as usize, state))
}

/// Reads a list and its initial state.
#[tactic(auto, unfolding(crate::specs::Items::ListFields::shown_list))]
pub(crate) fn read_list<'v>(
    alloc: Global,
    item: Option<usize>,
    value: &'v Value,
) -> Result<(List<'v>, ListState), InputError<BadField>>
    ensures { Gives (λ p. (list_data p.0, p.1)) result (shown_list item (view value.now)) }
{
    let (block, style) = read_frame(alloc, item, value)?;
    let items: Vec<ListItem<'v>> = required(alloc, item, Field::Items, value)?;
    let list = framed(List::new(alloc, items)?, block, style);
    let marks = read_marks(alloc, item, value)?;
    let (direction, padding, state) = read_scrolling(alloc, item, value)?;
    Ok((marked(list, marks, direction, padding), state))
}
