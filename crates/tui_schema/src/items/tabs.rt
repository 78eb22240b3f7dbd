//! The fields of `tabs`.

ghost use Rattle.std.specs.Prelude.{◌≡◌, IfOk, option_map, unwrap_or};
ghost use Rattle.std.specs.Option.{option_or};
ghost use Rattle.serde_json.specs.View.{view};
ghost use Rattle.tui_cells.specs.Cell.{space};
ghost use Rattle.tui_cells.specs.Symbols.{utf8};
ghost use Rattle.tui_frames.specs.Block.{block_data};
ghost use Rattle.tui_lists.specs.Tabs.{tabs_data};
ghost use Rattle.tui_schema.specs.Items.TabsFields.{selection_of, shown_tabs, tabs_space_of};
ghost use Rattle.tui_json.specs.Refusals.{Gives};
ghost use Rattle.tui_text.specs.Line.{line_data, raw_line};
ghost use Rattle.tui_text.specs.Span.{raw_span, span_data};

use crate::bad_field::BadField;
use crate::field::Field;
use crate::items::frame::read_frame;
use crate::kinds::Symbol;
use serde_json::Value;
use std::alloc::Global;
use tui_cells::{Mem, Modifier, Style, line};
use tui_frames::Block;
use tui_json::{InputError, given, optional, required};
use tui_lists::Tabs;
use tui_text::{Line, Span};

/// Returns the tabs in this block, if there is one, and with this style.
fn framed<'v>(tabs: Tabs<'v>, block: Option<Block<'v>>, style: Style) -> Tabs<'v>
    ensures { tabs_data result ≡ record (tabs_data tabs.entry) {
      block = option_or (option_map block_data block.entry) (tabs_data tabs.entry).block;
      style = style;
    } }
{
    let tabs = tabs.style(style);
    match block {
        Some(block) => tabs.block(block),
        None => tabs,
    }
}

fn divider_of<'v>(symbol: Option<Symbol<'v>>) -> Span<'v>
    ensures { span_data result ≡ raw_span (unwrap_or (option_map (λ s. s.0.now) symbol.entry) (utf8 "│")) }
{
    match symbol {
        Some(Symbol(text)) => Span::raw(text),
        None => Span::raw(line::VERTICAL),
    }
}

fn padding_of<'v>(alloc: Global, symbol: Option<Symbol<'v>>) -> Mem<Line<'v>>
    ensures { IfOk result (λ line. line_data line ≡ raw_line (unwrap_or (option_map (λ s. s.0.now) symbol.entry) space)) }
{
    match symbol {
        Some(Symbol(text)) => Line::raw(alloc, text),
        None => Line::raw(alloc, " "),
    }
}

/// Reads the selected title and its style.
#[tactic(auto, unfolding(crate::specs::Items::TabsFields::selection_of))]
fn read_selection(
    alloc: Global,
    item: Option<usize>,
    value: &Value,
) -> Result<(Option<Option<u64>>, Style), InputError<BadField>>
    ensures { Gives (λ selection. selection) result (selection_of item (view value.now)) }
{
    let selected: Option<Option<u64>> = given(alloc, item, Field::Selected, value)?;
    let style: Option<Style> = optional(alloc, item, Field::HighlightStyle, value)?;
    let reversed = Style::new().add_modifier(Modifier::REVERSED);
    Ok((selected, style.unwrap_or(reversed)))
}

/// Reads what is between two titles, and left and right of each title.
#[tactic(auto, unfolding(crate::specs::Items::TabsFields::tabs_space_of))]
fn read_space<'v>(
    alloc: Global,
    item: Option<usize>,
    value: &'v Value,
) -> Result<(Span<'v>, Line<'v>, Line<'v>), InputError<BadField>>
    ensures { Gives (λ space. (span_data space.0, line_data space.1, line_data space.2)) result (tabs_space_of item (view value.now)) }
{
    let divider: Option<Symbol<'v>> = optional(alloc, item, Field::Divider, value)?;
    let left: Option<Symbol<'v>> = optional(alloc, item, Field::PaddingLeft, value)?;
    let right: Option<Symbol<'v>> = optional(alloc, item, Field::PaddingRight, value)?;
    let left = padding_of(alloc, left)?;
    let right = padding_of(alloc, right)?;
    Ok((divider_of(divider), left, right))
}

/// Returns the tabs with this selection, if there is one, and with this space beside the titles.
fn spaced<'v>(
    tabs: Tabs<'v>,
    selection: (Option<Option<u64>>, Style),
    space: (Span<'v>, Line<'v>, Line<'v>),
) -> Tabs<'v>
    ensures { tabs_data result ≡ record (tabs_data tabs.entry) {
      selected = unwrap_or selection.0 (tabs_data tabs.entry).selected;
      highlight_style = selection.1;
      divider = span_data space.entry.0;
      padding_left = line_data space.entry.1;
      padding_right = line_data space.entry.2;
    } }
{
    let (selected, style) = selection;
    let (divider, left, right) = space;
    let tabs = tabs
        .highlight_style(style)
        .divider(divider)
        .padding(left, right);
    match selected {
        Some(selected) => tabs.select(selected.map(|place| place as usize)),
        None => tabs,
    }
}

#[tactic(auto, unfolding(crate::specs::Items::TabsFields::shown_tabs))]
pub(crate) fn read_tabs<'v>(
    alloc: Global,
    item: Option<usize>,
    value: &'v Value,
) -> Result<Tabs<'v>, InputError<BadField>>
    ensures { Gives tabs_data result (shown_tabs item (view value.now)) }
{
    let (block, style) = read_frame(alloc, item, value)?;
    let titles: Vec<Line<'v>> = required(alloc, item, Field::Titles, value)?;
    let tabs = framed(Tabs::new(alloc, titles)?, block, style);
    let selection = read_selection(alloc, item, value)?;
    let space = read_space(alloc, item, value)?;
    Ok(spaced(tabs, selection, space))
}
