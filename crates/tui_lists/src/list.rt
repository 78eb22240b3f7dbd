//! Lists.

ghost use Rattle.std.specs.Prelude.{◌≡◌, IfOk, OnErr, OnOk, Some, length, map, option_map, true, ◌==◌};
ghost use Rattle.tui_frames.specs.Block.{block_data};
ghost use Rattle.tui_lists.specs.List.{list_data, list_of};
ghost use Rattle.tui_lists.specs.ListItem.{list_item_data};
ghost use Rattle.tui_text.specs.Line.{line_data};

pub mod item;
pub mod items;
mod rendering;
pub mod state;

use crate::direction::ListDirection;
use crate::list::item::ListItem;
use crate::list::items::Items;
use std::alloc::Global;
use tui_cells::{Mem, Style, Styled};
use tui_frames::{Block, clone_if_some};
use tui_layout::HighlightSpacing;
use tui_text::Line;

/// Items one below the other, one of which may be selected. A `ListState` holds where a drawing begins and what it
/// leaves for the next one. The list scrolls only as far as needed to show the selected item.
#[derive(Debug, PartialEq, Eq, Hash)]
pub struct List<'a> {
    block: Option<Block<'a>>,
    items: Items<'a>,
    highlight_symbol: Option<Line<'a>>,
    style: Style,
    highlight_style: Style,
    repeat_highlight_symbol: bool,
    highlight_spacing: HighlightSpacing,
    direction: ListDirection,
    scroll_padding: usize,
}

// Written out, so that dependent crates have nothing to prove about its fields when they drop it.
impl<'a> Drop for List<'a> {
    fn drop(self) {
        let List {
            block,
            items,
            highlight_symbol,
            style,
            highlight_style,
            repeat_highlight_symbol,
            highlight_spacing,
            direction,
            scroll_padding,
        } = self;
    }
}

impl<'a> List<'a> {
    /// Creates a list of these items from the top downwards, without a block, styles or a highlight symbol. Fails with
    /// `NoMemory` if there is no memory for the sums of the items' heights.
    pub fn new(alloc: Global, items: Vec<ListItem<'a>>) -> Mem<List<'a>>
        ensures { IfOk result (λ list. list_data list ≡ list_of (map list_item_data items.entry.items)) }
    {
        Ok(List {
            block: None,
            items: Items::new(alloc, items)?,
            highlight_symbol: None,
            style: Style::new(),
            highlight_style: Style::new(),
            repeat_highlight_symbol: false,
            highlight_spacing: HighlightSpacing::WhenSelected,
            direction: ListDirection::TopToBottom,
            scroll_padding: 0,
        })
    }

    /// Replaces the items. If it fails with `NoMemory`, the list is unchanged and the new items are dropped.
    pub fn items(&mut self, items: Vec<ListItem<'a>>) -> Mem<()>
        ensures ok { OnOk result (list_data self.new ≡ record (list_data self.old) { items = map list_item_data items.entry.items }) }
        ensures err { OnErr result (list_data self.new ≡ list_data self.old) }
    {
        let alloc = *items.allocator();
        self.items = Items::new(alloc, items)?;
        Ok(())
    }

    /// Surrounds the list with a block. The items are drawn inside it.
    pub fn block(mut self, block: Block<'a>) -> List<'a>
        ensures { list_data result ≡ record (list_data self.entry) { block = Some (block_data block.entry) } }
    {
        self.block = Some(block);
        self
    }

    /// Sets the base style of the whole list.
    pub fn style(mut self, style: Style) -> List<'a>
        ensures { list_data result ≡ record (list_data self.entry) { style = style } }
    {
        self.style = style;
        self
    }

    /// Sets the symbol at the left of the selected item. The line's own alignment places it in its columns, else it is
    /// at their left.
    pub fn highlight_symbol(mut self, symbol: Line<'a>) -> List<'a>
        ensures { list_data result ≡ record (list_data self.entry) { symbol = Some (line_data symbol.entry) } }
    {
        self.highlight_symbol = Some(symbol);
        self
    }

    /// Sets the style that is drawn over the rows of the selected item.
    pub fn highlight_style(mut self, style: Style) -> List<'a>
        ensures { list_data result ≡ record (list_data self.entry) { highlight_style = style } }
    {
        self.highlight_style = style;
        self
    }

    /// Sets whether the symbol is drawn in each row of the selected item, or only in its first row.
    pub fn repeat_highlight_symbol(mut self, repeat: bool) -> List<'a>
        ensures { list_data result ≡ record (list_data self.entry) { repeats = repeat } }
    {
        self.repeat_highlight_symbol = repeat;
        self
    }

    /// Sets when the columns of the symbol are reserved.
    pub fn highlight_spacing(mut self, spacing: HighlightSpacing) -> List<'a>
        ensures { list_data result ≡ record (list_data self.entry) { spacing = spacing } }
    {
        self.highlight_spacing = spacing;
        self
    }

    /// Sets the edge at which the items begin.
    pub fn direction(mut self, direction: ListDirection) -> List<'a>
        ensures { list_data result ≡ record (list_data self.entry) { direction = direction } }
    {
        self.direction = direction;
        self
    }

    /// Sets how many items are kept visible on each side of the selected one, as far as they exist and fit.
    pub fn scroll_padding(mut self, padding: usize) -> List<'a>
        ensures { list_data result ≡ record (list_data self.entry) { padding = padding } }
    {
        self.scroll_padding = padding;
        self
    }

    /// Returns the number of items.
    pub fn len(&self) -> usize
        ensures { result ≡ length (list_data self.now).items }
    {
        self.items.len()
    }

    /// Whether there are no items.
    pub fn is_empty(&self) -> bool
        ensures { result ≡ (length (list_data self.now).items == 0) }
    {
        self.items.len() == 0
    }

    /// Returns an equal list. Fails with `NoMemory` if there is no memory for the items, the highlight symbol or the
    /// titles of the block.
    pub fn clone(&self) -> Mem<List<'a>>
        ensures is { IfOk result (λ list. list_data list ≡ list_data self.now) }
        ensures equal { IfOk result (λ list. ⟦<List<'a> as PartialEq>⟧.eq list self.now ≡ true) }
    {
        Ok(List {
            block: clone_if_some(&self.block)?,
            items: self.items.clone()?,
            highlight_symbol: clone_symbol(&self.highlight_symbol)?,
            style: self.style,
            highlight_style: self.highlight_style,
            repeat_highlight_symbol: self.repeat_highlight_symbol,
            highlight_spacing: self.highlight_spacing,
            direction: self.direction,
            scroll_padding: self.scroll_padding,
        })
    }
}

fn clone_symbol<'a>(symbol: &Option<Line<'a>>) -> Mem<Option<Line<'a>>>
    ensures is { IfOk result (λ copy. option_map line_data copy ≡ option_map line_data symbol.now) }
    ensures equal { IfOk result (λ copy. ⟦<Option<Line<'a>> as PartialEq>⟧.eq copy symbol.now ≡ true) }
{
    match symbol {
        None => Ok(None),
        Some(symbol) => Ok(Some(symbol.clone()?)),
    }
}

impl<'a> Styled for List<'a> {
    ghost style_of = { λ list. list.style };

    ghost with_style = { λ list style. record list { style = style } };

    fn style(&self) -> Style {
        self.style
    }

    fn set_style(mut self, style: Style) -> List<'a> {
        self.style = style;
        self
    }
}
