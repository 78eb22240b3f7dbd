//! Building the list of titles.

ghost use Rattle.std.specs.Prelude.{◌≡◌, IfOk, map};
ghost use Rattle.tui_frames.specs.Block.{block_data};
ghost use Rattle.tui_lists.specs.List.{list_data};
ghost use Rattle.tui_lists.specs.ListItem.{heights_of, list_item_data};
ghost use Rattle.tui_pager_lib.specs.Entry.{entry_data};
ghost use Rattle.tui_pager_lib.specs.Screen.{list_over, title_item, titles_block};
ghost use Rattle.tui_lists.specs.Tabs.{reversed};

use crate::entry::Entry;
use std::alloc::Global;
use tui_cells::{Mem, Modifier, Style};
use tui_frames::Block;
use tui_layout::Sums;
use tui_lists::{List, ListItem};
use tui_text::{Line, Text};

/// Returns the titles as items of a list.
pub(crate) fn title_items<'a>(alloc: Global, entries: &[Entry<'a>]) -> Mem<Vec<ListItem<'a>>>
    ensures { IfOk result (λ items. map list_item_data items.items ≡ map title_item (map entry_data entries.now)) }
{
    let mut items = Vec::with_capacity(alloc, entries.len())?;
    'titles: for i in 0..entries.len() {
        items.push(ListItem::new(Text::raw(alloc, entries[i].title)?))?;
    }
    Ok(items)
}

/// Returns the prefix sums of the items' heights.
pub(crate) fn heights(alloc: Global, items: &[ListItem<'_>]) -> Mem<Sums>
    ensures { IfOk result (λ heights. heights ≡ heights_of (map list_item_data items.now)) }
{
    let mut heights = Sums::with_capacity(alloc, items.len())?;
    'heights: for i in 0..items.len() {
        heights.push(items[i].height() as u64)?;
    }
    Ok(heights)
}

/// Returns a block with borders on all sides and a title.
fn titles_block<'a>(alloc: Global) -> Mem<Block<'a>>
    ensures { IfOk result (λ block. block_data block ≡ titles_block) }
{
    let mut block = Block::bordered(alloc);
    block.title(Line::raw(alloc, "Entries")?)?;
    Ok(block)
}

fn reversed() -> Style
    ensures { result ≡ reversed }
{
    Style::new().add_modifier(Modifier::REVERSED)
}

/// Returns the list of these items.
pub(crate) fn titles_list<'a>(alloc: Global, items: Vec<ListItem<'a>>) -> Mem<List<'a>>
    ensures { IfOk result (λ list. list_data list ≡ list_over (map list_item_data items.entry.items)) }
{
    let block = titles_block(alloc)?;
    let symbol = Line::raw(alloc, ">")?;
    let list = List::new(alloc, items)?;
    Ok(
        list.block(block)
            .highlight_symbol(symbol)
            .highlight_style(reversed())
            .scroll_padding(1),
    )
}
