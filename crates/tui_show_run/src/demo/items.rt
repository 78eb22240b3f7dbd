//! The items.

ghost use Rattle.std.specs.Prelude.{◌≡◌, ◌≤◌, [], ◌∷◌, IfOk, map};
ghost use Rattle.std.specs.List.{repeat};
ghost use Rattle.tui_show_run.specs.Demo.Scene.{demo_item, demo_items};
ghost use Rattle.tui_lists.specs.ListItem.{list_item_data};
ghost use Rattle.tui_text.specs.Line.{line_data, raw_line};
ghost use Rattle.tui_text.specs.Text.{empty_text, text_data};

use crate::demo::letters::letter_text;
use std::alloc::Global;
use tui_cells::Mem;
use tui_lists::ListItem;
use tui_text::{Line, Text};

/// Returns the items 0 to n - 1.
pub(crate) fn demo_items<'t>(alloc: Global, n: u32) -> Mem<Vec<ListItem<'t>>>
    ensures { IfOk result (λ items. map list_item_data items.items ≡ demo_items n) }
{
    let mut items = Vec::with_capacity(alloc, n as usize)?;
    'items: for i in 0..n {
        items.push(demo_item(alloc, i)?)?;
    }
    Ok(items)
}

/// Returns item i. It has one, two or three lines, in rotation, and each is the item's letter.
fn demo_item<'t>(alloc: Global, i: u32) -> Mem<ListItem<'t>>
    ensures { IfOk result (λ item. list_item_data item ≡ demo_item i) }
{
    let letter: &'t str = letter_text(i);
    Ok(ListItem::new(item_text(alloc, letter, 1 + i % 3)?))
}

/// Returns a text of `count` lines. A single line is stored in the text itself, which doesn't allocate.
fn item_text<'t>(alloc: Global, line: &'t str, count: u32) -> Mem<Text<'t>>
    ensures { IfOk result (λ text. text_data text ≡ record empty_text { lines = repeat count (raw_line line.now ∷ []) }) }
{
    if count == 1 {
        one_line(alloc, line)
    } else {
        Ok(Text::from(repeated(alloc, line, count)?))
    }
}

fn one_line<'t>(alloc: Global, line: &'t str) -> Mem<Text<'t>>
    ensures { IfOk result (λ text. text_data text ≡ record empty_text { lines = raw_line line.now ∷ [] }) }
{
    let mut text = Text::new(alloc);
    text.push_line(Line::raw(alloc, line)?)?;
    Ok(text)
}

/// Returns `count` lines that are all `text`.
fn repeated<'t>(alloc: Global, text: &'t str, count: u32) -> Mem<Vec<Line<'t>>>
    ensures { IfOk result (λ lines. map line_data lines.items ≡ repeat count (raw_line text.now ∷ [])) }
{
    let mut lines = Vec::with_capacity(alloc, count as usize)?;
    'lines: for i in 0..count {
        lines.push(Line::raw(alloc, text)?)?;
    }
    Ok(lines)
}
