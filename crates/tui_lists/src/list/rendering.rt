//! How a list is drawn.

ghost use Rattle.std.specs.Prelude.{◌≡◌, ◌-◌, ◌<◌, ◌≤◌, [], drop, false, if◌then◌else◌, length, min, IfOk, IsOk, IsTrue, OnOk};
ghost use Rattle.tui_cells.specs.Cell.{set_style};
ghost use Rattle.tui_cells.specs.Layers.{KeptOutside, Painted, stroke};
ghost use Rattle.tui_cells.specs.Rect.{covers, is_empty};
ghost use Rattle.tui_frames.specs.Footprint.{footprint_if};
ghost use Rattle.tui_frames.specs.InBlock.{inner_of};
ghost use Rattle.tui_layout.specs.Window.{cut_selection};
ghost use Rattle.tui_lists.specs.List.{list_after, list_data};
ghost use Rattle.tui_lists.specs.ListDrawing.{IsAllocationFreeItem, IsAllocationFreeList, IsAllocationFreeSymbol, list_drawing, list_moving};
ghost use Rattle.tui_lists.specs.ListItem.{heights_of, list_item_data};
ghost use Rattle.tui_lists.specs.ListStrokes.{content_layers, gutter_layers, gutter_of, item_layers, items_layers, list_layers, mark_layers, row_of};

use crate::direction::ListDirection;
use crate::list::List;
use crate::list::item::ListItem;
use crate::list::state::ListState;
use crate::painting::highlight_if;
use std::alloc::Global;
use tui_cells::{Buffer, FARTHEST_EDGE, Mem, Rect, StatefulWidget, Style, Widget};
use tui_frames::paint_frame;
use tui_text::{Alignment, paint_row, paint_rows};

/// An item with the rows that it is drawn in. These may be fewer than it has lines.
#[derive(Clone, Copy, Debug)]
struct ShownItem<'i, 'a> {
    rows: Rect,
    is_selected: bool,
    item: &'i ListItem<'a>,
}

impl<'a> List<'a> {
    /// Returns how many columns are reserved for the symbol.
    fn gutter(&self, selected: Option<usize>) -> u16
        ensures { result ≡ gutter_of (list_data self.now) selected }
    {
        if !self.highlight_spacing.should_add(selected.is_some()) {
            return 0;
        }
        match &self.highlight_symbol {
            None => 0,
            Some(symbol) => symbol.width().min(FARTHEST_EDGE as usize) as u16,
        }
    }

    /// Draws the symbol in a marked row, and spaces in any other.
    fn paint_mark(&self, alloc: Global, buf: &mut Buffer, is_marked: bool, row: Rect) -> Mem<()>
        ensures ok { OnOk result (Painted (mark_layers (list_data self.now) is_marked row) buf.old buf.new) }
        ensures kept { KeptOutside (covers row) buf.old buf.new }
        ensures allocation_free { IsAllocationFreeSymbol (list_data self.now).symbol → IsOk result }
    {
        if !is_marked {
            return buf.fill(alloc, row, " ", Style::new());
        }
        match &self.highlight_symbol {
            None => Ok(()),
            Some(symbol) => {
                let alignment = symbol.line_alignment().unwrap_or(Alignment::Left);
                paint_row(buf, row, symbol, alignment)
            }
        }
    }

    /// Draws the columns at the left of an item's rows, which hold the symbol.
    fn paint_gutter(
        &self,
        alloc: Global,
        buf: &mut Buffer,
        is_selected: bool,
        gutter: Rect,
    ) -> Mem<()>
        ensures ok { OnOk result (Painted (gutter_layers (list_data self.now) is_selected gutter 0 gutter.height) buf.old buf.new) }
        ensures kept { KeptOutside (covers gutter) buf.old buf.new }
        ensures allocation_free { IsAllocationFreeSymbol (list_data self.now).symbol → IsOk result }
    {
        if gutter.is_empty() {
            return Ok(());
        }
        'rows: for j in 0..gutter.height {
            let is_marked = is_selected & ((j == 0) | self.repeat_highlight_symbol);
            self.paint_mark(alloc, buf, is_marked, gutter.rows_from(j, 1))?;
        }
        Ok(())
    }

    /// Draws one item in its rows, to the right of the `gutter` columns for the symbol.
    fn paint_item(
        &self,
        alloc: Global,
        buf: &mut Buffer,
        gutter: u16,
        shown: ShownItem<'_, 'a>,
    ) -> Mem<()>
        ensures ok { OnOk result
            (Painted (item_layers (list_data self.now) gutter shown.entry.rows shown.entry.is_selected (list_item_data shown.entry.item.now)) buf.old buf.new) }
        ensures kept { KeptOutside (covers shown.entry.rows) buf.old buf.new }
        ensures allocation_free { IsAllocationFreeSymbol (list_data self.now).symbol → IsAllocationFreeItem (list_item_data shown.entry.item.now) → IsOk result }
    {
        let ShownItem {
            rows,
            is_selected,
            item,
        } = shown;
        buf.set_style(rows, self.style.patch(item.style));
        paint_rows(buf, rows.columns_from(gutter, rows.width), &item.content)?;
        highlight_if(is_selected, buf, rows, self.highlight_style);
        self.paint_gutter(alloc, buf, is_selected, rows.columns_from(0, gutter))
    }

    /// Draws the items `first..end`.
    fn paint_items(
        &self,
        alloc: Global,
        buf: &mut Buffer,
        inner: Rect,
        selected: Option<usize>,
        first: usize,
        end: usize,
    ) -> Mem<()>
        requires order { first ≤ end }
        requires within { end ≤ length (list_data self.now).items }
        ensures ok { let l = list_data self.now in OnOk result
            (Painted (items_layers l inner selected first 0 (end - first) (drop first l.items)) buf.old buf.new) }
        ensures kept { KeptOutside (covers inner) buf.old buf.new }
        ensures allocation_free { IsAllocationFreeList (list_data self.now) → IsOk result }
    {
        let gutter = self.gutter(selected);
        let mut used = 0u16;
        'items: for i in first..end {
            let item = &self.items.items[i];
            let height = cut_height(item.height(), inner.height - used);
            let rows = inner.rows_from(row_of(self.direction, inner.height, used, height), height);
            let shown = ShownItem {
                rows,
                is_selected: selected == Some(i),
                item,
            };
            self.paint_item(alloc, buf, gutter, shown)?;
            used += height;
        }
        Ok(())
    }

    /// Returns the selection, at most the last item.
    fn clamp_selection(&self, selected: Option<usize>) -> Option<usize>
        requires { 0 < length (list_data self.now).items }
        ensures { result ≡ cut_selection (heights_of (list_data self.now).items) selected }
    {
        match selected {
            None => None,
            Some(selected) => Some(selected.min(self.items.len() - 1)),
        }
    }

    /// Draws the items of the window. Returns the state that the drawing leaves.
    fn paint_content(
        &self,
        alloc: Global,
        buf: &mut Buffer,
        inner: Rect,
        state: ListState,
    ) -> Mem<ListState>
        requires { is_empty inner ≡ false }
        ensures ok { OnOk result (Painted (content_layers (list_data self.now) inner state) buf.old buf.new) }
        ensures state { IfOk result (λ after. after ≡ list_after (list_data self.now) inner state) }
        ensures kept { KeptOutside (covers inner) buf.old buf.new }
        ensures allocation_free { IsAllocationFreeList (list_data self.now) → IsOk result }
    {
        if self.items.len() == 0 {
            return Ok(ListState::default());
        }
        let window = self.items.window(
            inner.height,
            state.offset,
            state.selected,
            self.scroll_padding,
        );
        let selected = self.clamp_selection(state.selected);
        // An item that is taller than the area is still drawn, as far as there are rows.
        let end = window.end.max(window.first + 1);
        self.paint_items(alloc, buf, inner, selected, window.first, end)?;
        Ok(ListState {
            offset: window.first,
            selected,
        })
    }

    /// Draws the items if their area is not empty. Returns the state that the drawing leaves.
    fn paint_inside(
        &self,
        alloc: Global,
        buf: &mut Buffer,
        inner: Rect,
        state: ListState,
    ) -> Mem<ListState>
        ensures ok { OnOk result (Painted (content_layers (list_data self.now) inner state) buf.old buf.new) }
        ensures state { IfOk result (λ after. after ≡ list_after (list_data self.now) inner state) }
        ensures kept { KeptOutside (covers inner) buf.old buf.new }
        ensures empty { IsTrue (is_empty inner) → IsOk result }
        ensures allocation_free { IsAllocationFreeList (list_data self.now) → IsOk result }
    {
        if inner.is_empty() {
            return Ok(state);
        }
        self.paint_content(alloc, buf, inner, state)
    }

    /// Draws the style, the block and the items. Returns the state that the drawing leaves.
    fn paint_in(
        &self,
        alloc: Global,
        buf: &mut Buffer,
        clip: Rect,
        state: ListState,
    ) -> Mem<ListState>
        ensures ok { OnOk result (Painted (list_layers (list_data self.now) state clip) buf.old buf.new) }
        ensures state { let l = list_data self.now in IfOk result (λ after. after ≡ list_after l (inner_of l.block clip) state) }
        ensures kept { KeptOutside (footprint_if (list_data self.now).block clip) buf.old buf.new }
        ensures empty { IsTrue (is_empty clip) → IsOk result }
        ensures allocation_free { IsAllocationFreeList (list_data self.now) → IsOk result }
    {
        if clip.is_empty() {
            return Ok(state);
        }
        let inner = paint_frame(alloc, buf, clip, self.style, &self.block)?;
        self.paint_inside(alloc, buf, inner, state)
    }
}

/// Moves the offset as little as possible to show the selected item, with as much of the scroll padding around it as
/// fits. A selection past the last item becomes the last item. If there are no items, nothing is selected and the
/// offset is 0. If the inner area is empty, the state is unchanged.
impl<'a> StatefulWidget for List<'a> {
    type State = ListState;

    ghost stateful_drawing = { λ list. list_moving (list_data list) };

    #[tactic(auto, using(crate::proofs::ListMoved::list_moves))]
    fn render(
        &self,
        alloc: Global,
        area: Rect,
        buf: &mut Buffer,
        state: &mut ListState,
    ) -> Mem<()> {
        let clip = area.intersection(buf.area());
        *state = self.paint_in(alloc, buf, clip, *state)?;
        Ok(())
    }
}

/// Without a state, a list begins at its first item and none is selected.
impl<'a> Widget for List<'a> {
    ghost drawing = { λ list. list_drawing (list_data list) };

    fn render(&self, alloc: Global, area: Rect, buf: &mut Buffer) -> Mem<()> {
        let mut state = ListState::default();
        StatefulWidget::render(self, alloc, area, buf, &mut state)
    }
}

/// Limits a number of lines to the rows that are left.
fn cut_height(lines: usize, room: u16) -> u16
    ensures { result ≡ min lines room }
{
    lines.min(usize::from(room)) as u16
}

/// Returns the row of an item's first line. `used` rows come before the item, counted from the edge at which the items
/// begin.
fn row_of(direction: ListDirection, room: u16, used: u16, height: u16) -> u16
    ensures { result ≡ row_of direction room used height }
{
    match direction {
        ListDirection::TopToBottom => used,
        ListDirection::BottomToTop => room.saturating_sub(used).saturating_sub(height),
    }
}
