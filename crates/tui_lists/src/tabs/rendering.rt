//! How tabs are drawn.

ghost use Rattle.std.specs.Prelude.{◌≡◌, IfOk, IsOk, IsTrue, OnOk};
ghost use Rattle.tui_cells.specs.Layers.{KeptOutside, Painted};
ghost use Rattle.tui_cells.specs.Rect.{covers, is_empty};
ghost use Rattle.tui_frames.specs.Footprint.{footprint_if};
ghost use Rattle.tui_lists.specs.Tabs.{tabs_data};
ghost use Rattle.tui_lists.specs.TabsDrawing.{IsAllocationFreeTabs, tabs_drawing};
ghost use Rattle.tui_lists.specs.TabsStrokes.{divider_end, divider_layers, tab_end, tab_layers, tabs_layers, titles_layers, used_columns};
ghost use Rattle.tui_text.specs.Line.{line_data};
ghost use Rattle.tui_text.specs.Setting.{AreAllocationFree};

use crate::painting::highlight_if;
use crate::tabs::Tabs;
use std::alloc::Global;
use tui_cells::{Buffer, Mem, Position, Rect, Widget};
use tui_frames::paint_frame;
use tui_text::{Line, set_line_in, set_span_in};

/// Returns the part of the first row from column `start` up to column `end`, as far as it is inside the area.
fn used_columns(inner: Rect, start: u16, end: u16) -> Rect
    ensures { result ≡ used_columns inner start end }
{
    inner.intersection(Rect {
        x: start,
        y: inner.y,
        width: end.saturating_sub(start),
        height: 1,
    })
}

impl<'a> Tabs<'a> {
    /// Draws a title with its paddings from column `x` on. Returns the column after it.
    fn paint_tab(
        &self,
        buf: &mut Buffer,
        inner: Rect,
        x: u16,
        is_selected: bool,
        title: &Line<'a>,
    ) -> Mem<u16>
        ensures ok { OnOk result (Painted (tab_layers (tabs_data self.now) inner x is_selected (line_data title.now)) buf.old buf.new) }
        ensures end { IfOk result (λ next. next ≡ tab_end (tabs_data self.now) inner x (line_data title.now)) }
        ensures kept { KeptOutside (covers inner) buf.old buf.new }
        ensures allocation_free { IsAllocationFreeTabs (tabs_data self.now) → AreAllocationFree (line_data title.now).spans → IsOk result }
    {
        let y = inner.y;
        let room = inner.width as usize;
        let start = set_line_in(buf, inner, Position { x, y }, &self.padding_left, room)?;
        let end = set_line_in(buf, inner, Position { x: start, y }, title, room)?;
        highlight_if(
            is_selected,
            buf,
            used_columns(inner, start, end),
            self.highlight_style,
        );
        set_line_in(
            buf,
            inner,
            Position { x: end, y },
            &self.padding_right,
            room,
        )
    }

    /// Draws the divider before title `i`. The first title has none. Returns the column after the divider.
    #[tactic(auto, unfolding(crate::specs::TabsStrokes::divider_layers, crate::specs::TabsStrokes::divider_end))]
    fn paint_divider(&self, buf: &mut Buffer, inner: Rect, x: u16, i: usize) -> Mem<u16>
        ensures ok { OnOk result (Painted (divider_layers (tabs_data self.now) inner x i) buf.old buf.new) }
        ensures end { IfOk result (λ next. next ≡ divider_end (tabs_data self.now) inner x i) }
        ensures kept { KeptOutside (covers inner) buf.old buf.new }
        ensures allocation_free { IsAllocationFreeTabs (tabs_data self.now) → IsOk result }
    {
        if i == 0 {
            return Ok(x);
        }
        set_span_in(
            buf,
            inner,
            Position { x, y: inner.y },
            &self.divider,
            inner.width as usize,
        )
    }

    /// Draws the titles in the first row of an area.
    fn paint_titles(&self, buf: &mut Buffer, inner: Rect) -> Mem<()>
        ensures ok { OnOk result (Painted (titles_layers (tabs_data self.now) inner 0 inner.x (tabs_data self.now).titles) buf.old buf.new) }
        ensures kept { KeptOutside (covers inner) buf.old buf.new }
        ensures allocation_free { IsAllocationFreeTabs (tabs_data self.now) → IsOk result }
    {
        let mut x = inner.x;
        'titles: for i in 0..self.titles.len() {
            if x >= inner.right() {
                return Ok(());
            }
            let start = self.paint_divider(buf, inner, x, i)?;
            let is_selected = self.selected == Some(i);
            x = self.paint_tab(buf, inner, start, is_selected, &self.titles[i])?;
        }
        Ok(())
    }

    /// Draws the style, the block and the titles.
    fn paint_in(&self, alloc: Global, buf: &mut Buffer, clip: Rect) -> Mem<()>
        ensures ok { OnOk result (Painted (tabs_layers (tabs_data self.now) clip) buf.old buf.new) }
        ensures kept { KeptOutside (footprint_if (tabs_data self.now).block clip) buf.old buf.new }
        ensures empty { IsTrue (is_empty clip) → IsOk result }
        ensures allocation_free { IsAllocationFreeTabs (tabs_data self.now) → IsOk result }
    {
        if clip.is_empty() {
            return Ok(());
        }
        let inner = paint_frame(alloc, buf, clip, self.style, &self.block)?;
        self.paint_titles(buf, inner)
    }
}

impl<'a> Widget for Tabs<'a> {
    ghost drawing = { λ tabs. tabs_drawing (tabs_data tabs) };

    fn render(&self, alloc: Global, area: Rect, buf: &mut Buffer) -> Mem<()> {
        let clip = area.intersection(buf.area());
        self.paint_in(alloc, buf, clip)
    }
}
