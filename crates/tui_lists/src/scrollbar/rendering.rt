//! How a scrollbar is drawn.

ghost use Rattle.std.specs.Prelude.{◌≡◌, ◌+◌, ◌<◌, ◌≤◌, ◌^◌, IsOk, IsTrue, OnOk};
ghost use Rattle.std.specs.Option.{option_copied};
ghost use Rattle.tui_cells.specs.Layers.{KeptOutside, Painted};
ghost use Rattle.tui_cells.specs.Rect.{covers, is_empty};
ghost use Rattle.tui_lists.specs.Orientation.{length_along};
ghost use Rattle.tui_lists.specs.TrackParts.{viewport_in};
ghost use Rattle.tui_lists.specs.Scrollbar.{scrollbar_data};
ghost use Rattle.tui_lists.specs.ScrollbarStrokes.{
  IsAllocationFreeScrollbar,
  IsAllocationFreeSign,
  bar_layers,
  places,
  run_layers,
  scrollbar_layers,
  scrollbar_moving,
  sign_layers,
  symbol_width,
  track_of,
};

use crate::scrollbar::Scrollbar;
use crate::scrollbar::parts::TrackParts;
use crate::scrollbar::state::ScrollbarState;
use std::alloc::Global;
use tui_cells::{Buffer, Mem, Position, Rect, StatefulWidget, Style};
use tui_text::{cell_width, set_stringn_in};

/// Returns the width of a symbol in columns, or 0 if there is none.
fn symbol_width(symbol: Option<&str>) -> u16
    ensures { result ≡ symbol_width (option_copied symbol.entry) }
{
    match symbol {
        None => 0,
        Some(text) => cell_width(text),
    }
}

/// Returns how many cells a symbol takes along the bar: 1, or 0 if there is none.
fn places(symbol: Option<&str>) -> usize
    ensures is { result ≡ places (option_copied symbol.entry) }
    ensures few { result ≤ 1 }
{
    usize::from(symbol.is_some())
}

/// Draws a symbol at a position, if there is a symbol.
fn paint_sign(
    buf: &mut Buffer,
    clip: Rect,
    at: Position,
    symbol: Option<&str>,
    style: Style,
) -> Mem<()>
    ensures ok { OnOk result (Painted (sign_layers clip at (option_copied symbol.entry) style) buf.old buf.new) }
    ensures kept { KeptOutside (covers clip) buf.old buf.new }
    ensures allocation_free { IsAllocationFreeSign (option_copied symbol.entry) → IsOk result }
{
    match symbol {
        None => Ok(()),
        Some(text) => {
            set_stringn_in(buf, clip, at, text, clip.width as usize, style)?;
            Ok(())
        }
    }
}

impl<'a> Scrollbar<'a> {
    /// Draws one symbol in `count` cells of the bar, from cell `first` on.
    fn paint_run(
        &self,
        buf: &mut Buffer,
        clip: Rect,
        first: usize,
        count: usize,
        symbol: Option<&str>,
        style: Style,
    ) -> Mem<()>
        requires { first + count < 2 ^ 32 }
        ensures ok { OnOk result (Painted (run_layers self.now.orientation clip (option_copied symbol.entry) style first count) buf.old buf.new) }
        ensures kept { KeptOutside (covers clip) buf.old buf.new }
        ensures allocation_free { IsAllocationFreeSign (option_copied symbol.entry) → IsOk result }
    {
        'places: for i in 0..count {
            let at = self.orientation.along(clip, first + i);
            paint_sign(buf, clip, at, symbol, style)?;
        }
        Ok(())
    }

    /// Draws `count` cells of the track, from cell `first` of the bar on.
    fn paint_track(&self, buf: &mut Buffer, clip: Rect, first: usize, count: u16) -> Mem<()>
        requires { first < 2 ^ 31 }
        ensures ok { let s = scrollbar_data self.now in OnOk result
            (Painted (run_layers s.orientation clip s.track s.track_style first count) buf.old buf.new) }
        ensures kept { KeptOutside (covers clip) buf.old buf.new }
        ensures allocation_free { IsAllocationFreeSign (scrollbar_data self.now).track → IsOk result }
    {
        self.paint_run(
            buf,
            clip,
            first,
            count as usize,
            self.track_symbol,
            self.track_style,
        )
    }

    /// Draws the symbols at the ends, and the track and the thumb between them.
    fn paint_bar(&self, buf: &mut Buffer, clip: Rect, parts: TrackParts) -> Mem<()>
        ensures ok { OnOk result (Painted (bar_layers (scrollbar_data self.now) clip parts) buf.old buf.new) }
        ensures kept { KeptOutside (covers clip) buf.old buf.new }
        ensures allocation_free { IsAllocationFreeScrollbar (scrollbar_data self.now) → IsOk result }
    {
        let start = places(self.begin_symbol);
        let thumb = start + parts.start as usize;
        let rest = thumb + parts.thumb as usize;
        let end = rest + parts.end as usize;
        self.paint_run(buf, clip, 0, start, self.begin_symbol, self.begin_style)?;
        self.paint_track(buf, clip, start, parts.start)?;
        self.paint_run(
            buf,
            clip,
            thumb,
            parts.thumb as usize,
            Some(self.thumb_symbol),
            self.thumb_style,
        )?;
        self.paint_track(buf, clip, rest, parts.end)?;
        self.paint_run(
            buf,
            clip,
            end,
            places(self.end_symbol),
            self.end_symbol,
            self.end_style,
        )
    }

    /// Returns the length of the track: the cells of the bar without the columns of the symbols at its ends.
    fn track(&self, clip: Rect) -> u16
        ensures { result ≡ track_of (scrollbar_data self.now) clip }
    {
        let ends = symbol_width(self.begin_symbol) as u32 + symbol_width(self.end_symbol) as u32;
        (self.orientation.length(clip) as u32).saturating_sub(ends) as u16
    }

    fn viewport(&self, clip: Rect, state: ScrollbarState) -> usize
        ensures { result ≡ viewport_in (length_along (scrollbar_data self.now).orientation clip) state.viewport_content_length }
    {
        if state.viewport_content_length == 0 {
            self.orientation.length(clip) as usize
        } else {
            state.viewport_content_length
        }
    }

    fn paint_in(&self, buf: &mut Buffer, clip: Rect, state: ScrollbarState) -> Mem<()>
        ensures ok { OnOk result (Painted (scrollbar_layers (scrollbar_data self.now) state clip) buf.old buf.new) }
        ensures kept { KeptOutside (covers clip) buf.old buf.new }
        ensures empty { IsTrue (is_empty clip) → IsOk result }
        ensures allocation_free { IsAllocationFreeScrollbar (scrollbar_data self.now) → IsOk result }
    {
        if clip.is_empty() {
            return Ok(());
        }
        let track = self.track(clip);
        if state.content_length == 0 || track == 0 {
            return Ok(());
        }
        let viewport = self.viewport(clip, state);
        let parts = TrackParts::new(track, viewport, state.content_length, state.position);
        self.paint_bar(buf, clip, parts)
    }
}

/// If there is content, and at least one cell between the symbols at the ends, the thumb is drawn where the visible
/// part is. Otherwise nothing is drawn. The state is unchanged.
impl<'a> StatefulWidget for Scrollbar<'a> {
    type State = ScrollbarState;

    ghost stateful_drawing = { λ scrollbar. scrollbar_moving (scrollbar_data scrollbar) };

    fn render(
        &self,
        _alloc: Global,
        area: Rect,
        buf: &mut Buffer,
        state: &mut ScrollbarState,
    ) -> Mem<()> {
        let clip = area.intersection(buf.area());
        self.paint_in(buf, clip, *state)
    }
}
