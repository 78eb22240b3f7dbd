//! How a text input is drawn.

ghost use Rattle.std.specs.Option.{option_copied};
ghost use Rattle.std.specs.Prelude.{◌≡◌, ◌+◌, ◌-◌, ◌≤◌, ◌<◌, [], ◌∷◌, All, IfOk, IsOk, IsTrue, OnErr, OnOk, map, true, unwrap_or};
ghost use Rattle.tui_cells.specs.Cell.{IsAllocationFree, wipe};
ghost use Rattle.tui_cells.specs.Layers.{KeptOutside, Painted, stroke};
ghost use Rattle.tui_cells.specs.Rect.{covers, farthest_edge, intersection_of, is_empty};
ghost use Rattle.tui_cells.specs.Style.{no_style};
ghost use Rattle.tui_clusters.specs.Width.{width_of};
ghost use Rattle.tui_frames.specs.Footprint.{footprint_if};
ghost use Rattle.tui_frames.specs.InBlock.{inner_of};
ghost use Rattle.tui_input.specs.Input.{InputMoves, content_layers, has_cell, input_after, input_data, input_layers, room_of, shown_pieces, text_layers};
ghost use Rattle.tui_input.specs.InputDrawing.{IsAllocationFreeAround, IsAllocationFreeInput, IsAllocationFreeText, input_moving};
ghost use Rattle.tui_input.specs.Scroll.{columns_from, shown, with_first};
ghost use Rattle.tui_text.specs.Painting.{cells_at};
ghost use Rattle.tui_text.specs.Setting.{AreAllocationFree, corner, set_cluster, set_clusters, set_end, set_layers};
ghost use Rattle.unicode_segmentation.specs.Iter.{graphemes_left};

use crate::input::Input;
use crate::scroll::{graphemes_from, masked};
use crate::state::InputState;
use std::alloc::Global;
use tui_cells::{Buffer, Mem, Position, Rect, StatefulWidget, Style};
use tui_clusters::cell_width;
use tui_frames::paint_frame;
use tui_text::set_span_in;
use unicode_segmentation::{Graphemes, UnicodeSegmentation};

fn corner(area: Rect) -> Position
    ensures { result ≡ corner area }
{
    Position {
        x: area.x,
        y: area.y,
    }
}

fn has_cell(area: Rect) -> bool
    ensures { result ≡ has_cell area }
{
    area.contains(corner(area))
}

/// Returns the number of columns of an area, up to the farthest edge.
fn room_of(area: Rect) -> u16
    ensures is { result ≡ room_of area }
    ensures within { area.x + result ≤ farthest_edge }
{
    area.right() - area.x
}

/// Makes the cells after the first one of a grapheme blank.
fn reset_after(buf: &mut Buffer, at: Position, width: u16)
    requires { (0 < width) × (at.x + width ≤ farthest_edge) }
    ensures { Painted (stroke (covers (cells_at (at.x + 1) at.y (width - 1))) wipe) buf.old buf.new }
{
    if width == 1 {
        return;
    }
    buf.reset(Rect {
        x: at.x + 1,
        y: at.y,
        width: width - 1,
        height: 1,
    });
}

/// Writes a grapheme of `width` columns into its cells, if it has any.
fn write_grapheme(buf: &mut Buffer, at: Position, symbol: &str, width: u16) -> Mem<()>
    requires width { width ≡ width_of symbol.now }
    requires within { at.x + width ≤ farthest_edge }
    ensures ok { OnOk result (Painted (set_cluster at.x at.y no_style symbol.now) buf.old buf.new) }
    ensures kept { KeptOutside (covers (cells_at at.x at.y width)) buf.old buf.new }
    ensures allocation_free { IsAllocationFree symbol.now → IsOk result }
{
    if width == 0 {
        return Ok(());
    }
    buf.set_symbol(at, symbol)?;
    let cell = Rect {
        x: at.x,
        y: at.y,
        width: 1,
        height: 1,
    };
    buf.set_style(cell, Style::new());
    reset_after(buf, at, width);
    Ok(())
}

/// Writes graphemes, as they are shown, side by side, up to the first that doesn't fit. Returns the column after them.
fn write_graphemes(
    buf: &mut Buffer,
    at: Position,
    room: u16,
    mask: Option<&str>,
    mut graphemes: Graphemes<'_>,
) -> Mem<u16>
    requires { at.x + room ≤ farthest_edge }
    ensures ok { OnOk result
        (Painted (set_clusters at.x at.y room no_style (map (unwrap_or (option_copied mask.entry)) (graphemes_left graphemes.entry))) buf.old buf.new) }
    ensures end { IfOk result (λ x. x ≡ set_end at.x room (map (unwrap_or (option_copied mask.entry)) (graphemes_left graphemes.entry))) }
    ensures within { IfOk result (λ x. (at.x ≤ x) × (x ≤ at.x + room)) }
    ensures kept { KeptOutside (covers (cells_at at.x at.y room)) buf.old buf.new }
    ensures allocation_free { All IsAllocationFree (map (unwrap_or (option_copied mask.entry)) (graphemes_left graphemes.entry)) → IsOk result }
{
    let mut x = at.x;
    let mut left = room;
    while let Some(grapheme) = graphemes.next() {
        let symbol = masked(mask, grapheme);
        let width = cell_width(symbol);
        if width > left {
            return Ok(x);
        }
        write_grapheme(buf, Position { x, y: at.y }, symbol, width)?;
        x += width;
        left -= width;
    }
    Ok(x)
}

impl<'a> Input<'a> {
    /// Draws the text in `room` columns, from the grapheme at index `first` left of the cursor on.
    fn paint_sides(
        &self,
        buf: &mut Buffer,
        at: Position,
        room: u16,
        state: &InputState,
        first: usize,
    ) -> Mem<()>
        requires within { at.x + room ≤ farthest_edge }
        requires fits { columns_from (shown (input_data self.now).mask state.now.before) first ≤ room }
        ensures ok { OnOk result
            (Painted (set_clusters at.x at.y room no_style (shown_pieces (input_data self.now).mask (with_first state.now first))) buf.old buf.new) }
        ensures kept { KeptOutside (covers (cells_at at.x at.y room)) buf.old buf.new }
        ensures allocation_free { IsAllocationFreeText (input_data self.now).mask state.now → IsOk result }
    {
        let (before, after) = state.sides();
        let x = write_graphemes(buf, at, room, self.mask, graphemes_from(before, first))?;
        let following = Position { x, y: at.y };
        write_graphemes(
            buf,
            following,
            room - (x - at.x),
            self.mask,
            after.graphemes(true),
        )?;
        Ok(())
    }

    fn paint_placeholder(&self, buf: &mut Buffer, inner: Rect) -> Mem<()>
        ensures ok { OnOk result (Painted (set_layers inner (corner inner) ((input_data self.now).placeholder ∷ []) inner.width) buf.old buf.new) }
        ensures kept { KeptOutside (covers inner) buf.old buf.new }
        ensures allocation_free { AreAllocationFree ((input_data self.now).placeholder ∷ []) → IsOk result }
    {
        let room = inner.width as usize;
        set_span_in(buf, inner, corner(inner), &self.placeholder, room)?;
        Ok(())
    }

    /// Draws the text, or the placeholder if the text is empty.
    fn paint_text(&self, buf: &mut Buffer, inner: Rect, state: &InputState, first: usize) -> Mem<()>
        requires cell { has_cell inner ≡ true }
        requires fits { columns_from (shown (input_data self.now).mask state.now.before) first ≤ room_of inner }
        ensures ok { OnOk result (Painted (text_layers (input_data self.now) inner (with_first state.now first)) buf.old buf.new) }
        ensures kept { KeptOutside (covers inner) buf.old buf.new }
        ensures allocation_free { IsAllocationFreeAround (input_data self.now) → IsAllocationFreeText (input_data self.now).mask state.now → IsOk result }
    {
        if state.is_empty() {
            return self.paint_placeholder(buf, inner);
        }
        self.paint_sides(buf, corner(inner), room_of(inner), state, first)
    }

    /// Draws what is inside the block, if there is a cell. Returns the index of the first grapheme that is shown.
    fn paint_inside(&self, buf: &mut Buffer, inner: Rect, state: &InputState) -> Mem<usize>
        ensures ok { OnOk result (Painted (content_layers (input_data self.now) inner state.now) buf.old buf.new) }
        ensures state { IfOk result (λ first. with_first state.now first ≡ input_after (input_data self.now) inner state.now) }
        ensures kept { KeptOutside (covers inner) buf.old buf.new }
        ensures allocation_free { IsAllocationFreeAround (input_data self.now) → IsAllocationFreeText (input_data self.now).mask state.now → IsOk result }
    {
        if !has_cell(inner) {
            return Ok(state.first());
        }
        let first = state.first_in(self.mask, room_of(inner));
        self.paint_text(buf, inner, state, first)?;
        Ok(first)
    }

    /// Draws the style, the block and the text. Returns the index of the first grapheme that is shown.
    fn paint_in(
        &self,
        alloc: Global,
        buf: &mut Buffer,
        clip: Rect,
        state: &InputState,
    ) -> Mem<usize>
        ensures ok { OnOk result (Painted (input_layers (input_data self.now) state.now clip) buf.old buf.new) }
        ensures state { let i = input_data self.now in IfOk result (λ first. with_first state.now first ≡ input_after i (inner_of i.block clip) state.now) }
        ensures kept { KeptOutside (footprint_if (input_data self.now).block clip) buf.old buf.new }
        ensures empty { IsTrue (is_empty clip) → IsOk result }
        ensures allocation_free { IsAllocationFreeAround (input_data self.now) → IsAllocationFreeText (input_data self.now).mask state.now → IsOk result }
    {
        if clip.is_empty() {
            return Ok(state.first());
        }
        let inner = paint_frame(alloc, buf, clip, self.style, &self.block)?;
        self.paint_inside(buf, inner, state)
    }
}

/// Scrolls as little as possible to show the cursor, together with the grapheme right of it if that is no wider than
/// the inner area. If there is no cell inside the block, the state doesn't change.
impl<'a> StatefulWidget for Input<'a> {
    type State = InputState;

    ghost stateful_drawing = { λ input. input_moving (input_data input) };

    #[tactic(auto, using(crate::proofs::InputMoved::input_moves))]
    fn render(&self, alloc: Global, area: Rect, buf: &mut Buffer, state: &mut InputState) -> Mem<()>
        ensures ok { OnOk result (Painted (input_layers (input_data self.now) state.old (intersection_of area buf.old.area)) buf.old buf.new) }
        ensures state { let i = input_data self.now in
            OnOk result (state.new ≡ input_after i (inner_of i.block (intersection_of area buf.old.area)) state.old) }
        ensures shows { OnOk result (InputMoves (input_data self.now) (intersection_of area buf.old.area) state.old state.new) }
        ensures err { OnErr result (KeptOutside (footprint_if (input_data self.now).block (intersection_of area buf.old.area)) buf.old buf.new) }
        ensures err_state { OnErr result (state.new ≡ state.old) }
        ensures empty { IsTrue (is_empty (intersection_of area buf.old.area)) → IsOk result }
        ensures allocation_free { IsAllocationFreeInput (input_data self.now) → IsOk result }

        // Drawing doesn't allocate either if all graphemes of the text are short enough to be stored in their cells.
        ensures allocation_free_text { IsAllocationFreeAround (input_data self.now) → IsAllocationFreeText (input_data self.now).mask state.old → IsOk result }
    {
        let clip = area.intersection(buf.area());
        let first = self.paint_in(alloc, buf, clip, state)?;
        state.set_first(first);
        Ok(())
    }
}
