//! Paints one line.

ghost use Rattle.std.specs.Prelude.{◌≡◌, ◌<◌, ◌≤◌, IfOk, OnOk, drop, length, map, sum_by, true};
ghost use Rattle.tui_cells.specs.Buffer.{Screen};
ghost use Rattle.tui_cells.specs.Rect.{bottom_of, covers};
ghost use Rattle.tui_cells.specs.Layers.{Painted, KeptOutside};
ghost use Rattle.tui_text.specs.Grapheme.{glyph_of, glyph_width};
ghost use Rattle.tui_para.specs.Yielded.{glyph_line_of};
ghost use Rattle.tui_para.specs.Strokes.{glyph_layers, run_layers, start_of, glyph_line_layers};

use crate::composer::WrappedLine;
use crate::painting::bytes::paint_bytes;
use tui_cells::{Buffer, Mem, Position, Rect};
use tui_text::{Alignment, StyledGrapheme, cell_width};

/// Draws a grapheme of this width at a position of the clip, if its width is above 0.
fn paint_grapheme(
    buf: &mut Buffer,
    clip: Rect,
    at: Position,
    grapheme: &StyledGrapheme<'_>,
    width: u16,
) -> Mem<()>
    requires width { width ≡ glyph_width (glyph_of grapheme.now) }
    requires inside { covers clip at.x at.y ≡ true }
    ensures ok { OnOk result (Painted (glyph_layers clip at.x at.y (glyph_of grapheme.now)) buf.old buf.new) }
    ensures kept { KeptOutside (covers clip) buf.old buf.new }
{
    if width > 0 {
        let cell = Rect {
            x: at.x,
            y: at.y,
            width: 1,
            height: 1,
        };
        buf.set_symbol(at, grapheme.symbol)?;
        buf.set_style(cell, grapheme.style);
    }
    Ok(())
}

/// Draws the graphemes at `place` of a run, from a position of the clip on: as many as one stroke sets, or else a
/// single one. Returns the index of the next grapheme and the column after those that were drawn.
fn paint_next(
    buf: &mut Buffer,
    clip: Rect,
    at: Position,
    run: &[StyledGrapheme<'_>],
    place: usize,
) -> Mem<(usize, u16)>
    requires place { place < length run.now }
    requires inside { covers clip at.x at.y ≡ true }
    ensures within { IfOk result (λ (next, _). (place < next) × (next ≤ length run.now)) }
    ensures right { IfOk result (λ (_, x). at.x ≤ x) }
    ensures rest { IfOk result (λ (next, x). (final : Screen)
        → Painted (run_layers clip x at.y (drop next (map glyph_of run.now))) buf.new final
        → Painted (run_layers clip at.x at.y (drop place (map glyph_of run.now))) buf.old final) }
    ensures kept { KeptOutside (covers clip) buf.old buf.new }
{
    let count = paint_bytes(buf, clip, at, run, place);
    if count > 0 {
        return Ok((place + count, at.x + count as u16));
    }
    let width = cell_width(run[place].symbol);
    paint_grapheme(buf, clip, at, &run[place], width)?;
    Ok((place + 1, at.x.saturating_add(width)))
}

/// Draws graphemes side by side in a row of the clip, as far as it goes. The cells after the first one of a wide
/// grapheme are unchanged.
fn paint_run(buf: &mut Buffer, clip: Rect, at: Position, run: &[StyledGrapheme<'_>]) -> Mem<()>
    requires column { clip.x ≤ at.x }
    requires row { (clip.y ≤ at.y) × (at.y < bottom_of clip) }
    ensures ok { OnOk result (Painted (run_layers clip at.x at.y (map glyph_of run.now)) buf.old buf.new) }
    ensures kept { KeptOutside (covers clip) buf.old buf.new }
{
    let mut x = at.x;
    let mut place = 0;
    while place < run.len() {
        if x >= clip.right() {
            return Ok(());
        }
        let (next, column) = paint_next(buf, clip, Position { x, y: at.y }, run, place)?;
        place = next;
        x = column;
    }
    Ok(())
}

/// Returns the column in which a line starts, in an area of `room` columns.
fn start_of(alignment: Alignment, room: u16, width: u16) -> u16
    ensures { result ≡ start_of alignment room width }
{
    match alignment {
        Alignment::Left => 0,
        Alignment::Center => (room / 2).saturating_sub(width / 2),
        Alignment::Right => room.saturating_sub(width),
    }
}

/// Paints a line in a row of an area.
pub(crate) fn paint_line(
    buf: &mut Buffer,
    rect: Rect,
    y: u16,
    line: &WrappedLine<'_, '_>,
) -> Mem<()>
    requires width { line.now.width ≡ sum_by glyph_width (map glyph_of line.now.graphemes.now) }
    requires row { (rect.y ≤ y) × (y < bottom_of rect) }
    ensures ok { OnOk result (Painted (glyph_line_layers rect y (glyph_line_of line.now)) buf.old buf.new) }
    ensures kept { KeptOutside (covers rect) buf.old buf.new }
{
    let start = start_of(line.alignment, rect.width, line.width);
    let x = rect.x.saturating_add(start);
    paint_run(buf, rect, Position { x, y }, line.graphemes)
}
