//! Painting lines in rows, and texts in areas.

ghost use Rattle.std.specs.Prelude.{◌≡◌, ◌+◌, ◌-◌, ◌^◌, ◌≤◌, ◌<◌, All, IsOk, OnOk, false, map, sum_by};
ghost use Rattle.tui_cells.specs.Layers.{KeptOutside, Painted};
ghost use Rattle.tui_cells.specs.Rect.{covers, intersection_of};
ghost use Rattle.tui_text.specs.Line.{line_data, spans_line};
ghost use Rattle.tui_text.specs.Painting.{
  alignment_in,
  alignment_offset,
  below,
  line_part,
  lines_layers,
  row_layers,
  text_layers,
};
ghost use Rattle.tui_text.specs.Setting.{AreAllocationFree};
ghost use Rattle.tui_text.specs.Span.{span_data};
ghost use Rattle.tui_text.specs.Text.{text_data};
ghost use Rattle.tui_clusters.specs.Width.{saturated};
ghost use Rattle.tui_text.specs.Width.{span_width};

use crate::alignment::Alignment;
use crate::line::Line;
use crate::row::paint_glyphs;
use crate::span::Span;
use crate::text::Text;
use crate::width::{has_columns, spans_width};
use tui_cells::{Buffer, Mem, Rect, Style};

/// Returns how much of the free space, `room` minus `width`, lies before what is aligned.
fn alignment_offset(alignment: Alignment, room: usize, width: usize) -> usize
    ensures is { result ≡ alignment_offset alignment room width }
    ensures within { result ≤ room - width }
{
    match alignment {
        Alignment::Left => 0,
        Alignment::Center => room.saturating_sub(width) / 2,
        Alignment::Right => room.saturating_sub(width),
    }
}

/// Paints spans in the first row of an area, as `paint_row` paints a line of them in a style. No line is created for
/// it.
///
/// Spans aligned to the left are read once. Others are read a second time, for their width.
#[tactic(auto, unfolding(crate::specs::Painting::line_part, crate::specs::Painting::row_layers))]
pub fn paint_spans(
    buf: &mut Buffer,
    row: Rect,
    spans: &[Span<'_>],
    style: Style,
    alignment: Alignment,
) -> Mem<()>
    ensures ok { OnOk result (Painted (row_layers row alignment (spans_line (map span_data spans.now) style)) buf.old buf.new) }
    ensures kept { KeptOutside (covers row) buf.old buf.new }
    ensures part { KeptOutside (line_part row (spans_line (map span_data spans.now) style)) buf.old buf.new }
    ensures allocation_free { AreAllocationFree (map span_data spans.now) → IsOk result }
{
    if row.is_empty() || !has_columns(spans) {
        return Ok(());
    }
    let (skip, start) = skip_and_start(spans, alignment, row.width);
    buf.set_style(Rect { height: 1, ..row }, style);
    paint_glyphs(buf, row, skip, start, spans)
}

/// Returns how many columns of the spans are cut at their left, and how many columns of the row lie before spans that
/// fit.
fn skip_and_start(spans: &[Span<'_>], alignment: Alignment, room: u16) -> (usize, usize)
    ensures skip { result.0 ≡ alignment_offset alignment (saturated (sum_by (span_width false) (map span_data spans.now))) room }
    ensures start { result.1 ≡ alignment_offset alignment room (saturated (sum_by (span_width false) (map span_data spans.now))) }
    ensures within { result.0 + room < 2 ^ 64 }
{
    match alignment {
        Alignment::Left => (0, 0),
        Alignment::Center | Alignment::Right => {
            let width = spans_width(spans, false);
            let room = room as usize;
            (
                alignment_offset(alignment, width, room),
                alignment_offset(alignment, room, width),
            )
        }
    }
}

/// Paints a line in the first row of an area, as `paint_line` does if the area lies in its clip and in the buffer.
#[tactic(auto, unfolding(crate::specs::Painting::line_part, crate::specs::Painting::row_layers))]
pub fn paint_row(buf: &mut Buffer, row: Rect, line: &Line<'_>, alignment: Alignment) -> Mem<()>
    ensures ok { OnOk result (Painted (row_layers row alignment (line_data line.now)) buf.old buf.new) }
    ensures kept { KeptOutside (covers row) buf.old buf.new }
    ensures part { KeptOutside (line_part row (line_data line.now)) buf.old buf.new }
    ensures allocation_free { AreAllocationFree (line_data line.now).spans → IsOk result }
{
    paint_spans(buf, row, line.spans(), line.line_style(), alignment)
}

/// Paints a line in the first row of its area within the clip and the buffer. Sets the line's style on the row and then
/// writes each grapheme that lies whole inside, in its span's style. The cells after the first one of a wide grapheme
/// are made blank. A line that fits is indented by none (Left), half (Center) or all (Right) of its free columns. A
/// wider line loses columns at its left in the same way. A line without columns changes nothing, whatever the result.
/// Fails with `NoMemory` if memory runs out; nothing outside that first row has changed then. Graphemes of at most 8
/// bytes do not allocate.
pub fn paint_line(
    buf: &mut Buffer,
    clip: Rect,
    area: Rect,
    line: &Line<'_>,
    alignment: Alignment,
) -> Mem<()>
    ensures ok { OnOk result
        (Painted (row_layers (intersection_of area (intersection_of clip buf.old.area)) alignment (line_data line.now)) buf.old buf.new) }
    ensures kept { KeptOutside (covers (intersection_of area (intersection_of clip buf.old.area))) buf.old buf.new }
    ensures part { KeptOutside (line_part (intersection_of area (intersection_of clip buf.old.area)) (line_data line.now)) buf.old buf.new }
    ensures allocation_free { AreAllocationFree (line_data line.now).spans → IsOk result }
{
    let part = clip.intersection(buf.area());
    paint_row(buf, area.intersection(part), line, alignment)
}

/// Returns the rest of an area below its first row. Its `y` is cut at 65535, which no area reaches.
pub fn below(area: Rect) -> Rect
    ensures { result ≡ below area }
{
    Rect {
        x: area.x,
        y: area.y.saturating_add(1),
        width: area.width,
        height: area.height.saturating_sub(1),
    }
}

/// Returns the line's own alignment, else the text's, else Left.
fn alignment_in(given: Option<Alignment>, line: &Line<'_>) -> Alignment
    ensures { result ≡ alignment_in given (line_data line.now) }
{
    line.line_alignment().or(given).unwrap_or(Alignment::Left)
}

fn paint_lines(
    buf: &mut Buffer,
    area: Rect,
    lines: &[Line<'_>],
    given: Option<Alignment>,
) -> Mem<()>
    ensures ok { OnOk result (Painted (lines_layers area given (map line_data lines.now)) buf.old buf.new) }
    ensures kept { KeptOutside (covers area) buf.old buf.new }
    ensures allocation_free { All (λ l. AreAllocationFree l.spans) (map line_data lines.now) → IsOk result }
{
    let mut rest = area;
    for line in lines {
        if rest.is_empty() {
            return Ok(());
        }
        paint_row(buf, rest, line, alignment_in(given, line))?;
        rest = below(rest);
    }
    Ok(())
}

/// Paints a text in an area, as `paint_text` does if the area lies in its clip and in the buffer.
pub fn paint_rows(buf: &mut Buffer, area: Rect, text: &Text<'_>) -> Mem<()>
    ensures ok { OnOk result (Painted (text_layers area (text_data text.now)) buf.old buf.new) }
    ensures kept { KeptOutside (covers area) buf.old buf.new }
    ensures allocation_free { All (λ l. AreAllocationFree l.spans) (text_data text.now).lines → IsOk result }
{
    buf.set_style(area, text.text_style());
    paint_lines(buf, area, text.lines(), text.text_alignment())
}

/// Paints a text in its area within the clip and the buffer. Sets the text's style on that part and then paints line i
/// in row i as `paint_line` does. The alignment is the line's, else the text's, else Left. Lines past the last row are
/// left out. Fails with `NoMemory` if memory runs out; nothing outside that part has changed then.
pub fn paint_text(buf: &mut Buffer, clip: Rect, area: Rect, text: &Text<'_>) -> Mem<()>
    ensures ok { OnOk result
        (Painted (text_layers (intersection_of area (intersection_of clip buf.old.area)) (text_data text.now)) buf.old buf.new) }
    ensures kept { KeptOutside (covers (intersection_of area (intersection_of clip buf.old.area))) buf.old buf.new }
    ensures allocation_free { All (λ l. AreAllocationFree l.spans) (text_data text.now).lines → IsOk result }
{
    let part = clip.intersection(buf.area());
    paint_rows(buf, area.intersection(part), text)
}
