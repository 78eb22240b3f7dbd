//! Setting texts from a position on.

ghost use Rattle.std.specs.Prelude.{◌≡◌, ◌+◌, ◌-◌, ◌≤◌, [], ◌∷◌, All, IfOk, IsAscii, IsOk, OnOk, length, map, true};
ghost use Rattle.tui_cells.specs.Buffer.{Screen};
ghost use Rattle.tui_cells.specs.Cell.{IsAllocationFree};
ghost use Rattle.tui_cells.specs.Layers.{KeptOutside, Painted, ascii_layers};
ghost use Rattle.tui_cells.specs.Rect.{covers, intersection_of, right_of, farthest_edge};
ghost use Rattle.tui_clusters.specs.Width.{width_of};
ghost use Rattle.tui_clusters.specs.Clusters.{clusters_left};
ghost use Rattle.tui_clusters.specs.Shown.{clusters};
ghost use Rattle.tui_text.specs.Line.{line_data};
ghost use Rattle.tui_text.specs.Painting.{cells_at};
ghost use Rattle.tui_clusters.specs.Plain.{IsPlainChar};
ghost use Rattle.tui_text.specs.Span.{span_data};
ghost use Rattle.tui_text.specs.Setting.{
  AreAllocationFree,
  in_line,
  line_spans,
  room_in,
  set_cluster,
  set_clusters,
  set_column,
  set_end,
  set_layers,
  set_part,
  spans_end,
  spans_layers,
  styled_text,
};

use crate::grapheme::StyledGrapheme;
use crate::line::Line;
use crate::row::write_glyph;
use crate::span::Span;
use tui_cells::{Buffer, Mem, Position, Rect, Style};
use tui_clusters::{Clusters, cell_width, is_plain_char, split_run};

/// Writes a grapheme into its columns, if it has any. Always inlined, since it is a step of the loop over graphemes.
#[inline(always)]
fn write_cluster(buf: &mut Buffer, x: u16, y: u16, text: &str, style: Style, width: u16) -> Mem<()>
    requires width { width ≡ width_of text.now }
    requires within { x + width ≤ farthest_edge }
    ensures ok { OnOk result (Painted (set_cluster x y style text.now) buf.old buf.new) }
    ensures kept { KeptOutside (covers (cells_at x y width)) buf.old buf.new }
    ensures allocation_free { IsAllocationFree text.now → IsOk result }
{
    if width == 0 {
        return Ok(());
    }
    let grapheme = StyledGrapheme {
        symbol: text,
        style,
    };
    write_glyph(buf, x, y, &grapheme, width)
}

/// Writes ASCII characters side by side. In text of other characters there are usually none.
#[inline]
fn set_bytes(buf: &mut Buffer, at: Position, bytes: &[u8], style: Style)
    requires { IsAscii bytes.now }
    ensures { Painted (ascii_layers at.x at.y style bytes.now) buf.old buf.new }
{
    if bytes.is_empty() {
        return;
    }
    buf.set_ascii(at, bytes, style);
}

/// Writes the printable bytes that come next, as many as fit in `room`. Returns their number.
#[inline]
fn set_run(
    buf: &mut Buffer,
    at: Position,
    room: u16,
    clusters: &mut Clusters<'_>,
    style: Style,
) -> u16
    requires { at.x + room ≤ farthest_edge }
    ensures rest { (final : Screen) → Painted (set_clusters (at.x + result) at.y (room - result) style (clusters_left clusters.new)) buf.new final
        → Painted (set_clusters at.x at.y room style (clusters_left clusters.old)) buf.old final }
    ensures end { set_end (at.x + result) (room - result) (clusters_left clusters.new) ≡ set_end at.x room (clusters_left clusters.old) }
    ensures within { result ≤ room }
    ensures kept { KeptOutside (covers (cells_at at.x at.y result)) buf.old buf.new }
    ensures allocation_free { All IsAllocationFree (clusters_left clusters.old) → All IsAllocationFree (clusters_left clusters.new) }
    ensures fewer { length (clusters_left clusters.new) ≤ length (clusters_left clusters.old) }
{
    let run = clusters.next_run(room as usize);
    set_bytes(buf, at, run, style);
    run.len() as u16
}

/// Writes graphemes into `room` columns. Returns the column after the last one used.
#[inline]
fn set_clusters(buf: &mut Buffer, at: Position, room: u16, text: &str, style: Style) -> Mem<u16>
    requires { at.x + room ≤ farthest_edge }
    ensures ok { OnOk result (Painted (set_clusters at.x at.y room style (clusters text.now)) buf.old buf.new) }
    ensures end { IfOk result (λ x. x ≡ set_end at.x room (clusters text.now)) }
    ensures within { IfOk result (λ x. (at.x ≤ x) × (x ≤ at.x + room)) }
    ensures kept { KeptOutside (covers (cells_at at.x at.y (set_end at.x room (clusters text.now) - at.x))) buf.old buf.new }
    ensures allocation_free { All IsAllocationFree (clusters text.now) → IsOk result }
{
    let (run, rest) = split_run(text, room as usize);
    set_bytes(buf, at, run, style);
    let used = run.len() as u16;
    if rest.is_empty() {
        return Ok(at.x + used);
    }
    let after = Position {
        x: at.x + used,
        y: at.y,
    };
    set_others(buf, after, room - used, rest, style)
}

/// The same for a text that does not begin with printable bytes. Never inlined, so that a text of these takes few
/// steps.
#[inline(never)]
fn set_others(buf: &mut Buffer, at: Position, room: u16, text: &str, style: Style) -> Mem<u16>
    requires { at.x + room ≤ farthest_edge }
    ensures ok { OnOk result (Painted (set_clusters at.x at.y room style (clusters text.now)) buf.old buf.new) }
    ensures end { IfOk result (λ x. x ≡ set_end at.x room (clusters text.now)) }
    ensures within { IfOk result (λ x. (at.x ≤ x) × (x ≤ at.x + room)) }
    ensures kept { KeptOutside (covers (cells_at at.x at.y (set_end at.x room (clusters text.now) - at.x))) buf.old buf.new }
    ensures allocation_free { All IsAllocationFree (clusters text.now) → IsOk result }
{
    if is_plain_char(text) {
        return set_lone(buf, at, room, text, style);
    }
    set_mixed(buf, at, room, text, style)
}

/// The same for one plain character, such as a divider.
#[inline]
fn set_lone(buf: &mut Buffer, at: Position, room: u16, text: &str, style: Style) -> Mem<u16>
    requires plain { IsPlainChar text.now }
    requires room { at.x + room ≤ farthest_edge }
    ensures ok { OnOk result (Painted (set_clusters at.x at.y room style (clusters text.now)) buf.old buf.new) }
    ensures end { IfOk result (λ x. x ≡ set_end at.x room (clusters text.now)) }
    ensures within { IfOk result (λ x. (at.x ≤ x) × (x ≤ at.x + room)) }
    ensures kept { KeptOutside (covers (cells_at at.x at.y (set_end at.x room (clusters text.now) - at.x))) buf.old buf.new }
    ensures allocation_free { All IsAllocationFree (clusters text.now) → IsOk result }
{
    let width = cell_width(text);
    if width > room {
        return Ok(at.x);
    }
    write_cluster(buf, at.x, at.y, text, style, width)?;
    Ok(at.x + width)
}

/// The same, grapheme by grapheme. The printable bytes between them are written in runs.
#[inline(never)]
fn set_mixed(buf: &mut Buffer, at: Position, room: u16, text: &str, style: Style) -> Mem<u16>
    requires { at.x + room ≤ farthest_edge }
    ensures ok { OnOk result (Painted (set_clusters at.x at.y room style (clusters text.now)) buf.old buf.new) }
    ensures end { IfOk result (λ x. x ≡ set_end at.x room (clusters text.now)) }
    ensures within { IfOk result (λ x. (at.x ≤ x) × (x ≤ at.x + room)) }
    ensures kept { KeptOutside (covers (cells_at at.x at.y (set_end at.x room (clusters text.now) - at.x))) buf.old buf.new }
    ensures allocation_free { All IsAllocationFree (clusters text.now) → IsOk result }
{
    let mut clusters = Clusters::new(text);
    let mut x = at.x;
    let mut left = room;
    'clusters: loop {
        let Some(cluster) = clusters.next() else {
            return Ok(x);
        };
        let width = cell_width(cluster);
        if width > left {
            return Ok(x);
        }
        write_cluster(buf, x, at.y, cluster, style, width)?;
        x += width;
        left -= width;
        let run = set_run(buf, Position { x, y: at.y }, left, &mut clusters, style);
        x += run;
        left -= run;
    }
}

/// Sets the spans of a line one after another, each in the columns that are left.
fn set_spans(
    buf: &mut Buffer,
    at: Position,
    room: u16,
    spans: &[Span<'_>],
    style: Style,
) -> Mem<u16>
    requires { at.x + room ≤ farthest_edge }
    ensures ok { OnOk result (Painted (spans_layers at.x at.y room (map (in_line style) (map span_data spans.now))) buf.old buf.new) }
    ensures end { IfOk result (λ x. x ≡ spans_end at.x room (map (in_line style) (map span_data spans.now))) }
    ensures kept { KeptOutside (covers (cells_at at.x at.y (spans_end at.x room (map (in_line style) (map span_data spans.now)) - at.x))) buf.old buf.new }
    ensures allocation_free { AreAllocationFree (map span_data spans.now) → IsOk result }
{
    let mut x = at.x;
    let mut left = room;
    for span in spans {
        let next = set_clusters(
            buf,
            Position { x, y: at.y },
            left,
            span.content,
            style.patch(span.style),
        )?;
        left -= next - x;
        x = next;
    }
    Ok(x)
}

/// Returns how many columns a text may use that is set at a position of a clip.
fn room_in(clip: Rect, at: Position, room: usize) -> u16
    requires { covers clip at.x at.y ≡ true }
    ensures is { result ≡ room_in clip at.x room }
    ensures within { at.x + result ≤ right_of clip }
{
    room.min((clip.right() - at.x) as usize) as u16
}

/// Sets a text from a position on, as `set_stringn` does if the clip lies in the buffer.
pub fn set_stringn_in(
    buf: &mut Buffer,
    clip: Rect,
    at: Position,
    text: &str,
    room: usize,
    style: Style,
) -> Mem<u16>
    ensures ok { OnOk result (Painted (set_layers clip at (styled_text text.now style) room) buf.old buf.new) }
    ensures end { IfOk result (λ x. x ≡ set_column clip at (styled_text text.now style) room) }
    ensures kept { KeptOutside (covers clip) buf.old buf.new }
    ensures part { KeptOutside (set_part clip at (styled_text text.now style) room) buf.old buf.new }
    ensures allocation_free { AreAllocationFree (styled_text text.now style) → IsOk result }
{
    if !clip.contains(at) {
        return Ok(at.x);
    }
    set_clusters(buf, at, room_in(clip, at, room), text, style)
}

/// Sets a text from a position on, in at most `room` columns and within the clip and the buffer. Writes each grapheme
/// of a width above 0 with the style, until the first that does not fit. The cells after the first one of a wide
/// grapheme are made blank. Returns the column after the last one used. A position outside the clip changes nothing,
/// and its column is returned. Fails with `NoMemory` if memory runs out. Then no cell has changed except those of the
/// position's row from there up to the column that success would return. Graphemes of at most 8 bytes do not allocate.
pub fn set_stringn(
    buf: &mut Buffer,
    clip: Rect,
    at: Position,
    text: &str,
    room: usize,
    style: Style,
) -> Mem<u16>
    ensures ok { OnOk result (Painted (set_layers (intersection_of clip buf.old.area) at (styled_text text.now style) room) buf.old buf.new) }
    ensures end { IfOk result (λ x. x ≡ set_column (intersection_of clip buf.old.area) at (styled_text text.now style) room) }
    ensures kept { KeptOutside (covers (intersection_of clip buf.old.area)) buf.old buf.new }
    ensures part { KeptOutside (set_part (intersection_of clip buf.old.area) at (styled_text text.now style) room) buf.old buf.new }
    ensures allocation_free { AreAllocationFree (styled_text text.now style) → IsOk result }
{
    set_stringn_in(buf, clip.intersection(buf.area()), at, text, room, style)
}

/// Sets a span's text in its style, as `set_stringn_in` does.
pub fn set_span_in(
    buf: &mut Buffer,
    clip: Rect,
    at: Position,
    span: &Span<'_>,
    room: usize,
) -> Mem<u16>
    ensures ok { OnOk result (Painted (set_layers clip at (span_data span.now ∷ []) room) buf.old buf.new) }
    ensures end { IfOk result (λ x. x ≡ set_column clip at (span_data span.now ∷ []) room) }
    ensures kept { KeptOutside (covers clip) buf.old buf.new }
    ensures part { KeptOutside (set_part clip at (span_data span.now ∷ []) room) buf.old buf.new }
    ensures allocation_free { AreAllocationFree (span_data span.now ∷ []) → IsOk result }
{
    set_stringn_in(buf, clip, at, span.content, room, span.style)
}

/// Sets a span's text in its style, as `set_stringn` does.
pub fn set_span(
    buf: &mut Buffer,
    clip: Rect,
    at: Position,
    span: &Span<'_>,
    room: usize,
) -> Mem<u16>
    ensures ok { OnOk result (Painted (set_layers (intersection_of clip buf.old.area) at (span_data span.now ∷ []) room) buf.old buf.new) }
    ensures end { IfOk result (λ x. x ≡ set_column (intersection_of clip buf.old.area) at (span_data span.now ∷ []) room) }
    ensures kept { KeptOutside (covers (intersection_of clip buf.old.area)) buf.old buf.new }
    ensures part { KeptOutside (set_part (intersection_of clip buf.old.area) at (span_data span.now ∷ []) room) buf.old buf.new }
    ensures allocation_free { AreAllocationFree (span_data span.now ∷ []) → IsOk result }
{
    set_span_in(buf, clip.intersection(buf.area()), at, span, room)
}

/// Sets the spans of a line one after another, as `set_line` does if the clip lies in the buffer.
pub fn set_line_in(
    buf: &mut Buffer,
    clip: Rect,
    at: Position,
    line: &Line<'_>,
    room: usize,
) -> Mem<u16>
    ensures ok { OnOk result (Painted (set_layers clip at (line_spans (line_data line.now)) room) buf.old buf.new) }
    ensures end { IfOk result (λ x. x ≡ set_column clip at (line_spans (line_data line.now)) room) }
    ensures kept { KeptOutside (covers clip) buf.old buf.new }
    ensures part { KeptOutside (set_part clip at (line_spans (line_data line.now)) room) buf.old buf.new }
    ensures allocation_free { AreAllocationFree (line_data line.now).spans → IsOk result }
{
    if !clip.contains(at) {
        return Ok(at.x);
    }
    set_spans(
        buf,
        at,
        room_in(clip, at, room),
        line.spans(),
        line.line_style(),
    )
}

/// Sets the spans of a line one after another, as `set_stringn` does. Each has the line's style patched by its own, and
/// the columns that are left. A grapheme that does not fit ends its span. The next span continues in the columns that
/// are left.
pub fn set_line(
    buf: &mut Buffer,
    clip: Rect,
    at: Position,
    line: &Line<'_>,
    room: usize,
) -> Mem<u16>
    ensures ok { OnOk result (Painted (set_layers (intersection_of clip buf.old.area) at (line_spans (line_data line.now)) room) buf.old buf.new) }
    ensures end { IfOk result (λ x. x ≡ set_column (intersection_of clip buf.old.area) at (line_spans (line_data line.now)) room) }
    ensures kept { KeptOutside (covers (intersection_of clip buf.old.area)) buf.old buf.new }
    ensures part { KeptOutside (set_part (intersection_of clip buf.old.area) at (line_spans (line_data line.now)) room) buf.old buf.new }
    ensures allocation_free { AreAllocationFree (line_data line.now).spans → IsOk result }
{
    set_line_in(buf, clip.intersection(buf.area()), at, line, room)
}
