//! Graphemes side by side in a row. The printable bytes among them are written in runs.

ghost use Rattle.std.specs.List.{list_all};
ghost use Rattle.std.specs.Prelude.{◌≡◌, ◌+◌, ◌-◌, ◌^◌, ◌≤◌, ◌<◌, ◌∷◌, ◌++◌, All, IfOk, IsOk, List, OnOk, flat_map, length, map, true};
ghost use Rattle.tui_cells.specs.Cell.{IsAllocationFree, wipe};
ghost use Rattle.tui_cells.specs.Layers.{KeptOutside, Painted, stroke};
ghost use Rattle.tui_cells.specs.Rect.{covers, farthest_edge};
ghost use Rattle.tui_cells.specs.Style.{no_style};
ghost use Rattle.tui_text.specs.Grapheme.{Glyph, glyph_of, glyph_width};
ghost use Rattle.tui_clusters.specs.Clusters.{clusters_left};
ghost use Rattle.tui_clusters.specs.Shown.{clusters, one_byte};
ghost use Rattle.tui_text.specs.Graphemes.{glyph_in, span_graphemes};
ghost use Rattle.tui_text.specs.Painting.{cells_at, column_at, glyph_at, row_part, shown_glyph, shown_glyphs};
ghost use Rattle.tui_clusters.specs.Printable.{is_printable};
ghost use Rattle.tui_text.specs.Row.{InRow, ShownUpTo};
ghost use Rattle.tui_text.specs.Setting.{AreAllocationFree};
ghost use Rattle.tui_text.specs.Span.{span_data};

use crate::grapheme::StyledGrapheme;
use crate::span::Span;
use tui_cells::{Buffer, Mem, Position, Rect, Style};
use tui_clusters::{Clusters, cell_width, is_plain_char, split_run};

/// Makes the cells after the first one of a grapheme blank. Usually there are none.
#[inline(always)]
fn reset_after(buf: &mut Buffer, x: u16, y: u16, width: u16)
    requires { (0 < width) × (x + width ≤ farthest_edge) }
    ensures { Painted (stroke (covers (cells_at (x + 1) y (width - 1))) wipe) buf.old buf.new }
{
    if width == 1 {
        return;
    }
    buf.reset(Rect {
        x: x + 1,
        y,
        width: width - 1,
        height: 1,
    });
}

/// Writes a grapheme into its columns.
#[inline(always)]
pub(crate) fn write_glyph(
    buf: &mut Buffer,
    x: u16,
    y: u16,
    grapheme: &StyledGrapheme<'_>,
    width: u16,
) -> Mem<()>
    requires width { width ≡ glyph_width (glyph_of grapheme.now) }
    requires within { (0 < width) × (x + width ≤ farthest_edge) }
    ensures ok { OnOk result (Painted (glyph_at x y (glyph_of grapheme.now)) buf.old buf.new) }
    ensures kept { KeptOutside (covers (cells_at x y width)) buf.old buf.new }
    ensures allocation_free { IsAllocationFree (glyph_of grapheme.now).text → IsOk result }
{
    buf.set_symbol(Position { x, y }, grapheme.symbol)?;
    let cell = Rect {
        x,
        y,
        width: 1,
        height: 1,
    };
    buf.set_style(cell, grapheme.style);
    reset_after(buf, x, y, width);
    Ok(())
}

/// Returns the column where a grapheme begins, if it lies whole inside the row.
#[inline(always)]
fn column_at(row: Rect, skip: usize, place: usize, width: u16) -> Option<u16>
    ensures is { result ≡ column_at row skip place width }
{
    if width == 0 || place < skip || row.y >= row.bottom() {
        return None;
    }
    let room = (row.right() - row.x) as usize;
    let from = place - skip;
    if from >= room || width as usize > room - from {
        return None;
    }
    Some(row.x + from as u16)
}

/// Writes a grapheme at a place, if it lies whole inside the row.
#[inline(always)]
fn paint_glyph(
    buf: &mut Buffer,
    row: Rect,
    skip: usize,
    place: usize,
    grapheme: &StyledGrapheme<'_>,
    width: u16,
) -> Mem<()>
    requires { width ≡ glyph_width (glyph_of grapheme.now) }
    ensures ok { OnOk result (Painted (shown_glyph row skip place (glyph_of grapheme.now)) buf.old buf.new) }
    ensures kept { KeptOutside (row_part row) buf.old buf.new }
    ensures allocation_free { IsAllocationFree (glyph_of grapheme.now).text → IsOk result }
{
    match column_at(row, skip, place, width) {
        None => Ok(()),
        Some(x) => write_glyph(buf, x, row.y, grapheme, width),
    }
}

/// Returns how many columns the row has from a place on, or 0 if the place lies before the row.
#[inline(always)]
fn room_from(row: Rect, skip: usize, place: usize) -> usize
    requires { skip + row.width < 2 ^ 64 }
    ensures inside { 0 < result → InRow row skip place result }
    ensures fits { place + result < 2 ^ 64 }
{
    if place < skip || row.y >= row.bottom() {
        return 0;
    }
    let room = (row.right() - row.x) as usize;
    room.saturating_sub(place - skip)
}

/// Writes printable bytes from a place on. Their columns lie in the row. In text of other characters there are usually
/// none.
#[inline(always)]
fn paint_bytes(buf: &mut Buffer, row: Rect, skip: usize, place: usize, bytes: &[u8], style: Style)
    requires printable { list_all is_printable bytes.now ≡ true }
    requires inside { 0 < length bytes.now → InRow row skip place (length bytes.now) }
    ensures shown { (more : List Glyph) → ShownUpTo row skip place (map (glyph_in style) (map one_byte bytes.now) ++ more)
        (place + length bytes.now) more buf.old buf.new }
    ensures kept { KeptOutside (row_part row) buf.old buf.new }
{
    if bytes.is_empty() {
        return;
    }
    let x = row.x + (place - skip) as u16;
    buf.set_ascii(Position { x, y: row.y }, bytes, style);
}

/// Writes the printable bytes that come next, as many as the row has columns for. Returns the place after them.
#[inline]
fn paint_run(
    buf: &mut Buffer,
    row: Rect,
    skip: usize,
    place: usize,
    clusters: &mut Clusters<'_>,
    style: Style,
) -> usize
    requires { skip + row.width < 2 ^ 64 }
    ensures shown { (more : List Glyph) → ShownUpTo row skip place (map (glyph_in style) (clusters_left clusters.old) ++ more)
        result (map (glyph_in style) (clusters_left clusters.new) ++ more) buf.old buf.new }
    ensures kept { KeptOutside (row_part row) buf.old buf.new }
    ensures allocation_free { All IsAllocationFree (clusters_left clusters.old) → All IsAllocationFree (clusters_left clusters.new) }
    ensures fewer { length (clusters_left clusters.new) ≤ length (clusters_left clusters.old) }
{
    let run = clusters.next_run(room_from(row, skip, place));
    paint_bytes(buf, row, skip, place, run, style);
    place + run.len()
}

/// Writes a grapheme at a place, if it lies whole inside the row. Returns the place after it.
#[inline(always)]
fn paint_cluster(
    buf: &mut Buffer,
    row: Rect,
    skip: usize,
    place: usize,
    symbol: &str,
    style: Style,
) -> Mem<usize>
    requires { skip + row.width < 2 ^ 64 }
    ensures shown { IfOk result (λ next. (more : List Glyph) → ShownUpTo row skip place (glyph_in style symbol.now ∷ more) next more buf.old buf.new) }
    ensures kept { KeptOutside (row_part row) buf.old buf.new }
    ensures allocation_free { IsAllocationFree symbol.now → IsOk result }
{
    let width = cell_width(symbol);
    paint_glyph(
        buf,
        row,
        skip,
        place,
        &StyledGrapheme { symbol, style },
        width,
    )?;
    Ok(place.saturating_add(width as usize))
}

/// Writes a text from a place on, each grapheme that lies whole inside the row. Returns the place after them, or any
/// place past the row.
#[inline]
fn paint_clusters(
    buf: &mut Buffer,
    row: Rect,
    skip: usize,
    place: usize,
    text: &str,
    style: Style,
) -> Mem<usize>
    requires { skip + row.width < 2 ^ 64 }
    ensures shown { IfOk result (λ next. (more : List Glyph) →
        ShownUpTo row skip place (map (glyph_in style) (clusters text.now) ++ more) next more buf.old buf.new) }
    ensures kept { KeptOutside (row_part row) buf.old buf.new }
    ensures allocation_free { All IsAllocationFree (clusters text.now) → IsOk result }
{
    let (run, rest) = split_run(text, room_from(row, skip, place));
    paint_bytes(buf, row, skip, place, run, style);
    let after = place + run.len();
    if rest.is_empty() {
        return Ok(after);
    }
    paint_others(buf, row, skip, after, rest, style)
}

/// The same for a text that does not begin with printable bytes of the row. Never inlined, so that a text of these
/// takes few steps.
#[inline(never)]
fn paint_others(
    buf: &mut Buffer,
    row: Rect,
    skip: usize,
    place: usize,
    text: &str,
    style: Style,
) -> Mem<usize>
    requires { skip + row.width < 2 ^ 64 }
    ensures shown { IfOk result (λ next. (more : List Glyph) →
        ShownUpTo row skip place (map (glyph_in style) (clusters text.now) ++ more) next more buf.old buf.new) }
    ensures kept { KeptOutside (row_part row) buf.old buf.new }
    ensures allocation_free { All IsAllocationFree (clusters text.now) → IsOk result }
{
    if is_plain_char(text) {
        return paint_cluster(buf, row, skip, place, text, style);
    }
    paint_mixed(buf, row, skip, place, text, style)
}

/// The same, grapheme by grapheme. The printable bytes between them are written in runs.
#[inline(never)]
fn paint_mixed(
    buf: &mut Buffer,
    row: Rect,
    skip: usize,
    start: usize,
    text: &str,
    style: Style,
) -> Mem<usize>
    requires { skip + row.width < 2 ^ 64 }
    ensures shown { IfOk result (λ next. (more : List Glyph) →
        ShownUpTo row skip start (map (glyph_in style) (clusters text.now) ++ more) next more buf.old buf.new) }
    ensures kept { KeptOutside (row_part row) buf.old buf.new }
    ensures allocation_free { All IsAllocationFree (clusters text.now) → IsOk result }
{
    let end = skip + row.width as usize;
    let mut clusters = Clusters::new(text);
    let mut place = start;
    'clusters: loop {
        if place >= end {
            return Ok(place);
        }
        let Some(cluster) = clusters.next() else {
            return Ok(place);
        };
        let next = paint_cluster(buf, row, skip, place, cluster, style)?;
        place = paint_run(buf, row, skip, next, &mut clusters, style);
    }
}

/// Writes spans side by side from a place on, each grapheme that lies whole inside the row, in the spans' own styles.
pub(crate) fn paint_glyphs(
    buf: &mut Buffer,
    row: Rect,
    skip: usize,
    start: usize,
    spans: &[Span<'_>],
) -> Mem<()>
    requires { skip + row.width < 2 ^ 64 }
    ensures ok { OnOk result (Painted (shown_glyphs row skip start (flat_map (span_graphemes no_style) (map span_data spans.now))) buf.old buf.new) }
    ensures kept { KeptOutside (row_part row) buf.old buf.new }
    ensures allocation_free { AreAllocationFree (map span_data spans.now) → IsOk result }
{
    let end = skip + row.width as usize;
    let mut place = start;
    for span in spans {
        if place >= end {
            return Ok(());
        }
        place = paint_clusters(buf, row, skip, place, span.content, span.style)?;
    }
    Ok(())
}
