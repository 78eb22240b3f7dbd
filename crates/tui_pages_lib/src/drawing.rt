//! Drawing a page.

ghost use Rattle.std.specs.Prelude.{◌≡◌, ◌+◌, ◌-◌, ◌<◌, ◌≤◌, ◌⊎◌, [], All, IfSome, None, OnOk, Some, length, map, slice_get, slice_index_or};
ghost use Rattle.tui_cells.specs.Layers.{KeptOutside, Painted};
ghost use Rattle.tui_cells.specs.Rect.{covers, intersection_of, rows_from};
ghost use Rattle.tui_para.specs.Paragraph.{paragraph_data};
ghost use Rattle.tui_pages_lib.specs.Pages.{lines_on};
ghost use Rattle.tui_pages_lib.specs.Report.{cells_of, column_data};
ghost use Rattle.tui_pages_lib.specs.Starts.{ContinuesFrom, RowStarts};
ghost use Rattle.tui_pages_lib.specs.declared.piece.Piece.{Piece};
ghost use Rattle.tui_pages_lib.specs.Strokes.{
  IsDrawable,
  cell_from,
  cells_layers,
  paragraph_in,
  names_layers,
  number_of,
  pieces_layers,
  unwrapped,
  right_layers,
};

use crate::column::Column;
use crate::measuring::cell_paragraph;
use crate::piece::Piece;
use crate::records::Record;
use crate::shown::visible_prefix;
use std::alloc::Global;
use tui_cells::{Buffer, Mem, Position, Rect, Style, Widget};
use tui_layout::Segment;
use tui_para::{Paragraph, Wrap};
use tui_text::{Text, set_stringn_in};

/// The first row of the pieces, below the title and the names.
const TOP: u16 = 2;

/// Draws a paragraph in the part of an area that is in the buffer.
fn draw_in(alloc: Global, paragraph: &Paragraph<'_>, area: Rect, buf: &mut Buffer) -> Mem<()>
    requires { (paragraph_data paragraph.now).block ≡ None }
    ensures ok { OnOk result (Painted (paragraph_in buf.old.area area (paragraph_data paragraph.now)) buf.old buf.new) }
    ensures kept { KeptOutside (covers area) buf.old buf.new }
{
    paragraph.render(alloc, area, buf)
}

/// Writes a text. Its lines are cut at the right edge.
pub(crate) fn draw_text(alloc: Global, text: &str, area: Rect, buf: &mut Buffer) -> Mem<()>
    ensures ok { OnOk result (Painted (paragraph_in buf.old.area area (unwrapped text.now)) buf.old buf.new) }
    ensures kept { KeptOutside (covers area) buf.old buf.new }
{
    let paragraph = Paragraph::new(Text::raw(alloc, text)?);
    draw_in(alloc, &paragraph, area, buf)
}

/// Draws the lines of a cell from one of them on.
fn draw_cell(alloc: Global, cell: &str, line: u16, area: Rect, buf: &mut Buffer) -> Mem<()>
    ensures ok { OnOk result (Painted (paragraph_in buf.old.area area (cell_from line cell.now)) buf.old buf.new) }
    ensures kept { KeptOutside (covers area) buf.old buf.new }
{
    let paragraph = cell_paragraph(alloc, cell, line)?;
    draw_in(alloc, &paragraph, area, buf)
}

/// Draws all lines of a cell. The result is the same as that of `draw_cell` from line 0 on, but the paragraph is moved
/// less often.
fn draw_whole(alloc: Global, cell: &str, area: Rect, buf: &mut Buffer) -> Mem<()>
    ensures ok { OnOk result (Painted (paragraph_in buf.old.area area (cell_from 0 cell.now)) buf.old buf.new) }
    ensures kept { KeptOutside (covers area) buf.old buf.new }
{
    let text = Text::raw(alloc, cell)?;
    let wrap = Wrap {
        trim: true,
        hyphens: false,
    };
    let paragraph = Paragraph::new(text).wrap(wrap);
    draw_in(alloc, &paragraph, area, buf)
}

/// A cell continues at byte `start`. Its lines on the page end about `near` bytes later.
#[derive(Clone, Copy, Debug)]
struct Resumed {
    start: usize,
    near: usize,
}

/// The lines of a cell from `line` on.
#[derive(Clone, Copy)]
struct CellRest<'a> {
    cell: &'a str,
    line: u16,
}

impl<'a> CellRest<'a> {
    // Calling this gives the prover that the cell is UTF-8.
    fn cell(self) -> &'a str
        ensures { result.now ≡ self.entry.cell.now }
    {
        self.cell
    }
}

/// An area to draw into, and the part of it that is in the buffer.
#[derive(Clone, Copy)]
struct ClippedArea {
    area: Rect,
    clip: Rect,
}

/// Draws the rest of a cell. The cell continues with its line at byte `from.start`, at the width of the clip. Only a
/// little of the text after the last row of the clip is read.
fn draw_from(
    alloc: Global,
    rest: CellRest<'_>,
    from: Resumed,
    place: ClippedArea,
    buf: &mut Buffer,
) -> Mem<()>
    requires wide { 0 < place.clip.width }
    requires continues { ContinuesFrom place.clip.width rest.line rest.cell.now from.start }
    requires clip { place.clip ≡ intersection_of place.area buf.old.area }
    ensures ok { OnOk result (Painted (paragraph_in buf.old.area place.area (cell_from rest.entry.line rest.entry.cell.now)) buf.old buf.new) }
    ensures kept { KeptOutside (covers place.area) buf.old buf.new }
{
    let ClippedArea { area, clip } = place;
    match rest.cell.split_at_checked(from.start) {
        Some((_, rest)) => {
            let rows = usize::from(clip.height);
            let shown = visible_prefix(rest, clip.width, rows, from.near);
            draw_whole(alloc, shown, area, buf)
        }
        None => draw_in(alloc, &Paragraph::new(Text::new(alloc)), area, buf),
    }
}

/// The column of a cell: its width, and its area on the page.
#[derive(Clone, Copy)]
struct CellArea {
    width: u16,
    area: Rect,
}

/// Draws the rest of a cell. If the byte from which the cell continues with its line is known, the text before it is
/// not read. For the first line it is the start of the cell.
fn draw_rest(
    alloc: Global,
    rest: CellRest<'_>,
    from: Option<Resumed>,
    place: CellArea,
    buf: &mut Buffer,
) -> Mem<()>
    requires { IfSome from (λ r. (rest.line ≡ 0) × (r.start ≡ 0) ⊎ (0 < place.width → ContinuesFrom place.width rest.line rest.cell.now r.start)) }
    ensures ok { OnOk result (Painted (paragraph_in buf.old.area place.area (cell_from rest.entry.line rest.entry.cell.now)) buf.old buf.new) }
    ensures kept { KeptOutside (covers place.area) buf.old buf.new }
{
    let CellArea { width, area } = place;
    let cell = rest.cell();
    let clip = area.intersection(buf.area());
    match from {
        Some(from) if width > 0 && clip.width == width => {
            draw_from(alloc, rest, from, ClippedArea { area, clip }, buf)
        }
        _ => draw_cell(alloc, cell, rest.line, area, buf),
    }
}

/// The greatest number of bytes of two 64-bit numbers and a `/`.
const MAX_BYTES: usize = 41;

/// Writes the number of a page, counted from 1, and the number of pages.
pub(crate) fn draw_number(
    alloc: Global,
    at: usize,
    count: usize,
    area: Rect,
    buf: &mut Buffer,
) -> Mem<()>
    requires { at < count }
    ensures ok { OnOk result (Painted (right_layers buf.old.area area (number_of at count)) buf.old buf.new) }
    ensures kept { KeptOutside (covers area) buf.old buf.new }
{
    let mut number = String::with_capacity(alloc, MAX_BYTES)?;
    write!(number, "{}/{count}", at + 1)?;
    set_right(number.as_str(), area, buf)
}

/// Writes a text so that it ends at the right edge of an area's first row, or is cut there. Each byte of the text is a
/// character of one column.
fn set_right(text: &str, area: Rect, buf: &mut Buffer) -> Mem<()>
    ensures ok { OnOk result (Painted (right_layers buf.old.area area text.now) buf.old buf.new) }
    ensures kept { KeptOutside (covers area) buf.old buf.new }
{
    let clip = area.intersection(buf.area());
    let room = usize::from(clip.width).min(text.len());
    let place = Position {
        x: clip.right() - room as u16,
        y: clip.y,
    };
    set_stringn_in(buf, clip, place, text, room, Style::new())?;
    Ok(())
}

/// Writes the names of the columns, side by side.
pub(crate) fn draw_names(
    alloc: Global,
    columns: &[Column<'_>],
    places: &[Segment],
    row: Rect,
    buf: &mut Buffer,
) -> Mem<()>
    ensures ok { OnOk result (Painted (names_layers buf.old.area row places.now (map column_data columns.now)) buf.old buf.new) }
    ensures kept { KeptOutside (covers row) buf.old buf.new }
{
    'names: for i in 0..places.len().min(columns.len()) {
        let place = places[i];
        let area = row.columns_from(place.start, place.width);
        draw_text(alloc, columns[i].name, area, buf)?;
    }
    Ok(())
}

/// Returns from where the cell in a column continues with a line, if that is known.
fn resume_point(starts: &[usize], line: u16, i: usize, columns: usize) -> Option<Resumed>
    ensures { IfSome result (λ r. (line ≡ 0) × (r.start ≡ 0) ⊎ (0 < line) × (slice_get starts.now i ≡ Some r.start)) }
{
    let first = *starts.get(i)?;
    if line == 0 {
        return Some(Resumed {
            start: 0,
            near: first,
        });
    }
    Some(Resumed {
        start: first,
        near: next_start(starts, i, columns).saturating_sub(first),
    })
}

/// Returns where the next page continues in that column. It has no clause, because its result is checked before it is
/// used.
fn next_start(starts: &[usize], i: usize, columns: usize) -> usize {
    let next = i.saturating_add(columns);
    if next < starts.len() { starts[next] } else { 0 }
}

/// A record from one of its lines on. `starts` are the bytes from which the cells continue with that line, unless it is
/// the first one and as far as they are known. After them follow the bytes from which the next page continues with the
/// record.
#[derive(Clone, Copy)]
struct RecordRest<'a, 't> {
    record: &'a Record<'t>,
    line: u16,
    starts: &'a [usize],
}

/// Draws the cells of the rest of a record, side by side.
fn draw_cells(
    alloc: Global,
    rest: RecordRest<'_, '_>,
    places: &[Segment],
    rows: Rect,
    buf: &mut Buffer,
) -> Mem<()>
    requires { 0 < rest.line → RowStarts rest.line places.now (cells_of rest.record.now) rest.starts.now }
    ensures ok { OnOk result (Painted (cells_layers rest.entry.line buf.old.area rows places.now (cells_of rest.entry.record.now)) buf.old buf.new) }
    ensures kept { KeptOutside (covers rows) buf.old buf.new }
{
    let RecordRest {
        record,
        line,
        starts,
    } = rest;
    let cells = record.cells.as_slice();
    'cells: for i in 0..places.len().min(cells.len()) {
        let place = places[i];
        let area = rows.columns_from(place.start, place.width);
        let from = resume_point(starts, line, i, places.len());
        let cell = CellRest {
            cell: cells[i],
            line,
        };
        let column = CellArea {
            width: place.width,
            area,
        };
        draw_rest(alloc, cell, from, column, buf)?;
    }
    Ok(())
}

/// The pieces of a page, and the records that they are pieces of. `starts` are those of the first piece and of the next
/// page.
#[derive(Clone, Copy)]
pub(crate) struct PagePieces<'a, 't> {
    pub(crate) pieces: &'a [Piece],
    pub(crate) starts: &'a [usize],
    pub(crate) records: &'a [Record<'t>],
}

/// Draws the pieces of a page, one below the other.
pub(crate) fn draw_pieces(
    alloc: Global,
    content: PagePieces<'_, '_>,
    places: &[Segment],
    page: Rect,
    buf: &mut Buffer,
) -> Mem<()>
    requires drawable { All (IsDrawable (length content.records.now)) content.pieces.now }
    requires fit { lines_on content.pieces.now + 3 ≤ page.height }
    requires starts { (p : Piece) → slice_get content.pieces.now 0 ≡ Some p → 0 < p.from
        → RowStarts p.from places.now (slice_index_or (map cells_of content.records.now) p.place []) content.starts.now }
    ensures ok { OnOk result (Painted
        (pieces_layers buf.old.area page places.now (map cells_of content.entry.records.now) 2 content.entry.pieces.now) buf.old buf.new) }
    ensures kept { KeptOutside (covers (rows_from page 2 (page.height - 2))) buf.old buf.new }
{
    let PagePieces {
        pieces,
        starts,
        records,
    } = content;
    let mut row = TOP;
    'pieces: for i in 0..pieces.len() {
        let piece = pieces[i];
        let size = (piece.to - piece.from) as u16;
        let rows = page.rows_from(row, size);
        let known = if i == 0 { starts } else { &starts[..0] };
        let rest = RecordRest {
            record: &records[piece.place],
            line: piece.from as u16,
            starts: known,
        };
        draw_cells(alloc, rest, places, rows, buf)?;
        row += size;
    }
    Ok(())
}
