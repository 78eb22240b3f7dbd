//! Where records continue from page to page.

ghost use Rattle.std.specs.Prelude.{
  ◌≡◌,
  ◌+◌,
  ◌-◌,
  ◌<◌,
  ◌≤◌,
  ◌*◌,
  ◌/◌,
  ◌%◌,
  ◌++◌,
  ℕ,
  List,
  drop,
  length,
  map,
  IfOk,
  OnOk,
  Some,
  slice_get,
  option_map,
};
ghost use Rattle.std.specs.Str.{IsCharBoundary};
ghost use Rattle.tui_pages_lib.specs.Report.{cells_of};
ghost use Rattle.tui_pages_lib.specs.Starts.{
  IsSliceFrom,
  ContinuesFrom,
  HaveRows,
  HaveStarts,
  IsKnownStart,
  IsLast,
  StartsAt,
  cell_at,
  continued_pieces,
};
ghost use Rattle.tui_pages_lib.specs.declared.piece.Piece.{Piece};

use crate::piece::Piece;
use crate::records::Record;
use std::alloc::Global;
use tui_cells::Mem;
use tui_layout::Segment;
use tui_line_places::{Lines, from_line};

/// The start for a cell without further lines. It is not a byte of any cell.
const NO_START: usize = usize::MAX;

/// Returns the byte at which the end `rest` of a cell starts.
fn byte_offset_in(cell: &str, rest: &str) -> usize
    requires { (front : List ℕ) × (cell.now ≡ front ++ rest.now) }
    ensures rest { drop result cell.now ≡ rest.now }
    ensures begins { IsCharBoundary cell.now result }
{
    cell.len() - rest.len()
}

/// Returns where a cell continues `lines` lines further on.
fn start_after_lines(cell: &str, start: usize, width: u16, lines: usize) -> usize
    ensures further { (line : ℕ) → ContinuesFrom width line cell.now start → ContinuesFrom width (line + lines) cell.now result }
    ensures begins { ContinuesFrom width 0 cell.now 0 }
{
    match cell.split_at_checked(start) {
        None => NO_START,
        Some((_, rest)) => match from_line(rest, Lines { width, trim: true }, lines) {
            None => NO_START,
            Some(left) => byte_offset_in(cell, left),
        },
    }
}

fn cell_at<'a>(records: &[Record<'a>], place: usize, i: usize) -> Option<&'a str>
    ensures { option_map (λ cell. cell.now) result ≡ cell_at (map cells_of records.now) place i }
{
    let entry = records.get(place)?;
    entry.cells.as_slice().get(i).copied()
}

/// Returns a byte and its line, from which a piece's cell can be reached. They are those of the piece before if that
/// shows the same record, otherwise the start of the cell.
fn known_start(
    piece: Piece,
    before: Option<Piece>,
    columns: usize,
    known: &[usize],
) -> (usize, usize)
    requires { 0 < columns }
    ensures line { result.1 ≤ piece.from }
    ensures place { IsKnownStart before columns known.now piece.place result.0 result.1 }
{
    if let Some(before) = before {
        let is_continued = before.place == piece.place && before.from <= piece.from;
        if is_continued && columns <= known.len() {
            return (known[known.len() - columns], before.from);
        }
    }
    (0, 0)
}

/// Returns where the next cell of a piece continues. The cells before it, and those of the pieces before, are known.
fn next_start(
    places: &[Segment],
    records: &[Record<'_>],
    piece: Piece,
    before: Option<Piece>,
    known: &[usize],
) -> usize
    requires { 0 < length places.now }
    ensures { (pieces : List Piece) → HaveStarts places.now (map cells_of records.now) pieces known.now
        → IsLast pieces (length known.now / length places.now) before
        → StartsAt places.now (map cells_of records.now) piece (length known.now % length places.now) result }
{
    let i = known.len() % places.len();
    let width = places[i].width;
    if width == 0 {
        return NO_START;
    }
    let Some(cell) = cell_at(records, piece.place, i) else {
        return NO_START;
    };
    let (start, line) = known_start(piece, before, places.len(), known);
    start_after_lines(cell, start, width, piece.from - line)
}

/// Adds where each cell of a piece continues, column by column, after what is known of the pieces before.
fn add_row(
    places: &[Segment],
    records: &[Record<'_>],
    piece: Piece,
    before: Option<Piece>,
    starts: &mut Vec<usize>,
) -> Mem<()>
    ensures { OnOk result ((pieces : List Piece) (count : ℕ) → slice_get (continued_pieces pieces) count ≡ Some piece
        → IsLast pieces count before → HaveRows places.now (map cells_of records.now) pieces count starts.old.items
        → HaveRows places.now (map cells_of records.now) pieces (count + 1) starts.new.items) }
{
    'columns: for _column in 0..places.len() {
        let start = next_start(places, records, piece, before, starts);
        starts.push(start)?;
    }
    Ok(())
}

/// Returns how many pieces continue a record. It has no clause, because it decides only how much memory is allocated at
/// once.
fn count_continued(pieces: &[Piece]) -> usize {
    pieces.iter().filter(|piece| piece.from > 0).count()
}

/// Returns where the cells continue, for each piece that continues a record, piece by piece and column by column.
pub(crate) fn starts(
    alloc: Global,
    places: &[Segment],
    records: &[Record<'_>],
    pieces: &[Piece],
) -> Mem<Vec<usize>>
    ensures { IfOk result (λ starts. HaveRows places.now (map cells_of records.now) pieces.now (length (continued_pieces pieces.now)) starts.items) }
{
    let count = places.len().saturating_mul(count_continued(pieces));
    let mut starts = Vec::with_capacity(alloc, count)?;
    let mut before = None;
    'pieces: for at in 0..pieces.len() {
        let piece = pieces[at];
        if piece.from == 0 {
            continue;
        }
        add_row(places, records, piece, before, &mut starts)?;
        before = Some(piece);
    }
    Ok(starts)
}

/// Returns how many pieces that continue a record are before this one, which has `before` pieces before it. These are
/// all pieces except the first one of each record up to its own.
fn row_of(piece: Piece, before: usize) -> usize
    ensures { 0 < piece.from → result ≡ before - (piece.place + 1) }
{
    let count = before.saturating_sub(piece.place);
    if piece.from > 0 {
        count.saturating_sub(1)
    } else {
        count
    }
}

/// Returns how many pieces continue a record up to this one, and with the next one if that shows the same record. It
/// has no clause, because it decides only how much of the record is read.
fn end_of(piece: Piece, before: usize, next: Option<&Piece>) -> usize {
    let count = before.saturating_sub(piece.place);
    match next {
        Some(next) if next.place == piece.place => count.saturating_add(1),
        _ => count,
    }
}

/// Returns the rows from one to the one before another, as far as they exist.
fn rows(starts: &[usize], from: usize, to: usize, columns: usize) -> &[usize]
    ensures { IsSliceFrom (from * columns) starts.now result.now }
{
    let first = from.saturating_mul(columns);
    let end = to.saturating_mul(columns).min(starts.len());
    if first < end {
        &starts[first..end]
    } else {
        &[]
    }
}

/// Returns where the cells of a piece continue, if it continues its record. `before` pieces are before it. If the next
/// piece continues the same record, its starts follow.
pub(crate) fn starts_from<'a>(
    starts: &'a [usize],
    pieces: &[Piece],
    before: usize,
    columns: usize,
) -> &'a [usize]
    ensures { (piece : Piece) → slice_get pieces.now before ≡ Some piece → 0 < piece.from
        → IsSliceFrom ((before - (piece.place + 1)) * columns) starts.now result.now }
{
    let Some(piece) = pieces.get(before).copied() else {
        return &[];
    };
    let next = pieces.get(before.saturating_add(1));
    let from = row_of(piece, before);
    let to = end_of(piece, before, next);
    rows(starts, from, to, columns)
}
