//! Counting the lines of records.

ghost use Rattle.std.specs.Prelude.{◌≡◌, ◌≤◌, All, IfOk, MatchOption, map, true};
ghost use Rattle.tui_para.specs.Hyphens.{at_blanks};
ghost use Rattle.tui_para.specs.Paragraph.{paragraph_data};
ghost use Rattle.tui_pages_lib.specs.Heights.{IsFirstTooTall, heights_of, cell_height, max_lines, record_height};
ghost use Rattle.tui_pages_lib.specs.Report.{cells_of};
ghost use Rattle.tui_pages_lib.specs.Strokes.{cell_from};
ghost use Rattle.tui_clusters.specs.Width.{saturated};

use crate::records::Record;
use std::alloc::Global;
use tui_cells::Mem;
use tui_layout::Segment;
use tui_para::{Paragraph, Wrap, text_wraps_exactly_once, wrapped_count};
use tui_text::Text;

/// The greatest number of lines that a record may have.
const MAX_LINES: usize = 4096;

/// Returns how cells are wrapped: spaces at which a line breaks are dropped.
fn cell_wrap() -> Wrap
    ensures { result ≡ at_blanks true }
{
    Wrap {
        trim: true,
        hyphens: false,
    }
}

/// Returns a wrapped cell from one of its lines on.
pub(crate) fn cell_paragraph<'a>(alloc: Global, cell: &'a str, line: u16) -> Mem<Paragraph<'a>>
    ensures { IfOk result (λ paragraph. paragraph_data paragraph ≡ cell_from line cell.now) }
{
    let text = Text::raw(alloc, cell)?;
    Ok(Paragraph::new(text).wrap(cell_wrap()).scroll((line, 0)))
}

/// Returns how many lines a cell has in a column of this width, at most the greatest 64-bit number.
fn cell_height(alloc: Global, width: u16, cell: &str) -> Mem<usize>
    ensures { IfOk result (λ count. count ≡ saturated (cell_height width cell.now)) }
{
    if width == 0 {
        return Ok(0);
    }
    text_wraps_exactly_once();
    let text = Text::raw(alloc, cell)?;
    Ok(wrapped_count(&text, width, cell_wrap()))
}

/// Returns how many lines a record has: as many as its tallest cell, and at least one. It is limited in the same way.
fn record_height(alloc: Global, places: &[Segment], entry: &Record<'_>) -> Mem<usize>
    ensures { IfOk result (λ height. height ≡ saturated (record_height places.now (cells_of entry.now))) }
{
    let cells = entry.cells.as_slice();
    let mut height = 1usize;
    'cells: for i in 0..places.len().min(cells.len()) {
        let count = cell_height(alloc, places[i].width, cells[i])?;
        height = height.max(count);
    }
    Ok(height)
}

/// Returns how many lines each record has, limited in the same way.
pub(crate) fn heights(alloc: Global, places: &[Segment], records: &[Record<'_>]) -> Mem<Vec<usize>>
    ensures { IfOk result (λ heights. heights.items ≡ map saturated (heights_of places.now (map cells_of records.now))) }
{
    let mut heights = Vec::with_capacity(alloc, records.len())?;
    'records: for i in 0..records.len() {
        heights.push(record_height(alloc, places, &records[i])?)?;
    }
    Ok(heights)
}

/// Returns the index of the first record that has too many lines.
pub(crate) fn first_too_tall(heights: &[usize]) -> Option<usize>
    ensures { MatchOption result (All (λ height. height ≤ max_lines) heights.now) (IsFirstTooTall heights.now) }
{
    'heights: for place in 0..heights.len() {
        if heights[place] > MAX_LINES {
            return Some(place);
        }
    }
    None
}
