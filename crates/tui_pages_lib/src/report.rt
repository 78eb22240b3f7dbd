//! Reports.

ghost use Rattle.std.specs.Prelude.{◌≡◌, ◌↔◌, ◌⊎◌, ◌-◌, ◌<◌, ◌≤◌, ℕ, List, Err, IfOk, OnOk, All, length, map, slice_get, Some};
ghost use Rattle.tui_cells.specs.Layers.{KeptOutside, Painted};
ghost use Rattle.tui_cells.specs.Rect.{covers};
ghost use Rattle.tui_pages_lib.specs.Heights.{IsFirstTooTall, heights_of, max_lines};
ghost use Rattle.tui_pages_lib.specs.Pages.{ArePages, KeepWhole};
ghost use Rattle.tui_pages_lib.specs.Report.{cells_of, column_data, places_of, report_heights, report_of};
ghost use Rattle.tui_pages_lib.specs.Strokes.{body_area, body_layers, head_area, head_layers, page_area, page_layers};
ghost use Rattle.tui_pages_lib.specs.declared.piece.Piece.{Piece};

use crate::column::Column;
use crate::drawing::{PagePieces, draw_names, draw_number, draw_pieces, draw_text};
use crate::measuring::{first_too_tall, heights};
use crate::pages::Pages;
use crate::piece::Piece;
use crate::records::Record;
use crate::report_error::ReportError;
use crate::starts::{starts, starts_from};
use std::alloc::Global;
use std::marker::Model;
use tui_cells::{Buffer, Mem, Rect};
use tui_layout::{Constraint, Flex, Segment, split};

/// Records of texts in columns, cut into pages of one size. Each page has the title in its first row and the names of
/// the columns in the second. Its number is at the right of the last row. The rows between show as many lines of the
/// records as there is room for.
pub struct Report<'a> {
    width: u16,
    height: u16,
    title: &'a str,
    columns: Vec<Column<'a>>,
    places: Vec<Segment>,
    records: Vec<Record<'a>>,
    pages: Pages,
    // For each piece that continues a record of the page before: the bytes from which its cells continue, column by
    // column.
    starts: Vec<usize>,
}

// Written by hand, so that dependent crates need no proofs about dropping the fields.
impl<'a> Drop for Report<'a> {
    fn drop(self) {
        let Report {
            width,
            height,
            title,
            columns,
            places,
            records,
            pages,
            starts,
        } = self;
    }
}

impl<'a> Model for Report<'a> {
    ghost use Rattle.std.specs.Prelude.{length, map};
    ghost use Rattle.tui_pages_lib.specs.Pages.{all_pieces};
    ghost use Rattle.tui_pages_lib.specs.Report.{IsReport, ReportData, column_data, cells_of};
    ghost use Rattle.tui_pages_lib.specs.Starts.{HaveRows, continued_pieces};

    ghost Value = { ReportData };

    ghost view = { λ r. record {
      width = r.width;
      height = r.height;
      title = r.title.now;
      columns = map column_data r.columns.items;
      records = map cells_of r.records.items;
      pages = r.pages;
    } };

    ghost invariant = { λ r. IsReport r.places.items r.width r.height (map column_data r.columns.items) (map cells_of r.records.items) r.pages
        × HaveRows r.places.items (map cells_of r.records.items) (all_pieces r.pages) (length (continued_pieces (all_pieces r.pages))) r.starts.items };
}

impl<'a> Report<'a> {
    /// Cuts these records into pages, each `width` columns wide and `height` rows high. A record has as many lines as
    /// its tallest cell, wrapped in its column, and at least one.
    ///
    /// Fails with `TooSmall` if and only if the width is 0 or the height below 4. Fails with `TooTall` if and only if a
    /// record has more than 4096 lines, with the index of the first such record. Fails with `NoMemory` if the lines of
    /// the texts or the pages can't be allocated.
    pub fn new(
        alloc: Global,
        width: u16,
        height: u16,
        title: &'a str,
        columns: Vec<Column<'a>>,
        records: Vec<Record<'a>>,
    ) -> Result<Report<'a>, ReportError>
        ensures small { (result ≡ Err ReportError.TooSmall) ↔ (width ≡ 0) ⊎ (height < 4) }
        ensures tall { (place : ℕ) → result ≡ Err (ReportError.TooTall place)
            → IsFirstTooTall (heights_of (places_of width (map column_data columns.entry.items)) (map cells_of records.entry.items)) place }
        ensures bounded { IfOk result (λ report. All (λ lines. lines ≤ max_lines) (report_heights report)) }
        ensures ok { IfOk result (λ report. report
            ≡ report_of width height title.now (map column_data columns.entry.items) (map cells_of records.entry.items)) }
        ensures pages { IfOk result (λ report. ArePages (report_heights report) (height - 3) report.pages) }

        // If there are records and all fit, no pages that keep them whole are fewer.
        ensures fewest { IfOk result (λ report. 0 < length report.records → All (λ lines. lines ≤ height - 3) (report_heights report)
            → (others : List (List Piece)) → KeepWhole (report_heights report) (height - 3) others → length report.pages ≤ length others) }
    {
        if width == 0 || height < 4 {
            return Err(ReportError::TooSmall);
        }
        let places = places(alloc, width, &columns)?;
        let heights = heights(alloc, &places, &records)?;
        if let Some(place) = first_too_tall(&heights) {
            return Err(ReportError::TooTall { place });
        }
        let room = usize::from(height) - 3;
        let pages = Pages::new(alloc, &heights, room)?;
        let starts = starts(alloc, &places, &records, pages.pieces())?;
        Ok(Report {
            width,
            height,
            title,
            columns,
            places,
            records,
            pages,
            starts,
        })
    }

    /// Returns the number of pages.
    pub fn page_count(&self) -> usize
        ensures { result ≡ length self.now.pages }
    {
        self.pages.page_count()
    }

    /// Returns the pieces of records on a page, from the top. Pages count from 0.
    pub fn page(&self, at: usize) -> &[Piece]
        requires { at < length self.now.pages }
        ensures { slice_get self.now.pages at ≡ Some result.now }
    {
        self.pages.page(at)
    }

    /// Draws a page at the origin. It has the title, the names of the columns, and the pieces one below the other, each
    /// with its cells in their columns. At the right of the last row are the number of the page, from 1, and the number
    /// of pages. The argument `at` counts from 0. On `NoMemory` the buffer's area and all cells outside the page are
    /// unchanged.
    pub fn draw_page(&self, alloc: Global, at: usize, buf: &mut Buffer) -> Mem<()>
        requires { at < length self.now.pages }
        ensures ok { OnOk result (Painted (page_layers self.now at buf.old.area) buf.old buf.new) }
        ensures kept { KeptOutside (covers (page_area self.now)) buf.old buf.new }
    {
        self.draw_head(alloc, buf)?;
        self.draw_body(alloc, at, buf)
    }

    /// Draws what all pages have in common, in the first two rows: the title and the names of the columns. On
    /// `NoMemory` the buffer's area and all cells outside these rows are unchanged.
    pub fn draw_head(&self, alloc: Global, buf: &mut Buffer) -> Mem<()>
        ensures ok { OnOk result (Painted (head_layers self.now buf.old.area) buf.old buf.new) }
        ensures kept { KeptOutside (covers (head_area self.now)) buf.old buf.new }
    {
        let page = Rect::new(0, 0, self.width, self.height);
        draw_text(alloc, self.title, page.rows_from(0, 1), buf)?;
        let names = page.rows_from(1, 1);
        draw_names(alloc, &self.columns, &self.places, names, buf)
    }

    /// Draws the other rows of a page: its pieces and its number. Pages count from 0. On `NoMemory` the buffer's area
    /// and all cells outside these rows are unchanged.
    pub fn draw_body(&self, alloc: Global, at: usize, buf: &mut Buffer) -> Mem<()>
        requires { at < length self.now.pages }
        ensures ok { OnOk result (Painted (body_layers self.now at buf.old.area) buf.old buf.new) }
        ensures kept { KeptOutside (covers (body_area self.now)) buf.old buf.new }
    {
        let page = Rect::new(0, 0, self.width, self.height);
        let pieces = self.pages.page(at);
        let before = self.pages.pieces_before(at);
        let columns = self.places.len();
        let starts = starts_from(&self.starts, self.pages.pieces(), before, columns);
        let content = PagePieces {
            pieces,
            starts,
            records: &self.records,
        };
        draw_pieces(alloc, content, &self.places, page, buf)?;
        let last = page.rows_from(self.height - 1, 1);
        draw_number(alloc, at, self.pages.page_count(), last, buf)
    }
}

/// Returns where the columns are in the width.
fn places(alloc: Global, width: u16, columns: &[Column<'_>]) -> Mem<Vec<Segment>>
    ensures { IfOk result (λ places. places.items ≡ places_of width (map column_data columns.now)) }
{
    let sizes = sizes(alloc, columns)?;
    split(alloc, width, 1, &sizes, Flex::Start)
}

/// Returns the requested widths of the columns.
fn sizes(alloc: Global, columns: &[Column<'_>]) -> Mem<Vec<Constraint>>
    ensures { IfOk result (λ sizes. sizes.items ≡ map (λ c. c.size) (map column_data columns.now)) }
{
    let mut sizes = Vec::with_capacity(alloc, columns.len())?;
    'columns: for i in 0..columns.len() {
        sizes.push(columns[i].size)?;
    }
    Ok(sizes)
}
