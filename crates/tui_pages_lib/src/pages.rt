//! The pages of records.

ghost use Rattle.std.specs.Prelude.{◌≡◌, ◌<◌, ◌≤◌, ◌∷◌, List, length, slice_get, slice_index, slice_range, Some, All, IfOk};
ghost use Rattle.tui_pages_lib.specs.Filling.{pages_of};
ghost use Rattle.tui_pages_lib.specs.Pages.{ArePages, KeepWhole, all_pieces};
ghost use Rattle.tui_pages_lib.specs.Starts.{pieces_before};
ghost use Rattle.tui_pages_lib.specs.declared.piece.Piece.{Piece};

use crate::filling::Filling;
use crate::piece::Piece;
use std::alloc::Global;
use std::marker::Model;
use tui_cells::Mem;

/// Pages that show the lines of records, in order. A record that fits on a page is kept whole.
#[derive(Drop)]
pub struct Pages {
    // The pieces of all pages, and for each page the index of its end among them.
    pub(crate) pieces: Vec<Piece>,
    pub(crate) ends: Vec<usize>,
}

impl Model for Pages {
    ghost use Rattle.std.specs.Prelude.{List, length};
    ghost use Rattle.tui_pages_lib.specs.Filling.{AreEndsUpTo, pages_by_ends};
    ghost use Rattle.tui_pages_lib.specs.declared.piece.Piece.{Piece};

    ghost Value = { List (List Piece) };

    ghost view = { λ s. pages_by_ends 0 s.ends.items s.pieces.items };

    ghost invariant = { λ s. AreEndsUpTo 0 s.ends.items (length s.pieces.items) };
}

impl Pages {
    /// Cuts records of these heights, each at least 1, into pages of `room` lines, at least 1. Without records there is
    /// one page without pieces. Fails with `NoMemory` if the pieces can't be allocated.
    pub fn new(alloc: Global, heights: &[usize], room: usize) -> Mem<Pages>
        requires room { 0 < room }
        requires heights { All (λ height. 0 < height) heights.now }
        ensures pages { IfOk result (λ pages. ArePages heights.now room pages) }

        // If no record is taller than a page, no pages that keep the records whole are fewer.
        ensures fewest { 0 < length heights.now → All (λ height. height ≤ room) heights.now
            → IfOk result (λ pages. (others : List (List Piece)) → KeepWhole heights.now room others
            → length pages ≤ length others) }
    {
        let pages = filled(alloc, heights, room)?;
        Ok(pages)
    }

    /// Returns the number of pages.
    pub fn page_count(&self) -> usize
        ensures { result ≡ length self.now }
    {
        self.ends.len()
    }

    /// Returns the pieces of a page, in order. Pages count from 0.
    pub fn page(&self, at: usize) -> &[Piece]
        requires { at < length self.now }
        ensures { slice_get self.now at ≡ Some result.now }
    {
        let start = start_of(&self.ends, at);
        let end = self.ends[at];
        part(&self.pieces, start, end)
    }

    /// Returns the pieces of all pages, one after another.
    pub(crate) fn pieces(&self) -> &[Piece]
        ensures { result.now ≡ all_pieces self.now }
    {
        &self.pieces
    }

    /// Returns how many pieces are before a page.
    pub(crate) fn pieces_before(&self, at: usize) -> usize
        requires { at < length self.now }
        ensures { result ≡ pieces_before self.now at }
    {
        start_of(&self.ends, at)
    }
}

fn part(pieces: &[Piece], start: usize, end: usize) -> &[Piece]
    requires order { start ≤ end }
    requires inside { end ≤ length pieces.now }
    ensures { result.now ≡ slice_range pieces.now start end }
{
    &pieces[start..end]
}

/// Returns the index at which part `at` starts, if the parts end at these indices.
fn start_of(ends: &[usize], at: usize) -> usize
    requires { at < length ends.now }
    ensures { result ≡ slice_index (0 ∷ ends.now) at }
{
    if at == 0 { 0 } else { ends[at - 1] }
}

/// Returns the pages, filled with the pieces of one record after another.
fn filled(alloc: Global, heights: &[usize], room: usize) -> Mem<Pages>
    requires room { 0 < room }
    ensures { IfOk result (λ pages. pages ≡ pages_of heights.now room) }
{
    let mut filling = Filling::new(alloc);
    'filling: for place in 0..heights.len() {
        filling.add(room, place, heights[place])?;
    }
    filling.finish()
}
