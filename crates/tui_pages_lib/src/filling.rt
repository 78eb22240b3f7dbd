//! Pages that are being filled.

ghost use Rattle.std.specs.Prelude.{◌≡◌, ◌+◌, ◌<◌, ◌≤◌, ◌++◌, [], ◌∷◌, List, min, IfOk, OnOk};
ghost use Rattle.tui_pages_lib.specs.Filling.{empty_draft, cut, pages_by, with_piece};
ghost use Rattle.tui_pages_lib.specs.Pages.{size_of};

use crate::pages::Pages;
use crate::piece::Piece;
use std::alloc::Global;
use std::marker::Model;
use tui_cells::Mem;

/// Pages, of which the last one still takes pieces. `start` is the index of its first piece, `used` the number of its
/// lines.
#[derive(Drop)]
pub(crate) struct Filling {
    pieces: Vec<Piece>,
    ends: Vec<usize>,
    start: usize,
    used: usize,
}

impl Model for Filling {
    ghost use Rattle.std.specs.Prelude.{drop};
    ghost use Rattle.tui_pages_lib.specs.Filling.{Draft, IsDraft, pages_by_ends};

    ghost Value = { Draft };

    ghost view = { λ s. record { ended = pages_by_ends 0 s.ends.items s.pieces.items; current = drop s.start s.pieces.items } };

    ghost invariant = { λ s. IsDraft s.pieces.items s.ends.items s.start s.used };
}

impl Filling {
    /// Returns one page without pieces.
    pub(crate) fn new(alloc: Global) -> Filling
        ensures { result ≡ empty_draft }
    {
        Filling {
            pieces: Vec::new(alloc),
            ends: Vec::new(alloc),
            start: 0,
            used: 0,
        }
    }

    /// Cuts a record into pieces and adds them to the pages.
    pub(crate) fn add(&mut self, room: usize, place: usize, height: usize) -> Mem<()>
        requires { 0 < room }
        ensures { OnOk result ((rest : List Piece)
            → pages_by room self.new rest ≡ pages_by room self.old (cut room place height 0 height ++ rest)) }
    {
        let mut from = 0;
        'cutting: while from < height {
            let to = next_end(height, from, room);
            self.push_piece(room, Piece { place, from, to })?;
            from = to;
        }
        Ok(())
    }

    /// Adds a piece to the last page, or to a new page if it does not fit there.
    fn push_piece(&mut self, room: usize, piece: Piece) -> Mem<()>
        requires order { piece.from ≤ piece.to }
        requires small { size_of piece ≤ room }
        ensures { OnOk result (self.new ≡ with_piece room self.old piece) }
    {
        let size = piece.to - piece.from;
        if self.used <= room - size {
            self.pieces.push(piece)?;
            self.used += size;
        } else {
            self.end_page()?;
            self.pieces.push(piece)?;
            self.used = size;
        }
        Ok(())
    }

    fn end_page(&mut self) -> Mem<()>
        ensures { OnOk result (self.new ≡ record { ended = self.old.ended ++ self.old.current ∷ []; current = [] }) }
    {
        let count = self.pieces.len();
        self.ends.push(count)?;
        self.start = count;
        self.used = 0;
        Ok(())
    }

    /// Returns the pages. No more pieces can be added.
    pub(crate) fn finish(mut self) -> Mem<Pages>
        ensures { IfOk result (λ pages. pages ≡ self.ended ++ self.current ∷ []) }
    {
        self.end_page()?;
        let Filling { pieces, ends, .. } = self;
        Ok(Pages { pieces, ends })
    }
}

/// Returns the line after the last one of the piece that starts at line `from`.
fn next_end(height: usize, from: usize, room: usize) -> usize
    requires { from ≤ height }
    ensures { result ≡ min height (from + room) }
{
    if height - from <= room {
        height
    } else {
        from + room
    }
}
