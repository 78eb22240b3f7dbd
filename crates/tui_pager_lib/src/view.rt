//! A pager without its own screen.

ghost use Rattle.std.specs.Prelude.{◌≡◌, ◌≤◌, IfOk, OnErr, OnOk, map};
ghost use Rattle.tui_cells.specs.Buffer.{IsFilled};
ghost use Rattle.tui_cells.specs.Cell.{blank};
ghost use Rattle.tui_pager_lib.specs.PagerChange.{IsChange, changed};
ghost use Rattle.tui_pager_lib.specs.Entry.{entry_data};
ghost use Rattle.tui_pager_lib.specs.Laws.{IsSoundPager, ShowsSelected, after_call, initial_pager, press, resize};
ghost use Rattle.tui_pager_lib.specs.Screen.{IsDrawnOnBlank, page_area, pager_layers};

use crate::change::PagerChange;
use crate::contents::Contents;
use crate::drawing::{clear_page, page_of};
use crate::entry::Entry;
use crate::key::Key;
use crate::shown::{ViewState, initial_state};
use crate::size::PagerSize;
use crate::sized::SizedState;
use crate::state::PagerState;
use std::alloc::Global;
use std::marker::Model;
use tui_cells::{Buffer, Mem, Rect};

/// A `Pager` without its screens, for callers that have a blank buffer to draw into. Handling a key and changing the
/// size draw nothing.
pub struct PagerView<'a> {
    alloc: Global,
    contents: Contents<'a>,
    shown: ViewState,
}

// Written by hand, so that dependent crates need no proofs about dropping the fields.
impl<'a> Drop for PagerView<'a> {
    fn drop(self) {
        let PagerView {
            alloc,
            contents,
            shown,
        } = self;
    }
}

impl<'a> Model for PagerView<'a> {
    ghost use Rattle.tui_pager_lib.specs.Pager.{PagerData};
    ghost use Rattle.tui_pager_lib.specs.ViewState.{IsUpToDate, pager_data};

    ghost Value = { PagerData };

    ghost view = { λ v. pager_data v.contents v.shown };

    ghost invariant = { λ v. IsUpToDate v.contents v.shown };
}

impl<'a> PagerView<'a> {
    /// Returns a view of these entries in a size. The first entry is selected, if there is one, and its body is shown
    /// from the first line on. Fails with `NoMemory` if the titles and the lines of the selected body can't be
    /// allocated.
    pub fn with_size(alloc: Global, size: PagerSize, entries: Vec<Entry<'a>>) -> Mem<PagerView<'a>>
        ensures { IfOk result (λ view. view ≡ initial_pager (map entry_data entries.entry.items) size.width size.height) }
    {
        let contents = Contents::new(alloc, entries)?;
        let shown = initial_state(alloc, &contents, size)?;
        Ok(PagerView {
            alloc,
            contents,
            shown,
        })
    }

    /// Handles a key. On `NoMemory` the state is unchanged.
    pub fn key(&mut self, key: Key) -> Mem<()>
        ensures ok { OnOk result (self.new ≡ after_call self.old (press key)) }
        ensures err { OnErr result (self.new ≡ self.old) }
    {
        let change = self.after_key(key)?;
        self.take(change);
        Ok(())
    }

    /// Changes the size. The entry stays selected. If the body would be shown past its end, it is scrolled to the end.
    /// On `NoMemory` the size and the state are unchanged.
    pub fn set_size(&mut self, size: PagerSize) -> Mem<()>
        ensures ok { OnOk result (self.new ≡ after_call self.old (resize size.width size.height)) }
        ensures err { OnErr result (self.new ≡ self.old) }
    {
        let change = self.after_resize(size)?;
        self.take(change);
        Ok(())
    }

    /// Returns the selected entry and what is shown of the list and of the body. The list draws the entries from the
    /// offset on. The selected one is among them if its title has at most as many lines as the list has rows.
    pub fn state(&self) -> PagerState
        ensures is { result ≡ self.now.state }
        ensures sound { IsSoundPager self.now }
        ensures visible { ShowsSelected self.now }
    {
        self.shown.state
    }

    /// Returns the columns and rows of the view.
    pub fn size(&self) -> PagerSize
        ensures width { result.width ≡ self.now.width }
        ensures height { result.height ≡ self.now.height }
    {
        self.shown.size
    }

    /// Returns the area of the buffer that the view is drawn into: its columns and rows, at the origin.
    pub fn area(&self) -> Rect
        ensures is { result ≡ page_area self.now.width self.now.height }
        ensures within { (self.now.width ≤ 65535) × (self.now.height ≤ 65535) }
    {
        page_of(self.shown.size)
    }

    /// Draws into a blank buffer of its area, at the origin. Each cell is then the blank one under the strokes of the
    /// list, the body, its scrollbar and the last row. On `NoMemory` some of them may be drawn. The buffer keeps its
    /// area.
    pub fn draw(&self, alloc: Global, buf: &mut Buffer) -> Mem<()>
        requires { IsFilled (page_area self.now.width self.now.height) blank buf.old }
        ensures drawn { OnOk result (IsDrawnOnBlank (pager_layers self.now) (page_area self.now.width self.now.height) buf.new) }
        ensures area { buf.new.area ≡ buf.old.area }
    {
        let shown = &self.shown;
        let sized = SizedState {
            size: shown.size,
            state: shown.state,
        };
        self.contents.draw(alloc, sized, &shown.line_starts, buf)
    }

    /// Returns what a key changes.
    pub(crate) fn after_key(&self, key: Key) -> Mem<PagerChange>
        ensures change { IfOk result (IsChange self.now) }
        ensures is { IfOk result (λ change. changed self.now change ≡ after_call self.now (press key)) }
    {
        self.shown.after_key(self.alloc, &self.contents, key)
    }

    /// Returns what another size changes.
    pub(crate) fn after_resize(&self, size: PagerSize) -> Mem<PagerChange>
        ensures change { IfOk result (IsChange self.now) }
        ensures is { IfOk result (λ change. changed self.now change ≡ after_call self.now (resize size.width size.height)) }
    {
        self.shown.after_resize(self.alloc, &self.contents, size)
    }

    /// Draws the screen after a change, whatever the buffer held before.
    pub(crate) fn draw_change(&self, change: &PagerChange, screen: &mut Buffer) -> Mem<()>
        requires { IsChange self.now change.now }
        ensures { OnOk result (IsDrawnOnBlank (pager_layers (changed self.now change.now))
            (page_area change.now.size.width change.now.size.height) screen.new) }
    {
        clear_page(self.alloc, change.size, screen)?;
        self.shown.draw(self.alloc, &self.contents, change, screen)
    }

    /// Applies a change.
    pub(crate) fn take(&mut self, change: PagerChange)
        requires { IsChange self.old change }
        ensures { self.new ≡ changed self.old change }
    {
        self.shown.take(change);
    }
}
