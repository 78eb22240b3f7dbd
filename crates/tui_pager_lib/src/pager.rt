//! Pagers.

ghost use Rattle.std.specs.Prelude.{◌≡◌, ◌↔◌, ◌⊎◌, ◌<◌, Err, IfOk, OnErr, OnOk, map};
ghost use Rattle.tui_pager_lib.specs.PagerChange.{IsChange, changed};
ghost use Rattle.tui_pager_lib.specs.Entry.{entry_data};
ghost use Rattle.tui_pager_lib.specs.Laws.{IsSoundPager, ShowsSelected, after_call, initial_pager, press, resize};
ghost use Rattle.tui_pager_lib.specs.Screen.{IsDrawnOnBlank, page_area, pager_layers};

use crate::change::PagerChange;
use crate::drawing::page_of;
use crate::entry::Entry;
use crate::key::Key;
use crate::pager_error::PagerError;
use crate::size::PagerSize;
use crate::state::PagerState;
use crate::view::PagerView;
use std::alloc::Global;
use std::marker::Model;
use std::mem;
use tui_cells::{Buffer, Mem, Rect};

/// Entries on a screen. At the left is the list of their titles, of which one is selected. At the right is its body,
/// wrapped to the available width, with a scrollbar. The last row has the position of the selected entry and the number
/// of entries. Keys move the selection and the body. The list scrolls only as far as needed to show the selected title
/// and one title on each side of it.
///
/// A pager has two screens: the one that is shown, and a spare one on whose cells the next one is drawn. The first key,
/// and the first key after a new size, allocate the spare screen.
pub struct Pager<'a> {
    view: PagerView<'a>,
    screen: Buffer,
    spare: Buffer,
}

// Written by hand, so that dependent crates need no proofs about dropping the fields.
impl<'a> Drop for Pager<'a> {
    fn drop(self) {
        let Pager {
            view,
            screen,
            spare,
        } = self;
    }
}

impl<'a> Model for Pager<'a> {
    ghost use Rattle.tui_pager_lib.specs.Pager.{PagerData};
    ghost use Rattle.tui_pager_lib.specs.Screen.{IsDrawnOnBlank, page_area, pager_layers};

    ghost Value = { PagerData };

    ghost view = { λ p. p.view };

    ghost invariant = { λ p. IsDrawnOnBlank (pager_layers p.view) (page_area p.view.width p.view.height) p.screen };
}

impl<'a> Pager<'a> {
    /// Returns a pager of these entries on a screen of `width` columns and `height` rows. The first entry is selected,
    /// if there is one, and its body is shown from the first line on.
    ///
    /// Fails with `TooSmall` if and only if the width is below 12 or the height below 5. Fails with `NoMemory` if the
    /// titles, the lines of the selected body or the screen can't be allocated.
    pub fn new(
        alloc: Global,
        width: u16,
        height: u16,
        entries: Vec<Entry<'a>>,
    ) -> Result<Pager<'a>, PagerError>
        ensures small { (result ≡ Err PagerError.TooSmall) ↔ (width < 12) ⊎ (height < 5) }
        ensures ok { IfOk result (λ pager. pager ≡ initial_pager (map entry_data entries.entry.items) width height) }
    {
        match PagerSize::new(width, height) {
            Some(size) => Ok(Pager::with_size(alloc, size, entries)?),
            None => Err(PagerError::TooSmall),
        }
    }

    /// Returns the same pager on a screen of a size that is large enough. Fails with `NoMemory` as `new` does.
    pub fn with_size(alloc: Global, size: PagerSize, entries: Vec<Entry<'a>>) -> Mem<Pager<'a>>
        ensures { IfOk result (λ pager. pager ≡ initial_pager (map entry_data entries.entry.items) size.width size.height) }
    {
        let view = PagerView::with_size(alloc, size, entries)?;
        let mut screen = Buffer::empty(alloc, page_of(size))?;
        view.draw(alloc, &mut screen)?;
        let spare = Buffer::empty(alloc, Rect::ZERO)?;
        Ok(Pager {
            view,
            screen,
            spare,
        })
    }

    /// Handles a key. On `NoMemory` the state and the screen are unchanged.
    pub fn key(&mut self, key: Key) -> Mem<()>
        ensures ok { OnOk result (self.new ≡ after_call self.old (press key)) }
        ensures err { OnErr result (self.new ≡ self.old) }
    {
        let change = self.view.after_key(key)?;
        self.show(change)
    }

    /// Changes the size. The entry stays selected. If the body would be shown past its end, it is scrolled to the end.
    /// Fails with `TooSmall` if and only if the width is below 12 or the height below 5. On each error the size, the
    /// state and the screen are unchanged.
    pub fn resize(&mut self, width: u16, height: u16) -> Result<(), PagerError>
        ensures small { (result ≡ Err PagerError.TooSmall) ↔ (width < 12) ⊎ (height < 5) }
        ensures ok { OnOk result (self.new ≡ after_call self.old (resize width height)) }
        ensures err { OnErr result (self.new ≡ self.old) }
    {
        match PagerSize::new(width, height) {
            Some(size) => Ok(self.set_size(size)?),
            None => Err(PagerError::TooSmall),
        }
    }

    /// Changes the size, as `resize` does. On `NoMemory` the size, the state and the screen are unchanged.
    pub fn set_size(&mut self, size: PagerSize) -> Mem<()>
        ensures ok { OnOk result (self.new ≡ after_call self.old (resize size.width size.height)) }
        ensures err { OnErr result (self.new ≡ self.old) }
    {
        let change = self.view.after_resize(size)?;
        self.show(change)
    }

    /// Returns the selected entry and what is shown of the list and of the body. The list draws the entries from the
    /// offset on. The selected one is among them if its title has at most as many lines as the list has rows.
    pub fn state(&self) -> PagerState
        ensures is { result ≡ self.now.state }
        ensures sound { IsSoundPager self.now }
        ensures visible { ShowsSelected self.now }
    {
        self.view.state()
    }

    /// Returns the screen, at the origin. Each cell is the blank one under the strokes of the list, the body, its
    /// scrollbar and the last row.
    pub fn screen(&self) -> &Buffer
        ensures { IsDrawnOnBlank (pager_layers self.now) (page_area self.now.width self.now.height) result.now }
    {
        &self.screen
    }

    /// Applies a change and draws the screen after it. On `NoMemory` the size, the state and the screen are unchanged.
    fn show(&mut self, change: PagerChange) -> Mem<()>
        requires { IsChange self.old change }
        ensures ok { OnOk result (self.new ≡ changed self.old change) }
        ensures err { OnErr result (self.new ≡ self.old) }
    {
        self.view.draw_change(&change, &mut self.spare)?;
        self.view.take(change);
        mem::swap(&mut self.screen, &mut self.spare);
        Ok(())
    }
}
