//! The state of a browser: a folder, its rows, and which name is selected.

ghost use Rattle.std.specs.Option.{option_copied};
ghost use Rattle.std.specs.Prelude.{◌≡◌, ◌-◌, IfOk, OnOk, length, min, string_bytes};
ghost use Rattle.tui_files_lib.specs.Browsing.{
  IsBegun,
  Narrows,
  ShowsListing,
  action,
  row_after,
  selected_kind,
  selected_name,
  selected_place,
  selecting_in,
  without_filter,
};
ghost use Rattle.tui_files_lib.specs.Drawing.{selected_row};

use crate::actions::{BrowserAction, ListMotion, browsed, typing};
use crate::folders::{EntryKind, Listing, Name};
use crate::naming::without_controls;
use crate::rows::{NameFilter, NameRow, place_of, row_at, rows_of};
use std::alloc::Global;
use tui_cells::Mem;
use tui_input::InputState;
use tui_keys::Event;
use tui_lists::ListState;

/// The most characters of the filter: the most bytes that a file name may have.
const MOST_TYPED: usize = 255;

/// A folder, the rows of the names that pass the filter, and what is shown beside and below them.
#[derive(Drop)]
pub(crate) struct Browser {
    pub(crate) folder: String,
    /// The folder's path, as displayed.
    pub(crate) title: String,
    pub(crate) listing: Listing,
    /// Whether names that begin with a dot are listed too.
    pub(crate) hidden: bool,
    /// The filter: the names that contain this text are listed.
    pub(crate) filter_text: InputState,
    /// Whether the filter is being typed.
    pub(crate) is_typing: bool,
    pub(crate) rows: Vec<NameRow>,
    pub(crate) state: ListState,
    /// How many rows Page Up and Page Down move.
    pub(crate) page: usize,
    /// The beginning of the selected file, as displayed.
    pub(crate) head: String,
    /// The message about the folder that could not be read last; empty if there is none.
    pub(crate) notice: String,
}

impl Browser {
    /// Returns a browser of a folder with these names.
    pub(crate) fn new(alloc: Global, folder: String, listing: Listing) -> Mem<Browser>
        ensures { IfOk result (IsBegun listing (string_bytes folder)) }
    {
        let mut browser = Browser {
            folder: String::new(alloc),
            title: String::new(alloc),
            listing: Listing {
                names: Vec::new(alloc),
                omitted: 0,
                not_utf8: 0,
            },
            hidden: false,
            filter_text: InputState::new(alloc, MOST_TYPED),
            is_typing: false,
            rows: Vec::new(alloc),
            state: ListState::default(),
            page: 1,
            head: String::new(alloc),
            notice: String::new(alloc),
        };
        browser.show(alloc, folder, listing, None)?;
        Ok(browser)
    }

    /// Shows another folder. Selects the given name if it is listed, and the first one otherwise.
    pub(crate) fn show(
        &mut self,
        alloc: Global,
        folder: String,
        mut listing: Listing,
        name: Option<&str>,
    ) -> Mem<()>
        ensures { OnOk result (ShowsListing listing (string_bytes folder) (option_copied name.entry) self.old self.new) }
    {
        listing.names.sort_unstable();
        self.title = without_controls(alloc, folder.as_str())?;
        self.folder = folder;
        self.listing = listing;
        self.drop_filter(alloc);
        let place = place_of(&self.listing.names, name);
        self.narrow(alloc, place)
    }

    /// Clears the filter.
    pub(crate) fn drop_filter(&mut self, alloc: Global)
        ensures { self.new ≡ without_filter self.old }
    {
        self.is_typing = false;
        self.filter_text = InputState::new(alloc, MOST_TYPED);
    }

    /// Lists the names again, and selects the name at index `place` if it is listed, and the first one otherwise.
    pub(crate) fn narrow(&mut self, alloc: Global, place: usize) -> Mem<()>
        ensures { OnOk result (Narrows place self.old self.new) }
    {
        let name_filter = NameFilter {
            hidden: self.hidden,
            filter_text: self.filter_text.text(),
        };
        self.rows = rows_of(alloc, &self.listing.names, name_filter)?;
        self.state = ListState::default();
        let row = row_at(&self.rows, place);
        self.select(row);
        Ok(())
    }

    /// Selects a row, at most the last one; none if there are no rows.
    pub(crate) fn select(&mut self, row: usize)
        ensures { self.new ≡ record self.old { state = selecting_in (length self.old.rows.items) row self.old.state } }
    {
        self.state = selecting_in(self.rows.len(), row, self.state);
    }

    /// Returns the selected row, from 0; 0 if none is selected.
    pub(crate) fn row(&self) -> usize
        ensures { result ≡ selected_row self.now.state }
    {
        self.state.selected().unwrap_or(0)
    }

    /// Returns the row that a key selects, at most the last one.
    pub(crate) fn row_after(&self, motion: ListMotion) -> usize
        ensures { result ≡ min (row_after motion self.now) (length self.now.rows.items - 1) }
    {
        let row = self.row();
        let last = self.rows.len().saturating_sub(1);
        match motion {
            ListMotion::Down => row.saturating_add(1).min(last),
            ListMotion::Up => row.saturating_sub(1).min(last),
            ListMotion::PageDown => row.saturating_add(self.page).min(last),
            ListMotion::PageUp => row.saturating_sub(self.page).min(last),
            ListMotion::First => 0,
            ListMotion::Last => last,
        }
    }

    /// Returns the index of the selected name in the listing.
    pub(crate) fn place(&self) -> usize
        ensures { result ≡ selected_place self.now }
    {
        match self.rows.get(self.row()) {
            Some(row) => row.place,
            None => 0,
        }
    }

    /// Returns the selected name.
    pub(crate) fn selected(&self) -> Option<&Name>
        ensures { option_copied result ≡ selected_name self.now }
    {
        match self.rows.get(self.row()) {
            Some(row) => self.listing.names.get(row.place),
            None => None,
        }
    }

    /// Returns what the selected name leads to.
    pub(crate) fn kind(&self) -> Option<EntryKind>
        ensures { result ≡ selected_kind self.now }
    {
        match self.selected() {
            Some(name) => Some(name.kind),
            None => None,
        }
    }

    /// Returns what an event asks for that the filter does not use.
    pub(crate) fn action_for(&self, event: Event) -> BrowserAction
        ensures { result ≡ action self.now event }
    {
        if self.is_typing {
            typing(event)
        } else {
            browsed(self.kind(), event)
        }
    }
}

/// Returns a list's state with one of `rows` rows selected, at most the last one; none if there are no rows.
fn selecting_in(rows: usize, row: usize, state: ListState) -> ListState
    ensures { result ≡ selecting_in rows row state }
{
    if rows == 0 {
        ListState::default()
    } else {
        state.with_selected(Some(row.min(rows - 1)))
    }
}
