//! What a pager stores of its entries.

ghost use Rattle.std.specs.Prelude.{◌≡◌, ◌-◌, IfOk, OnOk, length, map};
ghost use Rattle.tui_cells.specs.Buffer.{IsFilled};
ghost use Rattle.tui_cells.specs.Cell.{blank};
ghost use Rattle.tui_lists.specs.ListItem.{heights_of};
ghost use Rattle.tui_pager_lib.specs.Entry.{entry_data};
ghost use Rattle.tui_pager_lib.specs.Laws.{SelectsEntry};
ghost use Rattle.tui_pager_lib.specs.Lines.{HaveLineStarts};
ghost use Rattle.tui_pager_lib.specs.Pager.{PagerData};
ghost use Rattle.tui_pager_lib.specs.Screen.{IsDrawnOnBlank, body_of, page_area, pager_layers, title_item};
ghost use Rattle.tui_pager_lib.specs.Steps.{scrolled};

use crate::body::selected_body;
use crate::drawing::{BodyText, draw_bar, draw_body, draw_last_row, draw_titles};
use crate::entry::Entry;
use crate::size::PagerSize;
use crate::sized::SizedState;
use crate::state::PagerState;
use crate::steps::{max_line, scroll_to_selection};
use crate::title_list::{heights, title_items, titles_list};
use std::alloc::Global;
use std::marker::Model;
use tui_cells::{Buffer, Mem};
use tui_layout::Sums;
use tui_line_places::{Lines, line_offsets};
use tui_lists::List;

/// Entries, with the list of their titles and the prefix sums of the titles' heights. Both are built once.
pub(crate) struct Contents<'a> {
    entries: Vec<Entry<'a>>,
    heights: Sums,
    titles: List<'a>,
}

// Written by hand, so that dependent crates need no proofs about dropping the fields.
impl<'a> Drop for Contents<'a> {
    fn drop(self) {
        let Contents {
            entries,
            heights,
            titles,
        } = self;
    }
}

impl<'a> Model for Contents<'a> {
    ghost use Rattle.std.specs.Prelude.{List, map};
    ghost use Rattle.tui_lists.specs.List.{list_data};
    ghost use Rattle.tui_pager_lib.specs.Entry.{EntryData, entry_data};
    ghost use Rattle.tui_pager_lib.specs.Contents.{IsContents};

    ghost Value = { List EntryData };

    ghost view = { λ c. map entry_data c.entries.items };

    ghost invariant = { λ c. IsContents (map entry_data c.entries.items) c.heights (list_data c.titles) };
}

impl<'a> Contents<'a> {
    /// Returns the contents for these entries. Fails with `NoMemory` if the list of titles can't be allocated.
    pub(crate) fn new(alloc: Global, entries: Vec<Entry<'a>>) -> Mem<Contents<'a>>
        ensures { IfOk result (λ contents. contents ≡ map entry_data entries.entry.items) }
    {
        let items = title_items(alloc, &entries)?;
        let heights = heights(alloc, &items)?;
        let titles = titles_list(alloc, items)?;
        Ok(Contents {
            entries,
            heights,
            titles,
        })
    }

    /// Returns the number of entries.
    pub(crate) fn len(&self) -> usize
        ensures { result ≡ length self.now }
    {
        self.entries.len()
    }

    /// Returns the body of the selected entry, or an empty one if none is selected.
    fn body(&self, selected: Option<usize>) -> &'a str
        requires { SelectsEntry (length self.now) selected }
        ensures { result.now ≡ body_of self.now selected }
    {
        selected_body(&self.entries, selected)
    }

    /// Returns the byte offsets at which the lines of the selected body start on a screen of this size, none if no
    /// entry is selected. Fails with `NoMemory` if they can't be allocated.
    pub(crate) fn line_starts(
        &self,
        alloc: Global,
        size: PagerSize,
        selected: Option<usize>,
    ) -> Mem<Vec<usize>>
        requires { SelectsEntry (length self.now) selected }
        ensures { IfOk result (λ line_starts. HaveLineStarts self.now size.width selected line_starts.items) }
    {
        let body = self.body(selected);
        match selected {
            None => Ok(Vec::new(alloc)),
            Some(_) => {
                let lines = Lines {
                    width: size.width - size.width / 3 - 2,
                    trim: true,
                };
                line_offsets(alloc, body, lines)
            }
        }
    }

    /// Returns the state with the offset that the list of titles scrolls to.
    pub(crate) fn scroll_to_selection(&self, rows: u16, state: PagerState) -> PagerState
        ensures { result ≡ scrolled (heights_of (map title_item self.now)) rows state }
    {
        scroll_to_selection(*self.entries.allocator(), &self.heights, rows, state)
    }

    /// Draws the screen of a state on a blank screen of its size. `line_starts` are the offsets at which the lines of the
    /// selected body start.
    pub(crate) fn draw(
        &self,
        alloc: Global,
        sized: SizedState,
        line_starts: &[usize],
        screen: &mut Buffer,
    ) -> Mem<()>
        requires place { SelectsEntry (length self.now) sized.state.selected }
        requires line_starts { HaveLineStarts self.now sized.size.width sized.state.selected line_starts.now }
        requires page { IsFilled (page_area sized.size.width sized.size.height) blank screen.old }
        ensures drawn { OnOk result (IsDrawnOnBlank
            (pager_layers (record { width = sized.size.width; height = sized.size.height; entries = self.now; state = sized.state }))
            (page_area sized.size.width sized.size.height) screen.new) }
        ensures area { screen.new.area ≡ screen.old.area }
    {
        let SizedState { size, state } = sized;
        draw_titles(alloc, &self.titles, size, state, screen)?;
        let body = self.body(state.selected);
        let text = BodyText {
            text: body,
            line_starts,
        };
        draw_body(alloc, text, state.line, size, screen)?;
        let most = max_line(line_starts.len(), size.height - 3);
        draw_bar(alloc, most, state.line, size, screen)?;
        draw_last_row(alloc, state.selected, self.len(), size, screen)?;
        // The contract of `height` provides the shape of the rows.
        let _height = screen.height();
        Ok(())
    }
}
