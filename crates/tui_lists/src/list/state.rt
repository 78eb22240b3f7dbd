//! What a list keeps from one drawing to the next.

ghost use Rattle.std.specs.Prelude.{◌≡◌, Some};
ghost use Rattle.std.specs.Option.{option_map_or};
ghost use Rattle.std.specs.Borrow.{sem};
ghost use Rattle.tui_layout.specs.Selection.{back_by, forward_by, greatest, next_of, previous_of};
ghost use Rattle.tui_lists.specs.ListState.{BorrowsOffset, BorrowsSelected, default_state};

use tui_layout::selection::{back_by, forward_by, next_of, previous_of};

/// The first item that is shown, and the selected item if there is one. Both are indices from 0. An index past the last
/// item counts as the last item when the list is drawn.
#[derive(Clone, Copy, Debug, PartialEq, Eq, Hash)]
pub struct ListState {
    pub(crate) offset: usize,
    pub(crate) selected: Option<usize>,
}

impl Default for ListState {
    /// Offset 0, with no selection.
    fn default() -> ListState
        ensures { result ≡ default_state }
    {
        ListState {
            offset: 0,
            selected: None,
        }
    }
}

impl ListState {
    /// Sets the first item that is shown.
    pub fn with_offset(self, offset: usize) -> ListState
        ensures { result ≡ record self { offset = offset } }
    {
        ListState { offset, ..self }
    }

    /// Sets the selected item. The offset is unchanged.
    pub fn with_selected(self, selected: Option<usize>) -> ListState
        ensures { result ≡ record self { selected = selected } }
    {
        ListState { selected, ..self }
    }

    /// Returns the index of the first item that is shown.
    pub fn offset(&self) -> usize
        ensures { result ≡ self.now.offset }
    {
        self.offset
    }

    /// Returns a mutable reference to the index of the first item that is shown.
    pub fn offset_mut(&mut self) -> &mut usize
        ensures value { result.now ≡ self.old.offset }
        ensures* writes_back { sem 𝓛 (BorrowsOffset self.entry result) }
    {
        &mut self.offset
    }

    /// Returns the index of the selected item, or `None` exactly if none is selected.
    pub fn selected(&self) -> Option<usize>
        ensures { result ≡ self.now.selected }
    {
        self.selected
    }

    /// Returns a mutable reference to the selection.
    pub fn selected_mut(&mut self) -> &mut Option<usize>
        ensures value { result.now ≡ self.old.selected }
        ensures* writes_back { sem 𝓛 (BorrowsSelected self.entry result) }
    {
        &mut self.selected
    }

    /// Selects an item, or none. Selecting none also sets the offset to 0.
    pub fn select(&mut self, index: Option<usize>)
        ensures selected { self.new.selected ≡ index }
        ensures offset { self.new.offset ≡ option_map_or (λ _. self.old.offset) index 0 }
    {
        self.selected = index;
        if index.is_none() {
            self.offset = 0;
        }
    }

    /// Selects the next item, or the first if none is selected. The greatest index, `usize::MAX`, stays selected.
    pub fn select_next(&mut self)
        ensures { self.new ≡ record self.old { selected = Some (next_of self.old.selected) } }
    {
        self.selected = Some(next_of(self.selected));
    }

    /// Selects the item before. If none is selected, selects `usize::MAX`, which a drawing limits to the last item. The
    /// first item stays selected.
    pub fn select_previous(&mut self)
        ensures { self.new ≡ record self.old { selected = Some (previous_of self.old.selected) } }
    {
        self.selected = Some(previous_of(self.selected));
    }

    /// Selects the first item.
    pub fn select_first(&mut self)
        ensures { self.new ≡ record self.old { selected = Some 0 } }
    {
        self.selected = Some(0);
    }

    /// Selects `usize::MAX`, which a drawing limits to the last item.
    pub fn select_last(&mut self)
        ensures { self.new ≡ record self.old { selected = Some greatest } }
    {
        self.selected = Some(usize::MAX);
    }

    /// Selects the item `amount` places further down, counted from the first if none is selected. Stops at
    /// `usize::MAX`.
    pub fn scroll_down_by(&mut self, amount: u16)
        ensures { self.new ≡ record self.old { selected = Some (forward_by self.old.selected amount) } }
    {
        self.selected = Some(forward_by(self.selected, amount));
    }

    /// Selects the item `amount` places further up, counted from the first if none is selected. Stops at the first.
    pub fn scroll_up_by(&mut self, amount: u16)
        ensures { self.new ≡ record self.old { selected = Some (back_by self.old.selected amount) } }
    {
        self.selected = Some(back_by(self.selected, amount));
    }
}
