//! The items that a list owns, and their heights.

ghost use Rattle.std.specs.Prelude.{◌≡◌, map, length};
ghost use Rattle.std.specs.Cmp.{on_equiv, on_per};
ghost use Rattle.std.specs.Cmp.Lexicographic.{lists_equiv, lists_per, pointwise};
ghost use Rattle.std.specs.Hash as fed;
ghost use Rattle.std.specs.Hash.{items_Alike, on_Alike};
ghost use Rattle.tui_lists.specs.contracts.list.item.ListItemPartialEq.TheImpl.Laws.{laws-law as item-per};
ghost use Rattle.tui_lists.specs.contracts.list.item.ListItemEq.TheImpl.Laws.{laws-law as item-equiv};
ghost use Rattle.tui_lists.specs.contracts.list.item.ListItemHash.TheImpl.Laws.{respects_eq-law as item-hash};
ghost use Rattle.tui_lists.specs.ListItem.{heights_of, list_item_data};

use crate::list::item::ListItem;
use std::alloc::Global;
use std::fmt;
use std::hash::{Hash, Hasher};
use tui_cells::Mem;
use tui_layout::{Sums, Window, window_of};

/// Items with the sums of their heights. The sums are computed once and used by every drawing.
#[derive(Drop)]
pub(crate) struct Items<'a> {
    pub(crate) items: Vec<ListItem<'a>>,
    heights: Sums,
    ghost same: { heights ≡ heights_of (map list_item_data items.items) },
}

impl<'a> Items<'a> {
    ghost use Rattle.std.specs.Prelude.{ℕ, Option, ◌<◌, ◌≤◌, IfOk, true};
    ghost use Rattle.tui_layout.specs.Found.{window_of};
    ghost use Rattle.tui_lists.specs.Items.{items_data};

    /// Takes these items. Fails with `NoMemory` if there is no memory for the sums.
    pub(crate) fn new(alloc: Global, items: Vec<ListItem<'a>>) -> Mem<Items<'a>>
        ensures { IfOk result (λ made. made.items.items ≡ items.entry.items) }
    {
        let mut heights = Sums::with_capacity(alloc, items.len())?;
        for item in &items {
            heights.push(item.height() as u64)?;
        }
        Ok(Items { items, heights })
    }

    /// Returns the number of items.
    pub(crate) fn len(&self) -> usize
        ensures { result ≡ length (items_data self.now) }
    {
        self.items.len()
    }

    /// Returns the items that a list shows in `room` rows.
    pub(crate) fn window(
        &self,
        room: u16,
        offset: usize,
        selected: Option<usize>,
        padding: usize,
    ) -> Window
        ensures found { result ≡ window_of (heights_of (items_data self.now)) room offset selected padding }
        ensures order { (result.first ≤ result.end) × (result.end ≤ length (items_data self.now)) }
        ensures first { 0 < length (items_data self.now) → result.first < length (items_data self.now) }
    {
        window_of(
            *self.items.allocator(),
            &self.heights,
            u64::from(room),
            offset,
            selected,
            padding,
        )
    }

    /// Returns equal items. Fails with `NoMemory` if there is no memory for them or for the sums.
    pub(crate) fn clone(&self) -> Mem<Items<'a>>
        ensures is { IfOk result (λ copy. items_data copy ≡ items_data self.now) }
        ensures equal { IfOk result (λ copy. ⟦<Items<'a> as PartialEq>⟧.eq copy self.now ≡ true) }
    {
        let alloc = *self.items.allocator();
        let mut items = Vec::with_capacity(alloc, self.items.len())?;
        for item in &self.items {
            items.push(item.clone()?)?;
        }
        Items::new(alloc, items)
    }
}

// The sums follow from the items, so `PartialEq`, `Hash` and `Debug` leave them out.
impl<'a> PartialEq for Items<'a> {
    ghost eq = { λ i j. pointwise ⟦<ListItem<'a> as PartialEq>⟧.eq i.items.items j.items.items };

    ghost laws = { on_per (λ i. i.items.items) (lists_per item-per) };

    fn eq(&self, other: &Items<'a>) -> bool {
        self.items == other.items
    }
}

impl<'a> Eq for Items<'a> {
    ghost laws = { on_equiv (λ i. i.items.items) (lists_equiv item-equiv) };
}

impl<'a> Hash for Items<'a> {
    ghost hash_input = { λ i. fed.slice ⟦<ListItem<'a> as Hash>⟧.hash_input i.items.items };

    ghost respects_eq = { (on_Alike (λ i. i.items.items) (items_Alike (record { fed = item-hash }))).fed };

    fn hash<H: Hasher>(&self, state: &mut H) {
        self.items.hash(state);
    }
}

impl<'a> fmt::Debug for Items<'a> {
    fn fmt<W: fmt::Write>(&self, f: &mut fmt::Formatter<W>) -> fmt::Result {
        self.items.fmt(f)
    }
}
