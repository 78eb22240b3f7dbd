//! The visible part of a scrolled list.

ghost use Rattle.std.specs.Prelude.{◌≡◌, ◌-◌, ◌<◌, ◌≤◌, length, min};
ghost use Rattle.tui_layout.specs.Window.{IsEnd, IsWindow, IsFirstForSelected};
ghost use Rattle.tui_layout.specs.Found.{window_of};
ghost use Rattle.tui_layout.specs.BinarySearch.{IsProbeBound};

use crate::binary_search::{end_from, fits, nearest_start, widest_padding};
use crate::steps::Steps;
use crate::sums::Sums;
use std::alloc::Global;
use std::marker::Brand;
use std::sync::ledger::{Blank, Ledger};

/// The items that a scrolled list shows, by their indices.
#[derive(Clone, Copy, Debug, PartialEq, Eq)]
pub struct Window {
    /// The first item.
    pub first: usize,
    /// The item after the last one, or `first` itself if that item is taller than the list.
    pub end: usize,
}

/// Returns the window of a list with these item heights over `height` rows. It begins at `offset`, or at the nearest
/// item from which the selected one is visible with as many items of the `padding` around it as fit. An offset or a
/// selection past the end counts as the last item. A selected item that is taller than the list comes first. Each sum
/// that is looked up counts one step: for n items at most 1 + 3d, where 2 to the power d is at most 2n. Does not
/// allocate, and can't create another counter.
pub fn scroll_window<L: Ledger>(
    sums: &Sums,
    height: u64,
    offset: usize,
    selected: Option<usize>,
    padding: usize,
    steps: &mut Steps<L>,
) -> Window
    ensures window { IsWindow sums.now height offset selected padding result }
    ensures probes { 0 < length sums.now → IsProbeBound (length sums.now) steps.old steps.new }
    ensures none { length sums.now ≡ 0 → steps.new ≡ steps.old }
{
    let count = sums.len();
    if count == 0 {
        return Window { first: 0, end: 0 };
    }
    let old = offset.min(count - 1);
    match selected {
        None => {
            let end = end_from(sums, height, old, steps);
            Window { first: old, end }
        }
        Some(selected) => selected_window(sums, height, old, selected, padding, steps),
    }
}

/// Returns the window of a list with these item heights over `height` rows, as `scroll_window` does, but without
/// reporting its steps. Does not allocate.
pub fn window_of(
    alloc: Global,
    sums: &Sums,
    height: u64,
    offset: usize,
    selected: Option<usize>,
    padding: usize,
) -> Window
    ensures window { IsWindow sums.now height offset selected padding result }
    ensures found { result ≡ window_of sums.now height offset selected padding }
    ensures order { (result.first ≤ result.end) × (result.end ≤ length sums.now) }
    ensures first { 0 < length sums.now → result.first < length sums.now }
{
    window_with::<Brand>(
        alloc,
        Blank::new(1),
        sums,
        height,
        offset,
        selected,
        padding,
    )
}

fn window_with<L: Ledger>(
    alloc: Global,
    blank: Blank,
    sums: &Sums,
    height: u64,
    offset: usize,
    selected: Option<usize>,
    padding: usize,
) -> Window
    requires name { blank.name ≡ L.name }
    requires parts { blank.parts ≡ L.parts }
    requires some { 0 < L.parts }
    ensures { IsWindow sums.now height offset selected padding result }
{
    let mut steps: Steps<L> = Steps::new(alloc, blank);
    scroll_window(sums, height, offset, selected, padding, &mut steps)
}

/// Returns the window of at least one item if one is selected.
fn selected_window<L: Ledger>(
    sums: &Sums,
    height: u64,
    old: usize,
    selected: usize,
    requested: usize,
    steps: &mut Steps<L>,
) -> Window
    requires some { 0 < length sums.now }
    ensures first { IsFirstForSelected sums.now height old (min selected (length sums.now - 1)) requested result.first }
    ensures ends { IsEnd sums.now height result.first result.end }
    ensures probes { IsProbeBound (length sums.now) steps.old steps.new }
{
    let place = selected.min(sums.len() - 1);
    if !fits(sums, height, place, place + 1, steps) {
        let end = end_from(sums, height, place, steps);
        return Window { first: place, end };
    }
    let padding = widest_padding(sums, height, place, requested, steps);
    let first = nearest_start(sums, height, place, padding, old, steps);
    let end = end_from(sums, height, first, steps);
    Window { first, end }
}
