//! Binary searches over sums of heights.

ghost use Rattle.std.specs.Prelude.{ℕ, ◌≡◌, ◌+◌, ◌-◌, ◌<◌, ◌≤◌, ◌↔◌, IsTrue, min, length};
ghost use Rattle.tui_layout.specs.Sums.{total};
ghost use Rattle.tui_layout.specs.Window.{FitsAround, IsEnd, IsNearest, IsPadding};
ghost use Rattle.tui_layout.specs.BinarySearch.{IsLowest, IsGreatestFit, IsProbe, IsSearchCost, sum_at};

use crate::steps::Steps;
use crate::sums::Sums;
use std::sync::ledger::Ledger;

/// Which items a number stands for. A greater number stands for more items.
#[derive(Clone, Copy)]
pub(crate) enum SearchRange {
    /// The items around this index, as many on each side as the number.
    Around(usize),
    /// The items from this index up to the number, exclusive.
    From(usize),
    /// The items from the first index minus the number up to the second index, exclusive.
    Back(usize, usize),
}

/// Whether the items from index `a` up to index `b`, exclusive, fit. Counts one step.
pub(crate) fn fits<L: Ledger>(
    sums: &Sums,
    height: u64,
    a: usize,
    b: usize,
    steps: &mut Steps<L>,
) -> bool
    requires order { a ≤ b }
    requires within { b ≤ length sums.now }
    ensures fits { IsTrue result ↔ (total sums.now a b ≤ height) }
    ensures step { steps.new ≡ steps.old + 1 }
{
    sums.window(a, b, steps) <= u128::from(height)
}

/// Returns the greatest padding, up to `requested`, with which item `s` fits.
pub(crate) fn widest_padding<L: Ledger>(
    sums: &Sums,
    height: u64,
    s: usize,
    requested: usize,
    steps: &mut Steps<L>,
) -> usize
    requires within { s < length sums.now }
    requires fits { total sums.now s (s + 1) ≤ height }
    ensures padding { IsPadding sums.now height s requested result }
    ensures cost { IsSearchCost (length sums.now) steps.old steps.new }
{
    let most = requested.min(sums.len());
    greatest(sums, height, SearchRange::Around(s), 0, most, steps)
}

/// Returns the first item to show: the one nearest to `old` from which item `s` is visible with its padding.
pub(crate) fn nearest_start<L: Ledger>(
    sums: &Sums,
    height: u64,
    s: usize,
    padding: usize,
    old: usize,
    steps: &mut Steps<L>,
) -> usize
    requires within { s < length sums.now }
    requires fits { FitsAround sums.now height s padding }
    ensures nearest { IsNearest sums.now height s padding old result }
    ensures cost { IsSearchCost (length sums.now) steps.old steps.new }
{
    let lowest = lowest_start(sums, height, s, padding, steps);
    lowest.max(old.min(s.saturating_sub(padding)))
}

/// Returns the end of the items from `first` on that fit.
pub(crate) fn end_from<L: Ledger>(
    sums: &Sums,
    height: u64,
    first: usize,
    steps: &mut Steps<L>,
) -> usize
    requires within { first < length sums.now }
    ensures end { IsEnd sums.now height first result }
    ensures cost { IsSearchCost (length sums.now) steps.old steps.new }
{
    greatest(
        sums,
        height,
        SearchRange::From(first),
        first,
        sums.len(),
        steps,
    )
}

fn lowest_start<L: Ledger>(
    sums: &Sums,
    height: u64,
    s: usize,
    padding: usize,
    steps: &mut Steps<L>,
) -> usize
    requires within { s < length sums.now }
    requires fits { FitsAround sums.now height s padding }
    ensures lowest { IsLowest sums.now height s padding result }
    ensures cost { IsSearchCost (length sums.now) steps.old steps.new }
{
    let end = end_around(sums.len(), s, padding);
    let latest = s.saturating_sub(padding);
    let back = greatest(
        sums,
        height,
        SearchRange::Back(latest, end),
        0,
        latest,
        steps,
    );
    latest - back
}

/// Returns the greatest number from `least` to `most` whose items fit.
fn greatest<L: Ledger>(
    sums: &Sums,
    height: u64,
    reach: SearchRange,
    least: usize,
    most: usize,
    steps: &mut Steps<L>,
) -> usize
    requires order { least ≤ most }
    requires some { 0 < length sums.now }
    requires width { most - least ≤ length sums.now }
    requires ready { (m : ℕ) → least ≤ m → m ≤ most → IsProbe sums.now reach m }
    requires start { sum_at sums.now reach least ≤ height }
    ensures most { IsGreatestFit sums.now reach height least most result }
    ensures cost { IsSearchCost (length sums.now) steps.old steps.new }
{
    let mut low = least;
    let mut high = most;
    'halving: while low < high {
        let middle = high - (high - low) / 2;
        if fits_at(sums, height, reach, middle, steps) {
            low = middle;
        } else {
            high = middle - 1;
        }
    }
    low
}

fn fits_at<L: Ledger>(
    sums: &Sums,
    height: u64,
    reach: SearchRange,
    m: usize,
    steps: &mut Steps<L>,
) -> bool
    requires { IsProbe sums.now reach m }
    ensures fits { IsTrue result ↔ (sum_at sums.now reach m ≤ height) }
    ensures step { steps.new ≡ steps.old + 1 }
{
    match reach {
        SearchRange::Around(s) => {
            let end = end_around(sums.len(), s, m);
            fits(sums, height, s.saturating_sub(m), end, steps)
        }
        SearchRange::From(first) => fits(sums, height, first, m, steps),
        SearchRange::Back(latest, end) => fits(sums, height, latest - m, end, steps),
    }
}

fn end_around(count: usize, s: usize, padding: usize) -> usize
    requires { s < count }
    ensures { result ≡ min count (s + padding + 1) }
{
    if padding < count - s {
        s + padding + 1
    } else {
        count
    }
}
