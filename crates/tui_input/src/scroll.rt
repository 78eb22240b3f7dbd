//! The first grapheme that is shown.

ghost use Rattle.std.specs.Option.{option_copied};
ghost use Rattle.std.specs.Prelude.{◌≡◌, ◌-◌, drop, length, map, max, min, take, true, unwrap_or};
ghost use Rattle.tui_clusters.specs.Width.{saturated, width_of};
ghost use Rattle.tui_input.specs.Scroll.{columns, highest, lowest, shown, with_first, start_in};
ghost use Rattle.tui_input.specs.Scroll.{IsScrolled, scrolled};
ghost use Rattle.unicode_segmentation.specs.Grapheme.{graphemes};
ghost use Rattle.unicode_segmentation.specs.Iter.{graphemes_left};

use crate::state::InputState;
use tui_clusters::cell_width;
use unicode_segmentation::{Graphemes, UnicodeSegmentation};

/// Returns a grapheme as it is shown: the mask, or the grapheme itself.
pub(crate) fn masked<'a>(mask: Option<&'a str>, grapheme: &'a str) -> &'a str
    ensures { result.now ≡ unwrap_or (option_copied mask.entry) grapheme.now }
{
    match mask {
        Some(symbol) => symbol,
        None => grapheme,
    }
}

/// Returns the columns of a grapheme as it is shown.
fn masked_width(mask: Option<&str>, grapheme: &str) -> u16
    ensures { result ≡ width_of (unwrap_or (option_copied mask.entry) grapheme.now) }
{
    cell_width(masked(mask, grapheme))
}

/// Returns the columns of a text's first grapheme as it is shown, but at least one.
fn first_columns(mask: Option<&str>, text: &str) -> u16
    ensures { result ≡ max (columns (take 1 (shown (option_copied mask.entry) text.now))) 1 }
{
    match text.graphemes(true).next() {
        Some(first) => masked_width(mask, first).max(1),
        None => 1,
    }
}

fn count(text: &str) -> usize
    ensures { result ≡ length (graphemes true text.now) }
{
    text.graphemes(true).count()
}

/// Returns the first index from which on the graphemes of a text fit in `room` columns.
fn start_in(mask: Option<&str>, room: u16, text: &str) -> usize
    ensures { result ≡ start_in room (shown (option_copied mask.entry) text.now) }
{
    let mut start = count(text);
    let mut left = text.graphemes(true);
    let mut free = room;
    while let Some(grapheme) = left.next_back() {
        let width = masked_width(mask, grapheme);
        if width > free {
            return start;
        }
        free -= width;
        start -= 1;
    }
    start
}

/// Returns the graphemes of a text from the one at index `first` on.
pub(crate) fn graphemes_from(text: &str, first: usize) -> Graphemes<'_>
    ensures { graphemes_left result ≡ drop first (graphemes true text.now) }
{
    let mut left = text.graphemes(true);
    for _place in 0..first {
        skip_one(&mut left);
    }
    left
}

fn skip_one(left: &mut Graphemes<'_>)
    ensures { graphemes_left left.new ≡ drop 1 (graphemes_left left.old) }
{
    match left.next() {
        Some(_) => (),
        None => (),
    }
}

/// Returns the columns of all graphemes together, saturating at 2^64 - 1.
pub(crate) fn columns(mask: Option<&str>, graphemes: Graphemes<'_>) -> usize
    ensures { result ≡ saturated (columns (map (unwrap_or (option_copied mask.entry)) (graphemes_left graphemes.entry))) }
{
    let mut width = 0usize;
    for grapheme in graphemes {
        width = width.saturating_add(usize::from(masked_width(mask, grapheme)));
    }
    width
}

impl InputState {
    fn lowest_first(&self, mask: Option<&str>, width: u16) -> usize
        ensures { result ≡ lowest (option_copied mask.entry) width self.now }
    {
        let (before, after) = self.sides();
        let room = width.saturating_sub(first_columns(mask, after));
        start_in(mask, room, before)
    }

    fn highest_first(&self, mask: Option<&str>, width: u16) -> usize
        ensures { result ≡ highest (option_copied mask.entry) width self.now }
    {
        let (before, after) = self.sides();
        let following = columns(mask, after.graphemes(true));
        if following < usize::from(width) {
            start_in(mask, width - 1 - following as u16, before)
        } else {
            count(before)
        }
    }

    /// Returns the index of the first grapheme that a drawing in `width` columns shows.
    pub(crate) fn first_in(&self, mask: Option<&str>, width: u16) -> usize
        ensures is { with_first self.now result ≡ scrolled (option_copied mask.entry) width self.now }
        ensures moves { IsScrolled (option_copied mask.entry) width self.now (with_first self.now result) }
    {
        let lowest = self.lowest_first(mask, width);
        let highest = self.highest_first(mask, width);
        self.first().max(lowest).min(highest)
    }
}
