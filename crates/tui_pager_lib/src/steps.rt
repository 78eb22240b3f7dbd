//! One step of a pager.

ghost use Rattle.std.specs.Prelude.{◌≡◌, ◌<◌, ◌≤◌, length};
ghost use Rattle.tui_pager_lib.specs.Steps.{line_by, max_line_in, moved_by, selected_by, scrolled};

use crate::key::Key;
use crate::state::PagerState;
use std::alloc::Global;
use tui_cells::FARTHEST_EDGE;
use tui_layout::{Sums, window_of};

/// Returns the greatest line that a body of `lines` lines may start with.
pub(crate) fn max_line(lines: usize, rows: u16) -> u16
    ensures { result ≡ max_line_in rows lines }
{
    lines
        .saturating_sub(usize::from(rows))
        .min(FARTHEST_EDGE as usize) as u16
}

/// Returns the state after a key, before the list scrolls. `most` is the greatest line that the selected body may start
/// with.
pub(crate) fn moved(rows: u16, count: usize, most: u16, key: Key, state: PagerState) -> PagerState
    requires { state.line ≤ most }
    ensures { result ≡ moved_by rows count most key state }
{
    let Some(place) = state.selected else {
        return state;
    };
    let next = moved_selection(rows, count, key, place);
    PagerState {
        selected: Some(next),
        offset: state.offset,
        line: if next == place {
            moved_line(most, key, state.line)
        } else {
            0
        },
    }
}

fn moved_selection(rows: u16, count: usize, key: Key, place: usize) -> usize
    ensures { result ≡ selected_by rows count key place }
{
    let last = count.saturating_sub(1);
    match key {
        Key::Up => place.saturating_sub(1),
        Key::Down => place.saturating_add(1).min(last),
        Key::PageUp => place.saturating_sub(usize::from(rows)),
        Key::PageDown => place.saturating_add(usize::from(rows)).min(last),
        Key::First => 0,
        Key::Last => last,
        Key::LineUp | Key::LineDown | Key::BodyTop | Key::BodyEnd => place,
    }
}

fn moved_line(most: u16, key: Key, line: u16) -> u16
    ensures { result ≡ line_by most key line }
{
    match key {
        Key::LineUp => line.saturating_sub(1),
        Key::LineDown => line.saturating_add(1).min(most),
        Key::BodyTop => 0,
        Key::BodyEnd => most,
        Key::Up | Key::Down | Key::PageUp | Key::PageDown | Key::First | Key::Last => line,
    }
}

/// Sets the offset as a list does that keeps one entry visible on each side of the selection. Does not allocate.
pub(crate) fn scroll_to_selection(
    alloc: Global,
    titles: &Sums,
    rows: u16,
    state: PagerState,
) -> PagerState
    ensures { result ≡ scrolled titles.now rows state }
{
    let window = window_of(
        alloc,
        titles,
        u64::from(rows),
        state.offset,
        state.selected,
        1,
    );
    PagerState {
        offset: window.first,
        ..state
    }
}
