//! The state of a pager's view, and the steps to the next one.

ghost use Rattle.std.specs.Prelude.{◌≡◌, ◌==◌, if◌then◌else◌, IfOk, None, OnOk, Some, length, true};
ghost use Rattle.tui_pager_lib.specs.PagerChange.{BringsLineStarts, IsChange, changed, line_starts_after};
ghost use Rattle.tui_pager_lib.specs.Laws.{SelectsEntry, after_call, initial_pager, press, resize};
ghost use Rattle.tui_pager_lib.specs.Screen.{IsDrawnOnBlank, body_lines, page_area, pager_layers, metrics_of};
ghost use Rattle.tui_pager_lib.specs.ViewState.{IsUpToDate, pager_data};
ghost use Rattle.tui_pager_lib.specs.Steps.{lines_at, pressed, resized};
ghost use Rattle.tui_cells.specs.Buffer.{IsFilled};
ghost use Rattle.tui_cells.specs.Cell.{blank};

use crate::change::PagerChange;
use crate::contents::Contents;
use crate::key::Key;
use crate::size::PagerSize;
use crate::sized::SizedState;
use crate::state::PagerState;
use crate::steps::{max_line, moved};
use std::alloc::Global;
use tui_cells::{Buffer, Mem};

/// The size, the state, and the byte offsets at which the lines of the selected body start.
#[derive(Drop)]
pub(crate) struct ViewState {
    pub(crate) size: PagerSize,
    pub(crate) state: PagerState,
    pub(crate) line_starts: Vec<usize>,
}

/// Returns the first of `count` entries, if there is one.
fn first_entry(count: usize) -> Option<usize>
    ensures { result ≡ (if count == 0 then None else Some 0) }
{
    if count == 0 { None } else { Some(0) }
}

/// Returns the view at the start.
pub(crate) fn initial_state(
    alloc: Global,
    contents: &Contents<'_>,
    size: PagerSize,
) -> Mem<ViewState>
    ensures up_to_date { IfOk result (IsUpToDate contents.now) }
    ensures is { IfOk result (λ shown. pager_data contents.now shown ≡ initial_pager contents.now size.width size.height) }
{
    let count = contents.len();
    let selected = first_entry(count);
    let first = PagerState {
        selected,
        offset: 0,
        line: 0,
    };
    let state = contents.scroll_to_selection(size.height - 3, first);
    let line_starts = contents.line_starts(alloc, size, state.selected)?;
    Ok(ViewState {
        size,
        state,
        line_starts,
    })
}

/// Returns a state on a screen of another size, if the selected body has `lines` lines there. If the body would be
/// shown past its end, it is scrolled to the end.
fn cut(contents: &Contents<'_>, size: PagerSize, lines: usize, state: PagerState) -> PagerState
    requires { lines ≡ lines_at (body_lines contents.now size.width) state.selected }
    ensures { result ≡ resized (metrics_of contents.now size.width size.height) state }
{
    let rows = size.height - 3;
    let most = max_line(lines, rows);
    let line = state.line.min(most);
    contents.scroll_to_selection(rows, PagerState { line, ..state })
}

impl ViewState {
    /// Returns what a key changes.
    pub(crate) fn after_key(
        &self,
        alloc: Global,
        contents: &Contents<'_>,
        key: Key,
    ) -> Mem<PagerChange>
        requires { IsUpToDate contents.now self.now }
        ensures change { IfOk result (IsChange (pager_data contents.now self.now)) }
        ensures is { IfOk result (λ change. changed (pager_data contents.now self.now) change
            ≡ after_call (pager_data contents.now self.now) (press key)) }
    {
        let state = self.pressed(contents, key);
        let line_starts = self.new_line_starts(alloc, contents, self.size, state.selected)?;
        Ok(PagerChange {
            size: self.size,
            state,
            line_starts,
        })
    }

    /// Returns what another size changes.
    pub(crate) fn after_resize(
        &self,
        alloc: Global,
        contents: &Contents<'_>,
        size: PagerSize,
    ) -> Mem<PagerChange>
        requires { IsUpToDate contents.now self.now }
        ensures change { IfOk result (IsChange (pager_data contents.now self.now)) }
        ensures is { IfOk result (λ change. changed (pager_data contents.now self.now) change
            ≡ after_call (pager_data contents.now self.now) (resize size.width size.height)) }
    {
        let line_starts = self.new_line_starts(alloc, contents, size, self.state.selected)?;
        let lines = self.line_starts_after(&line_starts).len();
        let state = cut(contents, size, lines, self.state);
        Ok(PagerChange {
            size,
            state,
            line_starts,
        })
    }

    /// Draws the screen after a change on a blank screen of its size.
    pub(crate) fn draw(
        &self,
        alloc: Global,
        contents: &Contents<'_>,
        change: &PagerChange,
        screen: &mut Buffer,
    ) -> Mem<()>
        requires up_to_date { IsUpToDate contents.now self.now }
        requires change { IsChange (pager_data contents.now self.now) change.now }
        requires page { IsFilled (page_area change.now.size.width change.now.size.height) blank screen.old }
        ensures { OnOk result (IsDrawnOnBlank (pager_layers (changed (pager_data contents.now self.now) change.now))
            (page_area change.now.size.width change.now.size.height) screen.new) }
    {
        let line_starts = self.line_starts_after(&change.line_starts);
        let sized = SizedState {
            size: change.size,
            state: change.state,
        };
        contents.draw(alloc, sized, line_starts, screen)
    }

    /// Applies a change.
    pub(crate) fn take(&mut self, change: PagerChange)
        ensures size { self.new.size ≡ change.size }
        ensures state { self.new.state ≡ change.state }
        ensures line_starts { self.new.line_starts.items ≡ line_starts_after self.old.line_starts.items change.line_starts }
    {
        let PagerChange {
            size,
            state,
            line_starts,
        } = change;
        self.size = size;
        self.state = state;
        if let Some(line_starts) = line_starts {
            self.line_starts = line_starts;
        }
    }

    /// Returns the state after a key.
    fn pressed(&self, contents: &Contents<'_>, key: Key) -> PagerState
        requires { IsUpToDate contents.now self.now }
        ensures is { result ≡ pressed (metrics_of contents.now self.now.size.width self.now.size.height) key self.now.state }
    {
        let rows = self.size.height - 3;
        let most = max_line(self.line_starts.len(), rows);
        let count = contents.len();
        let next = moved(rows, count, most, key, self.state);
        contents.scroll_to_selection(rows, next)
    }

    /// Returns the offsets at which the lines of the selected body start on a screen of a size. Returns `None` if the
    /// width and the selected entry don't change; the stored offsets then stay valid.
    fn new_line_starts(
        &self,
        alloc: Global,
        contents: &Contents<'_>,
        size: PagerSize,
        selected: Option<usize>,
    ) -> Mem<Option<Vec<usize>>>
        requires { SelectsEntry (length contents.now) selected }
        ensures { IfOk result (BringsLineStarts (pager_data contents.now self.now) size.width selected) }
    {
        if size.width == self.size.width && is_same(selected, self.state.selected) {
            return Ok(None);
        }
        Ok(Some(contents.line_starts(alloc, size, selected)?))
    }

    /// Returns the new offsets, or the stored ones if there are none.
    fn line_starts_after<'s>(&'s self, line_starts: &'s Option<Vec<usize>>) -> &'s [usize]
        ensures { result.now ≡ line_starts_after self.now.line_starts.items line_starts.now }
    {
        match line_starts {
            Some(line_starts) => line_starts,
            None => &self.line_starts,
        }
    }
}

fn is_same(a: Option<usize>, b: Option<usize>) -> bool
    ensures { result ≡ true → a ≡ b }
{
    match (a, b) {
        (None, None) => true,
        (Some(a), Some(b)) => a == b,
        (None, Some(_)) | (Some(_), None) => false,
    }
}
