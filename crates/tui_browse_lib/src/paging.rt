//! The app.

ghost use Rattle.std.specs.Prelude.{◌≡◌, IfOk, OnOk, map, replicate};
ghost use Rattle.tui_browse_lib.specs.PagerAction.{calls_for, flow_of, size_calls};
ghost use Rattle.tui_browse_lib.specs.Paging.{PagerDraws, initial_pager_for};
ghost use Rattle.tui_cells.specs.Buffer.{IsFilled};
ghost use Rattle.tui_cells.specs.Cell.{blank};
ghost use Rattle.tui_pager_lib.specs.Entry.{entry_data};
ghost use Rattle.tui_pager_lib.specs.Laws.{IsSoundPager, ShowsSelected, after_calls, press};

use crate::actions::{PagerAction, action_for};
use std::alloc::Global;
use tui_app::{App, Flow, draw_too_small};
use tui_cells::{Buffer, Mem, Position};
use tui_keys::Event;
use tui_pager_lib::{Entry, Key, PagerSize, PagerState, PagerView};

/// A pager driven by events. On a screen that is too small for a pager it draws `too small`. It keeps its selection and
/// its scroll positions, and shows them again when the screen is large enough.
#[derive(Drop)]
pub struct PagerApp<'a> {
    pager: PagerView<'a>,
}

impl<'a> PagerApp<'a> {
    /// Returns a pager of these entries for a screen of `width` columns and `height` rows, which may be too small for
    /// it. Fails with `NoMemory` if the pager can't be allocated.
    pub fn new(alloc: Global, width: u16, height: u16, entries: Vec<Entry<'a>>) -> Mem<PagerApp<'a>>
        ensures { IfOk result (λ app. app.pager ≡ initial_pager_for (map entry_data entries.entry.items) width height) }
    {
        let pager = first_pager(alloc, width, height, entries)?;
        Ok(PagerApp { pager })
    }

    /// Returns what is selected and where the list and the body are scrolled to. A size that is too small doesn't
    /// change it.
    pub fn state(&self) -> PagerState
        ensures is { result ≡ self.now.pager.state }
        ensures sound { IsSoundPager self.now.pager }
        ensures visible { ShowsSelected self.now.pager }
    {
        self.pager.state()
    }
}

/// Returns a pager of this size, or of the least size (12 columns and 5 rows) if it is too small.
fn first_pager<'a>(
    alloc: Global,
    width: u16,
    height: u16,
    entries: Vec<Entry<'a>>,
) -> Mem<PagerView<'a>>
    ensures { IfOk result (λ pager. pager ≡ initial_pager_for (map entry_data entries.entry.items) width height) }
{
    match PagerSize::new(width, height) {
        Some(size) => PagerView::with_size(alloc, size, entries),
        None => PagerView::with_size(
            alloc,
            PagerSize {
                width: 12,
                height: 5,
            },
            entries,
        ),
    }
}

impl<'a> App for PagerApp<'a> {
    ghost use Rattle.tui_browse_lib.specs.Paging.{paging};

    ghost behaviour = { paging };

    fn step(&mut self, _alloc: Global, event: Event) -> Mem<Flow> {
        let action = action_for(event);
        make_calls(&mut self.pager, action)?;
        Ok(flow_of(action))
    }

    fn draw(&mut self, alloc: Global, buf: &mut Buffer) -> Mem<Option<Position>> {
        draw_pager(alloc, &self.pager, buf)?;
        Ok(None)
    }
}

fn flow_of(action: PagerAction) -> Flow
    ensures { result ≡ flow_of action }
{
    match action {
        PagerAction::Quit => Flow::Quit,
        PagerAction::Redraw => Flow::Redraw,
        _ => Flow::Go,
    }
}

/// Makes the calls of the pager that an event asks for.
fn make_calls(pager: &mut PagerView<'_>, action: PagerAction) -> Mem<()>
    ensures { OnOk result (pager.new ≡ after_calls pager.old (calls_for action pager.old)) }
{
    match action {
        PagerAction::Press(key) => pager.key(key),
        PagerAction::PressPerRow(key) => {
            let rows = pager.size().height - 3;
            press_often(pager, key, rows)
        }
        PagerAction::Size(width, height) => set_size(pager, width, height),
        _ => Ok(()),
    }
}

fn press_often(pager: &mut PagerView<'_>, key: Key, count: u16) -> Mem<()>
    ensures { OnOk result (pager.new ≡ after_calls pager.old (replicate count (press key))) }
{
    'presses: for _i in 0..count {
        pager.key(key)?;
    }
    Ok(())
}

/// Takes a new size, unless it is too small for a pager.
fn set_size(pager: &mut PagerView<'_>, width: u16, height: u16) -> Mem<()>
    ensures { OnOk result (pager.new ≡ after_calls pager.old (size_calls width height)) }
{
    match PagerSize::new(width, height) {
        Some(size) => pager.set_size(size),
        None => Ok(()),
    }
}

/// Draws the pager if the blank buffer has the pager's area, and `too small` otherwise.
fn draw_pager(alloc: Global, pager: &PagerView<'_>, buf: &mut Buffer) -> Mem<()>
    requires { IsFilled buf.old.area blank buf.old }
    ensures draws { OnOk result (PagerDraws pager.now buf.new) }
    ensures area { OnOk result (buf.new.area ≡ buf.old.area) }
{
    if pager.area() == buf.area() {
        pager.draw(alloc, buf)
    } else {
        draw_too_small(buf)
    }
}
