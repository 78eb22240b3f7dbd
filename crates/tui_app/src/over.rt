//! Running an app over given reads without a terminal, for tests.

ghost use Rattle.std.specs.Prelude.{◌≡◌, ◌++◌, ◌∷◌, [], IfOk, IfSome, map};
ghost use Rattle.tui_app.specs.EventLoop.{IsFirstState, area_after};
ghost use Rattle.tui_app.specs.Over.{IsSized, IteratesOver, RunsOver, state_at};
ghost use Rattle.tui_app.specs.Trace.{IsRead};
ghost use Rattle.tui_cells.specs.Rect.{area_of};

use crate::app::{App, Flow};
use crate::feed::feed;
use crate::shown::{blank, draw};
use crate::terminal::READ_CAPACITY;
use std::alloc::Global;
use std::mem;
use tui_cells::{Buffer, Mem, Position, Size};
use tui_keys::KeyDecoder;

/// The state of the key decoder, the size, the screen that was drawn last, and the position at which the
/// cursor is shown.
#[derive(Drop)]
pub(crate) struct LastDrawn {
    pub(crate) keys: KeyDecoder,
    pub(crate) size: Size,
    pub(crate) shown: Buffer,
    pub(crate) place: Option<Position>,
}

/// Returns the screens that an app draws in a session whose terminal gives these reads: the first one, and
/// one for each read, up to the one that quits. A read has from 1 to `READ_CAPACITY` bytes; any other one ends
/// the session. Nothing is sent, so a test of an app needs no terminal.
pub fn run_over<A: App>(alloc: Global, app: &mut A, size: Size, reads: &[&[u8]]) -> Mem<Vec<Buffer>>
    ensures { IfOk result (λ screens. RunsOver A.behaviour app.old (area_of 0 0 size.width size.height) (map (λ bytes. bytes.now) reads.now)
        screens.items app.new) }
{
    let mut last = draw_first(alloc, app, size)?;
    let mut screens = Vec::new(alloc);
    'reads: for i in 0..reads.len() {
        match iterate(alloc, app, &mut last, reads[i])? {
            None => return with_last(screens, last),
            Some(screen) => screens.push(screen)?,
        }
    }
    with_last(screens, last)
}

fn draw_first<A: App>(alloc: Global, app: &mut A, size: Size) -> Mem<LastDrawn>
    ensures first { IfOk result (λ last. IsFirstState A.behaviour app.old (area_of 0 0 size.width size.height) (state_at app.new last)) }
    ensures sized { IfOk result IsSized }
{
    let mut shown = blank(alloc, size)?;
    let place = draw(alloc, app, &mut shown)?;
    Ok(LastDrawn {
        keys: KeyDecoder::new(),
        size,
        shown,
        place,
    })
}

// Handles the bytes of a read, and draws. Returns the screen before, or `None` at the end of the session.
fn iterate<A: App>(
    alloc: Global,
    app: &mut A,
    last: &mut LastDrawn,
    bytes: &[u8],
) -> Mem<Option<Buffer>>
    requires { IsSized last.old }
    ensures event_loop { IfOk result (IteratesOver A.behaviour (state_at app.old last.old) bytes.now (state_at app.new last.new)) }
    ensures sized { IfOk result (λ screen. IfSome screen (λ _. IsSized last.new)) }
{
    if bytes.is_empty() || bytes.len() > READ_CAPACITY {
        return Ok(None);
    }
    take_read(alloc, app, last, bytes)
}

fn take_read<A: App>(
    alloc: Global,
    app: &mut A,
    last: &mut LastDrawn,
    bytes: &[u8],
) -> Mem<Option<Buffer>>
    requires sized { IsSized last.old }
    requires read { IsRead bytes.now }
    ensures event_loop { IfOk result (IteratesOver A.behaviour (state_at app.old last.old) bytes.now (state_at app.new last.new)) }
    ensures sized { IfOk result (λ screen. IfSome screen (λ _. IsSized last.new)) }
{
    let reading = feed(alloc, app, last.keys, bytes)?;
    match reading.reaction.flow {
        Flow::Quit => Ok(None),
        _ => {
            last.keys = reading.keys;
            let screen = draw_new(
                alloc,
                app,
                last,
                size_after(last.size, reading.reaction.size),
            )?;
            Ok(Some(screen))
        }
    }
}

fn size_after(size: Size, observed: Option<Size>) -> Size
    ensures { area_of 0 0 result.width result.height ≡ area_after (area_of 0 0 size.width size.height) observed }
{
    match observed {
        None => size,
        Some(observed) => observed,
    }
}

// Draws into a new buffer, and returns the one before.
fn draw_new<A: App>(alloc: Global, app: &mut A, last: &mut LastDrawn, size: Size) -> Mem<Buffer>
    ensures before { IfOk result (λ screen. screen ≡ last.old.shown) }
    ensures draws { IfOk result (λ _. A.behaviour.draws app.old last.new.shown last.new.place app.new) }
    ensures area { IfOk result (λ _. last.new.shown.area ≡ area_of 0 0 size.width size.height) }
    ensures sized { IfOk result (λ _. IsSized last.new) }
    ensures keys { last.new.keys ≡ last.old.keys }
{
    let mut shown = blank(alloc, size)?;
    last.place = draw(alloc, app, &mut shown)?;
    last.size = size;
    Ok(mem::replace(&mut last.shown, shown))
}

fn with_last(mut screens: Vec<Buffer>, last: LastDrawn) -> Mem<Vec<Buffer>>
    ensures { IfOk result (λ all. all.items ≡ screens.items ++ last.shown ∷ []) }
{
    screens.push(last.shown)?;
    Ok(screens)
}
