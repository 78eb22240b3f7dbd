//! Drawing a screen, and sending it.

ghost use Rattle.std.specs.Prelude.{◌≡◌, IfOk, None, OnOk};
ghost use Rattle.tui_app.specs.Parts.{IsNextDrawn, IsNextShown, Sent};
ghost use Rattle.tui_app.specs.Session.{cursor_for, is_in_full};
ghost use Rattle.tui_cells.specs.Rect.{area_of};
ghost use Rattle.tui_terminal_model.specs.Shows.{IsCursorInside};

use crate::app::{App, Flow};
use crate::buffers::LoopBuffers;
use crate::feed::Reaction;
use crate::setup::LoopSetup;
use std::alloc::Global;
use std::mem;
use tui_cells::{Buffer, Mem, Position, Rect, Size};
use tui_io::{Sink, WriteFault};
use tui_terminal::{write_changes, write_full};
use tui_terminal_model::{Cursor, Output};

/// Clears the buffer, and draws into it.
pub(crate) fn draw<A: App>(alloc: Global, app: &mut A, buf: &mut Buffer) -> Mem<Option<Position>>
    ensures draws { IfOk result (λ place. A.behaviour.draws app.old buf.new place app.new) }
    ensures area { OnOk result (buf.new.area ≡ buf.old.area) }
{
    buf.reset(buf.area());
    app.draw(alloc, buf)
}

/// Creates a blank buffer of a size.
pub(crate) fn blank(alloc: Global, size: Size) -> Mem<Buffer>
    ensures { IfOk result (λ b. b.area ≡ area_of 0 0 size.width size.height) }
{
    Buffer::empty(
        alloc,
        Rect {
            x: 0,
            y: 0,
            width: size.width,
            height: size.height,
        },
    )
}

/// Draws, and sends the screen: the changes, or all of it if a size was reported or the app asked for it.
pub(crate) fn show<A: App, K: Sink>(
    setup: LoopSetup,
    app: &mut A,
    buffers: &mut LoopBuffers,
    reaction: Reaction,
    sink: &mut K,
) -> Mem<Result<(), WriteFault>>
    requires { buffers.old.shown.area ≡ buffers.old.spare.area }
    ensures { IsNextShown A.behaviour setup.output reaction app.old buffers.old app.new buffers.new (K.observed sink.old) (K.observed sink.new) result }
{
    draw_next(setup.alloc, app, buffers, reaction.size)?;
    Ok(send(setup.output, buffers, is_in_full(reaction), sink))
}

fn is_in_full(reaction: Reaction) -> bool
    ensures { result ≡ is_in_full reaction.flow reaction.size }
{
    match (reaction.flow, reaction.size) {
        (Flow::Go, None) => false,
        _ => true,
    }
}

fn draw_next<A: App>(
    alloc: Global,
    app: &mut A,
    buffers: &mut LoopBuffers,
    size: Option<Size>,
) -> Mem<()>
    requires { buffers.old.shown.area ≡ buffers.old.spare.area }
    ensures { OnOk result (IsNextDrawn A.behaviour size app.old buffers.old app.new buffers.new) }
{
    match size {
        None => draw_again(alloc, app, buffers),
        Some(size) => draw_at(alloc, app, buffers, size),
    }
}

// Draws into the spare buffer, and swaps the two.
fn draw_again<A: App>(alloc: Global, app: &mut A, buffers: &mut LoopBuffers) -> Mem<()>
    requires { buffers.old.shown.area ≡ buffers.old.spare.area }
    ensures { OnOk result (IsNextDrawn A.behaviour None app.old buffers.old app.new buffers.new) }
{
    buffers.place = draw(alloc, app, &mut buffers.spare)?;
    mem::swap(&mut buffers.shown, &mut buffers.spare);
    Ok(())
}

// Draws into a new buffer.
fn draw_at<A: App>(alloc: Global, app: &mut A, buffers: &mut LoopBuffers, size: Size) -> Mem<()>
    ensures { OnOk result (IsNextDrawn A.behaviour (Some size) app.old buffers.old app.new buffers.new) }
{
    let mut shown = blank(alloc, size)?;
    let spare = blank(alloc, size)?;
    buffers.place = draw(alloc, app, &mut shown)?;
    drop(mem::replace(&mut buffers.shown, shown));
    drop(mem::replace(&mut buffers.spare, spare));
    Ok(())
}

/// Sends the whole buffer, or what changes a terminal that shows the spare buffer into one that
/// shows the other.
pub(crate) fn send<K: Sink>(
    output: Output,
    buffers: &LoopBuffers,
    in_full: bool,
    sink: &mut K,
) -> Result<(), WriteFault>
    requires { buffers.now.shown.area ≡ buffers.now.spare.area }
    ensures { Sent output in_full buffers.now (K.observed sink.old) (K.observed sink.new) result }
{
    let cursor = cursor_for(buffers.place, &buffers.shown);
    if in_full {
        write_full(&buffers.shown, output, cursor, sink)
    } else {
        write_changes(&buffers.spare, &buffers.shown, output, cursor, sink)
    }
}

fn cursor_for(place: Option<Position>, buf: &Buffer) -> Cursor
    ensures is { result ≡ cursor_for place buf.now.area }
    ensures inside { IsCursorInside result buf.now }
{
    match place {
        None => Cursor::Hidden,
        Some(p) => cursor_at(p, buf),
    }
}

fn cursor_at(p: Position, buf: &Buffer) -> Cursor
    ensures is { result ≡ cursor_for (Some p) buf.now.area }
    ensures inside { IsCursorInside result buf.now }
{
    if buf.area().contains(p) {
        Cursor::At(p)
    } else {
        Cursor::Hidden
    }
}
