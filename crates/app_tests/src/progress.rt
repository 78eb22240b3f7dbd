//! A display on the main screen, from its second row and third column on, as bytes.

ghost use Rattle.std.specs.Prelude.{◌≡◌, IfOk};
ghost use Rattle.tui_cells.specs.Rect.{area_of};

use std::alloc::Global;
use tui_cells::{Buffer, Mem, Position, Rect};
use tui_io::MemSink;
use tui_terminal::{Cursor, Depth, KnownWidths, Output, settle, write_changes, write_full};

/// What a full screen begins with.
const PREAMBLE: &str = "\x18\x1b\\\x1b[?2026l\x1b[?69l\x1b[?6l\x1b[4l\x1b[r\x1b(B\x0f\x1b[?7l";

const COMMON: Output = Output {
    depth: Depth::True,
    widths: KnownWidths::Common,
    synchronized: false,
};

/// One row of four columns, from column 2 of row 1 on, counted from 0: a digit, two spaces and a percent sign.
fn row(alloc: Global, digit: &str) -> Mem<Buffer>
    ensures { IfOk result (λ b. b.area ≡ area_of 2 1 4 1) }
{
    let mut b = Buffer::empty(alloc, Rect::new(2, 1, 4, 1))?;
    b.set_symbol(Position { x: 2, y: 1 }, digit)?;
    b.set_symbol(Position { x: 5, y: 1 }, "%")?;
    Ok(b)
}

fn is_after_tame(bytes: &[u8], text: &str) -> bool {
    bytes.len() == PREAMBLE.len() + text.len()
        && bytes.starts_with(PREAMBLE.as_bytes())
        && bytes.ends_with(text.as_bytes())
}

/// What is written of two rows after what a full screen begins with, and of the end.
const WRITTEN: &str =
    "\x1b[2;3H\x1b[0mÀ\x1b[2;3H\x1b[0m1  %\x1b[2;3H\x1b[0m2\x1b[?2026l\x1b[0m\x1b[?7h\x1b[?25h";

/// Whether all of two rows is written, the second one as what has changed, and then the end.
fn is_written(first: &Buffer, next: &Buffer, sink: &mut MemSink) -> bool
    requires { first.now.area ≡ next.now.area }
{
    write_full(first, COMMON, Cursor::Keep, sink).is_ok()
        && write_changes(first, next, COMMON, Cursor::Keep, sink).is_ok()
        && settle(sink).is_ok()
}

#[test]
fn two_rows_and_the_end(rt: HostRuntime) -> Mem<()> {
    let alloc = rt.alloc();
    let first = row(alloc, "1")?;
    let next = row(alloc, "2")?;
    let mut sink = MemSink::new(alloc, 256, Vec::new(alloc))?;
    assert!(&rt; is_written(&first, &next, &mut sink));
    assert!(&rt; is_after_tame(sink.bytes(), WRITTEN));
    Ok(())
}
