//! Traces of terminals in memory.

use std::alloc::Global;
use tui_app::MemTerminal;
use tui_cells::Mem;
use tui_terminal::{Depth, KnownWidths, Output};

pub(crate) const OUTPUT: Output = Output {
    depth: Depth::True,
    widths: KnownWidths::Common,
    synchronized: false,
};

pub(crate) const ENTER: &str =
    "\x1b[?1049h\x18\x1b\\\x1b[?2026l\x1b[?69l\x1b[?6l\x1b[4l\x1b[r\x1b(B\x0f\x1b[?7l\x1b[?2004h";

/// The most marks and bytes that a trace may have.
const ROOM: usize = 2000;

/// The bytes that a full screen begins with.
pub(crate) const FULL: &str =
    "\x18\x1b\\\x1b[?2026l\x1b[?69l\x1b[?6l\x1b[4l\x1b[r\x1b(B\x0f\x1b[?7l\x1b[1;1H\x1b[0mÀ";

pub(crate) const LEAVE: &str = "\x1b[?2026l\x1b[?2004l\x1b[?1049l\x1b[0m\x1b[?7h\x1b[?25h";

#[derive(Clone, Copy)]
pub(crate) enum TraceEntry<'a> {
    Written(&'a str),
    Read(&'a str),
}

fn add(trace: &mut Vec<u16>, text: &str, above: u16) -> Mem<()> {
    for byte in text.as_bytes() {
        trace.push(above.saturating_add(u16::from(*byte)))?;
    }
    Ok(())
}

/// Whether a tape is the first `count` of these parts, and then a text that was written.
pub(crate) fn is_tape(
    alloc: Global,
    trace: &[u16],
    (parts, count): (&[TraceEntry<'_>], usize),
    last: &str,
) -> Mem<bool> {
    let mut wanted = Vec::new(alloc);
    for part in parts.iter().take(count) {
        add_part(&mut wanted, *part)?;
    }
    add(&mut wanted, last, 0)?;
    Ok(trace == wanted.as_slice())
}

fn add_part(trace: &mut Vec<u16>, part: TraceEntry<'_>) -> Mem<()> {
    match part {
        TraceEntry::Written(text) => add(trace, text, 0),
        TraceEntry::Read(text) => {
            trace.push(256)?;
            add(trace, text, 257)
        }
    }
}

/// A terminal that gives these reads, and whose call of a number fails, from 1; with 0 none does.
pub(crate) fn terminal(alloc: Global, reads: &[&str], failing: u64) -> Mem<MemTerminal> {
    let mut numbers = Vec::new(alloc);
    numbers.push(failing)?;
    let mut terminal = MemTerminal::new(alloc, ROOM, numbers)?;
    for text in reads {
        give(&mut terminal, text.as_bytes())?;
    }
    Ok(terminal)
}

fn give(terminal: &mut MemTerminal, bytes: &[u8]) -> Mem<()> {
    if bytes.len() <= 1024 {
        terminal.queue_read(bytes)?;
    }
    Ok(())
}
