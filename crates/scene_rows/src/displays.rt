//! Rows of displays: what is written to a terminal for the lines that it gives.

use crate::frames::{PREAMBLE, write_escaped};
use crate::members::{check_keys, texts};
use anyhow::{Result, bail};
use serde_json::Value;
use std::alloc::Global;
use std::io::Write;
use tui_app::{MemTerminal, READ_CAPACITY};
use tui_display::DisplayEnd;
use tui_terminal::Depth;
use tui_view_run::show_frames;

/// The most marks and bytes that the trace of a terminal may have.
const ROOM: usize = 65_536;

/// The mark of a read in the trace.
const MARK: u16 = 256;

/// Shows lines of scenes, which the reads of a terminal give. Writes what is written before each read and after the last one, a line each, and how the display
/// ends.
pub(crate) fn show_display<W: Write>(alloc: Global, display: &Value, out: &mut W) -> Result<()> {
    check_keys(display, &["reads"])?;
    let mut terminal = MemTerminal::new(alloc, ROOM, Vec::new(alloc))?;
    for read in texts(alloc, display, "reads")? {
        give(&mut terminal, read.as_bytes())?;
    }
    let end = show_frames(alloc, Depth::True, &mut terminal);
    for group in terminal.trace().split(|item| *item == MARK) {
        write_group(alloc, group, out)?;
    }
    writeln!(out, "{}", word(end))?;
    Ok(())
}

/// Adds a read to a terminal.
pub(crate) fn give(terminal: &mut MemTerminal, read: &[u8]) -> Result<()> {
    if read.len() > READ_CAPACITY {
        bail!("a read is too long");
    }
    terminal.queue_read(read)?;
    Ok(())
}

/// Writes what is sent in a part of the trace, without the bytes that a read gives.
fn write_group<W: Write>(alloc: Global, group: &[u16], out: &mut W) -> Result<()> {
    let mut bytes = Vec::new(alloc);
    for item in group {
        if let Ok(byte) = u8::try_from(*item) {
            bytes.push(byte)?;
        }
    }
    let text = String::from_utf8(bytes)?;
    write!(out, "put ")?;
    for (place, part) in text.as_str().split(PREAMBLE).enumerate() {
        if place > 0 {
            write!(out, "tame ")?;
        }
        write_escaped(out, part.as_bytes())?;
    }
    writeln!(out, "")?;
    Ok(())
}

fn word(end: DisplayEnd) -> &'static str {
    match end {
        DisplayEnd::Ended => "ended",
        DisplayEnd::TooLong => "too long",
        DisplayEnd::ReadFault => "read fault",
        DisplayEnd::ManyReads => "many reads",
        DisplayEnd::WriteFault => "write fault",
        DisplayEnd::NoMemory => "no memory",
    }
}
