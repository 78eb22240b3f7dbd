//! Rows of sessions: what a pager draws for the reads of a terminal.

use crate::members::{check_keys, list, size, texts};
use anyhow::{Result, bail};
use serde_json::Value;
use std::alloc::Global;
use std::io::Write;
use tui_app::{App, run_over};
use tui_browse_lib::PagerApp;
use tui_cells::{Buffer, Size};
use tui_io::MemSink;
use tui_pager_lib::Entry;
use tui_rows::write_rows;

/// The most bytes of the rows of a screen.
const ROOM: usize = 65_536;

/// Shows a pager on a terminal of `width` columns and `height` rows, with the title and the body of each entry in `entries`. Writes the rows of the first
/// screen, and of the one after each of `reads`; then the state at the end.
pub(crate) fn show_session<W: Write>(alloc: Global, session: &Value, out: &mut W) -> Result<()> {
    check_keys(session, &["width", "height", "entries", "reads"])?;
    let Size { width, height } = size(session)?;
    let entries = entries_of(alloc, session)?;
    let Ok(mut app) = PagerApp::new(alloc, width, height, entries) else {
        bail!("no memory for the pager");
    };
    write_screens(alloc, &mut app, session, out)?;
    write_state(&app, out)
}

/// Writes the rows of the first screen of an app, and of the one after each read up to the one that ends it.
pub(crate) fn write_screens<A: App, W: Write>(
    alloc: Global,
    app: &mut A,
    value: &Value,
    out: &mut W,
) -> Result<()> {
    let reads = reads_of(alloc, value)?;
    let Ok(screens) = run_over(alloc, app, size(value)?, &reads) else {
        bail!("no memory for the screens");
    };
    for screen in &screens {
        write_out(alloc, screen, out)?;
    }
    Ok(())
}

fn entries_of(alloc: Global, session: &Value) -> Result<Vec<Entry<'_>>> {
    let mut entries = Vec::new(alloc);
    let Some(values) = list(session, "entries") else {
        bail!("no entries");
    };
    for value in values {
        match entry_of(value) {
            Some(entry) => entries.push(entry)?,
            None => bail!("no entry"),
        }
    }
    Ok(entries)
}

fn entry_of(value: &Value) -> Option<Entry<'_>> {
    let title = value.get(0usize)?.as_str()?;
    let body = value.get(1usize)?.as_str()?;
    Some(Entry { title, body })
}

/// Writes the selected entry, the first entry in the list, and the first line of the body, each counted from 0.
fn write_state<W: Write>(app: &PagerApp<'_>, out: &mut W) -> Result<()> {
    let state = app.state();
    match state.selected {
        Some(selected) => write!(out, "state {selected}")?,
        None => write!(out, "state -")?,
    }
    writeln!(out, " {} {}", state.offset, state.line)?;
    Ok(())
}

/// The bytes of each read.
fn reads_of(alloc: Global, value: &Value) -> Result<Vec<&[u8]>> {
    let mut reads = Vec::new(alloc);
    for text in texts(alloc, value, "reads")? {
        reads.push(text.as_bytes())?;
    }
    Ok(reads)
}

/// Writes the rows of a screen, below a line of their own.
fn write_out<W: Write>(alloc: Global, screen: &Buffer, out: &mut W) -> Result<()> {
    let mut sink = MemSink::new(alloc, ROOM, Vec::new(alloc))?;
    if write_rows("screen\n", screen, &mut sink).is_err() {
        bail!("no room for a screen");
    }
    out.write_all(sink.bytes())?;
    Ok(())
}
