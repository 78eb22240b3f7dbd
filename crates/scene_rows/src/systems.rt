//! Rows of runs on a system in memory: what they write, and how they end.
//!
//! - `program`: `browse`, `files`, `form`, `view` or `watch`; `arguments`: its arguments
//! - `variables` and `files`: objects of texts, by name. A file that is not among them can't be opened
//! - `file_failing`: which reads of a file fail, from 1
//! - `folders`: for `files`, an object with the names in each folder, by its absolute path. Those of folders end in a
//!   slash. `paths`: the absolute paths of other names of folders, by these names
//! - `reads`: what the terminal gives; `failing`: which of its reads and writes fail, counted together from 1
//! - `shown`: texts that the terminal may get in one piece; each is reported with whether it got it
//! - `is_shut`: whether the place for what the program gives can't be opened; `puts`: which writes to it fail; `room`:
//!   how many bytes it has room for
//! - `is_piped`: whether standard output is the user's and no terminal

use crate::displays::give;
use crate::folders::RowFolders;
use crate::frames::write_escaped;
use crate::machines::RowMachines;
use crate::members::{check_keys, flag, numbers, text, texts, texts_by_name};
use crate::places::RowPlace;
use anyhow::{Result, bail};
use serde_json::Value;
use std::alloc::Global;
use std::io::Write;
use tui_app::MemTerminal;
use tui_browse_run::browse;
use tui_files_run::browse_files;
use tui_form_run::run_form;
use tui_io::MemSink;
use tui_program::{Done, Outcome};
use tui_system::{Left, MemSystem, System};
use tui_view_run::run_view;
use tui_watch_run::watch;

/// The most marks and bytes that the trace of a terminal may have.
const ROOM: usize = 65_536;

/// What the terminal gets first of a session, and what it gets last of one that leaves it.
const ENTER: &str = "\x1b[?1049h";

const LEAVE: &str = "\x1b[?2026l\x1b[?2004l\x1b[?1049l\x1b[0m\x1b[?7h\x1b[?25h";

const KEYS: [&str; 14] = [
    "program",
    "arguments",
    "variables",
    "files",
    "file_failing",
    "folders",
    "paths",
    "reads",
    "failing",
    "shown",
    "is_shut",
    "puts",
    "room",
    "is_piped",
];

/// Runs a program. Writes what the terminal, the place for what it gives and standard output got, and the exit status.
pub(crate) fn run_on_system<W: Write>(alloc: Global, running: &Value, out: &mut W) -> Result<()> {
    check_keys(running, &KEYS)?;
    let system = system_of(alloc, running)?;
    let mut terminal = terminal_of(alloc, running)?;
    let mut place = RowPlace::of(alloc, running)?;
    let mut output = MemSink::new(alloc, ROOM, Vec::new(alloc))?;
    let status = match text(running, "program") {
        Some("browse") => status_of(&browse(&system, &mut terminal)),
        Some("files") => status_of(&show_folders(&system, running, &mut terminal, &mut place)),
        Some("form") => status_of(&run_form(&system, &mut terminal, &mut place)),
        Some("view") => status_of(&run_view(&system, &mut terminal, &mut output)),
        Some("watch") => status_of(&watch(&system, &RowMachines { row: running }, &mut terminal)),
        _ => bail!("no such program"),
    };
    let written = text_on(alloc, &terminal)?;
    write_terminal(written.as_str(), out)?;
    write_shown(written.as_str(), &texts(alloc, running, "shown")?, out)?;
    place.write(out)?;
    write_output(output.bytes(), out)?;
    writeln!(out, "status {status}")?;
    Ok(())
}

fn show_folders(
    system: &MemSystem,
    row: &Value,
    terminal: &mut MemTerminal,
    chosen: &mut RowPlace,
) -> Outcome<Left, ()> {
    let folders = RowFolders {
        alloc: system.alloc(),
        row,
    };
    browse_files(system, &folders, folders, terminal, chosen)
}

fn status_of<D: Done, R>(outcome: &Outcome<D, R>) -> u8 {
    match outcome {
        Ok(done) => done.status(),
        Err(stop) => stop.status(),
    }
}

/// Returns the system of a row.
fn system_of(alloc: Global, row: &Value) -> Result<MemSystem> {
    let mut system = MemSystem::new(alloc);
    system.add_argument("row")?;
    for argument in texts(alloc, row, "arguments")? {
        system.add_argument(argument)?;
    }
    for (name, text) in texts_by_name(alloc, row, "variables")? {
        system.add_variable(name, text)?;
    }
    for (name, text) in texts_by_name(alloc, row, "files")? {
        let bytes = Vec::from_slice(alloc, text.as_bytes())?;
        system.add_file(name, bytes, numbers(alloc, row, "file_failing")?)?;
    }
    system.set_output_piped(flag(row, "is_piped").unwrap_or(false));
    Ok(system)
}

fn terminal_of(alloc: Global, row: &Value) -> Result<MemTerminal> {
    let mut terminal = MemTerminal::new(alloc, ROOM, numbers(alloc, row, "failing")?)?;
    for read in texts(alloc, row, "reads")? {
        give(&mut terminal, read.as_bytes())?;
    }
    Ok(terminal)
}

/// Writes what standard output got, if it got anything.
fn write_output<W: Write>(bytes: &[u8], out: &mut W) -> Result<()> {
    if !bytes.is_empty() {
        write!(out, "output: ")?;
        write_escaped(out, bytes)?;
        writeln!(out, "")?;
    }
    Ok(())
}

/// Returns what a terminal got.
fn text_on(alloc: Global, terminal: &MemTerminal) -> Result<String> {
    let mut bytes = Vec::new(alloc);
    for item in terminal.trace() {
        if let Ok(byte) = u8::try_from(*item) {
            bytes.push(byte)?;
        }
    }
    Ok(String::from_utf8(bytes)?)
}

/// Writes what a terminal got; of a session only whether it left the terminal.
fn write_terminal<W: Write>(written: &str, out: &mut W) -> Result<()> {
    write!(out, "terminal")?;
    if written.is_empty() {
        write!(out, " untouched")?;
    } else if !written.starts_with(ENTER) {
        write!(out, " ")?;
        write_escaped(out, written.as_bytes())?;
    } else if written.ends_with(LEAVE) {
        write!(out, " session, left")?;
    } else {
        write!(out, " session, cut short")?;
    }
    writeln!(out, "")?;
    Ok(())
}

/// Writes for each of these texts whether a terminal got it.
fn write_shown<W: Write>(written: &str, texts: &[&str], out: &mut W) -> Result<()> {
    for text in texts {
        let word = if written.contains(*text) {
            "shows"
        } else {
            "lacks"
        };
        writeln!(out, "{word} {text}")?;
    }
    Ok(())
}
