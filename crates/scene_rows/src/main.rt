//! Runs the programs over rows of data. Each argument names a file of rows. A row is a line of JSON, followed by the
//! lines that its run should write. If a run writes anything else, the row is reported with what it wrote. At the end
//! the program writes how many rows there are, and how many of them are wrong. It exits with status 1 if a row is
//! wrong, or if a line is not a valid row.
#![tactic(auto)]

mod cases;
mod displays;
mod each;
mod folders;
mod forms;
mod frames;
mod machines;
mod members;
mod places;
mod program;
mod report;
mod row;
mod run;
mod sessions;
mod systems;
mod tally;

use crate::cases::{Case, cases};
use crate::displays::show_display;
use crate::each::run_each;
use crate::forms::show_form;
use crate::frames::show_frames;
use crate::members::{check_keys, member, text};
use crate::report::report;
use crate::row::{Each, KEYS, Row};
use crate::run::run;
use crate::sessions::show_session;
use crate::systems::run_on_system;
use crate::tally::Tally;
use anyhow::{Context, Result};
use serde_json::Value;
use std::alloc::Global;
use std::io::{BufWriter, Write};
use std::process::ExitCode;
use std::{env, fs, io};

fn main(rt: HostRuntime) -> Result<ExitCode> {
    let alloc = rt.alloc();
    let mut out = BufWriter::new(alloc, io::writer(&rt))?;
    let mut tally = Tally::new();
    for file in env::args(&rt)?.skip(1) {
        let text = fs::read_to_string(&rt, file.as_str())?;
        check_file(alloc, text.as_str(), &mut tally, &mut out).context(format_args!(
            "{}",
            file.as_str()
        ))?;
    }
    tally.write_out(&mut out)?;
    out.flush()?;
    Ok(tally.exit_code())
}

/// Runs the rows of a file, and writes those whose output is not the expected one.
fn check_file<W: Write>(alloc: Global, text: &str, tally: &mut Tally, out: &mut W) -> Result<()> {
    let cases = cases(alloc, text)?;
    for case in &cases {
        tally.count(is_right(alloc, case, out)?);
    }
    Ok(())
}

/// Whether the run of a case writes what is wanted. What it writes else is written.
fn is_right<W: Write>(alloc: Global, case: &Case<'_>, out: &mut W) -> Result<bool> {
    let row = row_of(alloc, case)?;
    let mut found = Vec::new(alloc);
    run_row(alloc, &row, &mut found)?;
    if found.as_slice() == case.expected.as_bytes() {
        return Ok(true);
    }
    write_wrong(
        case,
        text(&row, "name").unwrap_or(""),
        found.as_slice(),
        out,
    )?;
    Ok(false)
}

fn row_of(alloc: Global, case: &Case<'_>) -> Result<Value> {
    Value::from_str(alloc, case.row).context(format_args!("line {}", case.line))
}

fn write_wrong<W: Write>(case: &Case<'_>, name: &str, found: &[u8], out: &mut W) -> Result<()> {
    writeln!(out, "== line {}: {name}", case.line)?;
    out.write_all(found)?;
    Ok(())
}

/// Writes what a row's run ends with and has written.
fn run_row<W: Write>(alloc: Global, row: &Value, out: &mut W) -> Result<()> {
    check_keys(row, &KEYS)?;
    if let Some(frames) = member(row, "frames") {
        return show_frames(alloc, frames, out);
    }
    if let Some(session) = member(row, "session") {
        return show_session(alloc, session, out);
    }
    if let Some(display) = member(row, "display") {
        return show_display(alloc, display, out);
    }
    if let Some(asking) = member(row, "asking") {
        return show_form(alloc, asking, out);
    }
    if let Some(running) = member(row, "running") {
        return run_on_system(alloc, running, out);
    }
    run_program(alloc, row, out)
}

fn run_program<W: Write>(alloc: Global, value: &Value, out: &mut W) -> Result<()> {
    let row = Row::of(alloc, value)?;
    match member(value, "each") {
        Some(each) => run_each(alloc, &row, Each::of(each)?, out),
        None => run_once(alloc, &row, out),
    }
}

fn run_once<W: Write>(alloc: Global, row: &Row<'_>, out: &mut W) -> Result<()> {
    let (status, sink) = run(alloc, row.program, &row.words, row.given(alloc)?)?;
    report(out, status, sink.bytes())?;
    Ok(())
}
