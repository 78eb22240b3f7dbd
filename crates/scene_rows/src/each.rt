//! Rows that are run repeatedly.

use crate::row::{Each, Given, Row};
use crate::run::run;
use anyhow::Result;
use std::alloc::{AllocFailed, Global};
use std::io::Write;

/// The output of a run that has written a first part of the output.
const PART: &[u8] = b"a first part of the output\n";

/// Neighbouring runs that ended alike.
struct RunGroup {
    runs: u64,
    status: u8,
    written: Vec<u8>,
}

// Written out, so that a function which lets such a value go proves nothing of what it holds.
impl Drop for RunGroup {
    fn drop(self) {
        let RunGroup {
            runs,
            status,
            written,
        } = self;
    }
}

/// Runs a row again and again, and writes for each stretch of runs that ended alike how many they are, their status, and what each
/// of them has written.
pub(crate) fn run_each<W: Write>(
    alloc: Global,
    row: &Row<'_>,
    each: Each,
    out: &mut W,
) -> Result<()> {
    let (_status, sink) = run(alloc, row.program, &row.words, row.given(alloc)?)?;
    let (first, last) = numbers(alloc, row, each, sink.bytes())?;
    let mut group: Option<RunGroup> = None;
    for number in first..last {
        let next = nth_run(alloc, row, each, number, sink.bytes())?;
        let ends = is_last(each, &next);
        group = Some(joined(group, next, out)?);
        if ends {
            break;
        }
    }
    if let Some(group) = group {
        write_out(&group, out)?;
    }
    Ok(())
}

/// The number of the first run, and the one past the last.
fn numbers(alloc: Global, row: &Row<'_>, each: Each, whole: &[u8]) -> Result<(usize, usize)> {
    Ok(match each {
        Each::Cut => (0, row.given(alloc)?.input.len()),
        Each::Put => (1, usize::MAX),
        Each::Room => (0, whole.len()),
    })
}

/// Returns whether all later runs are the same: if no write fails, the number is greater than that of the last write.
fn is_last(each: Each, ran: &RunGroup) -> bool {
    match each {
        Each::Put => ran.status != 7,
        Each::Cut | Each::Room => false,
    }
}

/// One of the runs, as a stretch of itself.
fn nth_run(
    alloc: Global,
    row: &Row<'_>,
    each: Each,
    number: usize,
    whole: &[u8],
) -> Result<RunGroup> {
    let mut given = row.given(alloc)?;
    change(&mut given, each, number)?;
    let (status, sink) = run(alloc, row.program, &row.words, given)?;
    let written = sink.bytes();
    let is_part = status == 7 && written.len() < whole.len() && whole.starts_with(written);
    Ok(RunGroup {
        runs: 1,
        status,
        written: Vec::from_slice(alloc, if is_part { PART } else { written })?,
    })
}

/// Changes what is given to the run of a number.
fn change(given: &mut Given, each: Each, number: usize) -> Result<(), AllocFailed<u64>> {
    match each {
        Each::Cut => given.input.truncate(number),
        Each::Put => given.puts.push(number as u64)?,
        Each::Room => given.room = number,
    }
    Ok(())
}

/// Adds a run to a group. If its result is another one, writes the group, and returns the run as a new group.
fn joined<W: Write>(group: Option<RunGroup>, next: RunGroup, out: &mut W) -> Result<RunGroup> {
    match group {
        None => Ok(next),
        Some(mut group) => {
            if group.status == next.status && group.written == next.written {
                group.runs = group.runs.saturating_add(1);
                return Ok(group);
            }
            write_out(&group, out)?;
            Ok(next)
        }
    }
}

fn write_out<W: Write>(group: &RunGroup, out: &mut W) -> Result<()> {
    let runs = group.runs;
    let status = group.status;
    writeln!(out, "runs {runs} status {status}")?;
    out.write_all(group.written.as_slice())?;
    Ok(())
}
