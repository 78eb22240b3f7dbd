//! A whole run, from the arguments and the input to the output.

ghost use Rattle.tui_program.specs.Transcript.{transcript_of};
ghost use Rattle.tui_program.specs.Runs.{IsRun, IsRunFrom};
ghost use Rattle.tui_pages_run.specs.Ended.{outcome_of};
ghost use Rattle.tui_pages_run.specs.Rules.{pages_rules};

use crate::command::PagesCommand;
use crate::ended::PagesEnded;
use std::alloc::Global;
use std::env::Args;
use std::io;
use tui_io::{Sink, Source};
use tui_program::{Caller, Library, run};

/// Reads a report in JSON (docs/PROGRAMS.md) from the source. Writes its pages to the sink or, with the argument
/// `count`, how many there are.
///
/// The outcome is `Ok` only if all of this holds:
///
/// - the source was read to its end, within 1,048,576 bytes;
/// - these bytes are JSON in which each field is of its kind;
/// - no record has more than 4096 lines;
/// - no read and no write failed;
/// - the sink has what it had before, followed by the pages. Each is a line `p` with its number, from 1, and the number
///   of pages, and then a line `r` for each of its rows. With `count` there is a line `pages` with the number of pages
///   instead.
///
/// On `NoMemory` the sink has what it had before, followed by the first pages, perhaps none, each of them complete.
/// Every other outcome has its cause; see `PagesEnded`.
pub fn run_pages<S: Source, K: Sink>(
    alloc: Global,
    arguments: &[String],
    source: &mut S,
    sink: &mut K,
) -> PagesEnded
    ensures { IsRun pages_rules arguments.now
        (transcript_of (S.observed source.old) (S.observed source.new) (K.observed sink.old) (K.observed sink.new)) (outcome_of result) }
{
    run::<PagesCommand, S, K, Library>(alloc, arguments, source, sink, &Library).into()
}

/// Runs as `run_pages` does, with the system's arguments. If the system reports an invalid argument, runs with a single
/// empty argument, so that the outcome is `Usage`. If it reports that it is out of memory, nothing is read and nothing
/// is written.
pub fn run_program<S: Source, K: Sink, H: Caller>(
    alloc: Global,
    args: io::Result<Args>,
    source: &mut S,
    sink: &mut K,
    caller: &H,
) -> PagesEnded
    ensures { IsRunFrom pages_rules args
        (transcript_of (S.observed source.old) (S.observed source.new) (K.observed sink.old) (K.observed sink.new)) (outcome_of result) }
{
    tui_program::run_program::<PagesCommand, S, K, H>(alloc, args, source, sink, caller).into()
}
