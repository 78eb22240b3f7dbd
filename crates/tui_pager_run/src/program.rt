//! A whole run, from the arguments and the input to the output.

ghost use Rattle.tui_program.specs.Transcript.{transcript_of};
ghost use Rattle.tui_program.specs.Runs.{IsRun, IsRunFrom};
ghost use Rattle.tui_pager_run.specs.Ended.{outcome_of};
ghost use Rattle.tui_pager_run.specs.Rules.{pager_rules};

use crate::command::PagerCommand;
use crate::ended::PagerEnded;
use std::alloc::Global;
use std::env::Args;
use std::io;
use tui_io::{Sink, Source};
use tui_program::{Caller, Library, run};

/// Reads entries and keys in JSON (docs/PROGRAMS.md) from the source. Makes the step of each key in order, and writes
/// the states and the last screen to the sink.
///
/// The outcome is `Ok` only if all of this holds:
///
/// - there are no arguments;
/// - the source was read to its end, within 1,048,576 bytes;
/// - these bytes are JSON in which each field is of its kind;
/// - no read and no write failed;
/// - the sink has what it had before, followed by the output. There is a line `k` for the start and for each key. It
///   has the number of keys before, the number of the selected entry or `-`, the offset and the line. Then come the
///   rows and the runs of the last screen.
///
/// On `NoMemory` the sink is unchanged. Every other outcome has its cause; see `PagerEnded`.
pub fn run_pager<S: Source, K: Sink>(
    alloc: Global,
    arguments: &[String],
    source: &mut S,
    sink: &mut K,
) -> PagerEnded
    ensures { IsRun pager_rules arguments.now
        (transcript_of (S.observed source.old) (S.observed source.new) (K.observed sink.old) (K.observed sink.new)) (outcome_of result) }
{
    run::<PagerCommand, S, K, Library>(alloc, arguments, source, sink, &Library).into()
}

/// Runs as `run_pager` does, with the system's arguments. If the system reports an invalid argument, runs with a single
/// empty argument, so that the outcome is `Usage`. If it reports that it is out of memory, nothing is read and nothing
/// is written.
pub fn run_program<S: Source, K: Sink, H: Caller>(
    alloc: Global,
    args: io::Result<Args>,
    source: &mut S,
    sink: &mut K,
    caller: &H,
) -> PagerEnded
    ensures { IsRunFrom pager_rules args
        (transcript_of (S.observed source.old) (S.observed source.new) (K.observed sink.old) (K.observed sink.new)) (outcome_of result) }
{
    tui_program::run_program::<PagerCommand, S, K, H>(alloc, args, source, sink, caller).into()
}
