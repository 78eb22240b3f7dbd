//! A whole run, from the arguments and the bytes that are read to the bytes that are written.

ghost use Rattle.tui_program.specs.Transcript.{transcript_of};
ghost use Rattle.tui_program.specs.Runs.{IsRun, IsRunFrom};
ghost use Rattle.tui_panes_run.specs.Ended.{outcome_of};
ghost use Rattle.tui_panes_run.specs.Rules.{panes_rules};

use crate::command::PanesCommand;
use crate::ended::PanesEnded;
use std::alloc::Global;
use std::env::Args;
use std::io;
use tui_io::{Sink, Source};
use tui_program::{Caller, Library, run};

/// Reads a tree of panes and changes in JSON (docs/PROGRAMS.md) from the source. Without arguments it draws all panes
/// from first to last; with `reverse` it draws them from last to first. Then it makes the changes, each of which
/// redraws one pane, and writes the screen to the sink. With `at` and two numbers it draws nothing, and writes which
/// leaf is in that column and row.
///
/// It ends with `Ok` only if all of these hold. The source was read to its end within 1,048,576 bytes. These bytes are
/// JSON that passes each test of the input. No read and no write failed. The output was appended to what the sink held:
/// the print of the screen that the drawing and the changes give on a blank buffer. With `at` the output is the line
/// `leaf` and the number of the leaf whose rectangle contains the position, or `none`. If it ends with `NoMemory` the
/// sink is unchanged. `PanesEnded` lists the causes of the other outcomes.
///
/// If no widget has a shadow, the screen is what the final panes draw on a blank buffer, in either order
/// (`output_laws`).
pub fn run_panes<S: Source, K: Sink>(
    alloc: Global,
    arguments: &[String],
    source: &mut S,
    sink: &mut K,
) -> PanesEnded
    ensures { IsRun panes_rules arguments.now
        (transcript_of (S.observed source.old) (S.observed source.new) (K.observed sink.old) (K.observed sink.new)) (outcome_of result) }
{
    run::<PanesCommand, S, K, Library>(alloc, arguments, source, sink, &Library).into()
}

/// Runs as `run_panes` does, with the arguments that the system gives. If the system rejects one, it runs with one
/// empty argument, and so ends with `Usage`. If the system has no memory for them, nothing is read and nothing written.
pub fn run_program<S: Source, K: Sink, H: Caller>(
    alloc: Global,
    args: io::Result<Args>,
    source: &mut S,
    sink: &mut K,
    caller: &H,
) -> PanesEnded
    ensures { IsRunFrom panes_rules args
        (transcript_of (S.observed source.old) (S.observed source.new) (K.observed sink.old) (K.observed sink.new)) (outcome_of result) }
{
    tui_program::run_program::<PanesCommand, S, K, H>(alloc, args, source, sink, caller).into()
}
