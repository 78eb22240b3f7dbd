//! A whole run, from the arguments and the input to the output.

ghost use Rattle.std.specs.Prelude.{◌≡◌, ◌⊎◌};
ghost use Rattle.tui_program.specs.Transcript.{transcript_of};
ghost use Rattle.tui_program.specs.Runs.{IsRunFrom};
ghost use Rattle.tui_show_run.specs.Commands.{IsNoCommand};
ghost use Rattle.tui_show_run.specs.Ended.{outcome_of};
ghost use Rattle.tui_show_run.specs.Outcomes.{ShowEnds, IsCompleteScene, IsCompleteDemo, show_rules};

use crate::command::ShowCommand;
use crate::ended::Ended;
use std::alloc::Global;
use std::env::Args;
use std::io;
use tui_io::{Sink, Source};
use tui_program::{Caller, Library, run};

/// Runs the command that the arguments name.
///
/// `scene` alone reads a scene in JSON (docs/SCENE.md) from the source, draws it, and writes the screen to the sink.
/// `demo` with a number from 1 to 100000, in one to six digits, reads nothing. It draws a list of that many items
/// beside as many words, and writes a line about them and the rows of the screen.
///
/// With `scene` the outcome is `Ok` only if all of this holds:
///
/// - the source was read to its end, within 1,048,576 bytes;
/// - these bytes are JSON that the schema accepts;
/// - no read and no write failed;
/// - the sink has what it had before, followed by the print of the screen: the buffer that results from drawing the
///   scene's widgets on a blank one.
///
/// With `demo` the outcome is `Ok` only if no write failed. The sink then has what it had before, followed by that line
/// and these rows. Every other outcome has its cause; see `Ended`.
pub fn show<S: Source, K: Sink>(
    alloc: Global,
    words: &[String],
    source: &mut S,
    sink: &mut K,
) -> Ended
    ensures ends { ShowEnds words.now (transcript_of (S.observed source.old) (S.observed source.new) (K.observed sink.old) (K.observed sink.new)) result }
    ensures complete { IsCompleteScene words.now (transcript_of (S.observed source.old) (S.observed source.new) (K.observed sink.old) (K.observed sink.new)) result }
    ensures demo { IsCompleteDemo words.now (transcript_of (S.observed source.old) (S.observed source.new) (K.observed sink.old) (K.observed sink.new)) result }
    ensures usage { IsNoCommand words.now → (result ≡ Ended.Usage) ⊎ (result ≡ Ended.WriteFault) }
{
    run::<ShowCommand, S, K, Library>(alloc, words, source, sink, &Library).into()
}

/// Runs the command that the system's arguments name, as `show` does. If the system reports an invalid argument, runs
/// with a single empty argument, so that the outcome is `Usage`. If it reports that it is out of memory, nothing is
/// read and nothing is written.
pub fn run_program<S: Source, K: Sink, H: Caller>(
    alloc: Global,
    args: io::Result<Args>,
    source: &mut S,
    sink: &mut K,
    caller: &H,
) -> Ended
    ensures { IsRunFrom show_rules args
        (transcript_of (S.observed source.old) (S.observed source.new) (K.observed sink.old) (K.observed sink.new)) (outcome_of result) }
{
    tui_program::run_program::<ShowCommand, S, K, H>(alloc, args, source, sink, caller).into()
}
