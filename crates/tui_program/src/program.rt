//! A whole run, from the arguments and the input to the output.

ghost use Rattle.std.specs.Prelude.{◌≡◌, List, String, map, string_bytes, [], ◌∷◌};
ghost use Rattle.std.specs.declared.alloc.Global.{Global};
ghost use Rattle.tui_program.specs.Transcript.{transcript_of};
ghost use Rattle.tui_program.specs.Runs.{IsRun, IsRunFrom};

use crate::arguments::first_arguments;
use crate::caller::Caller;
use crate::command::ProgramCommand;
use crate::rejects::report_stop;
use crate::stop::{Outcome, Stop};
use std::alloc::Global;
use std::env::Args;
use std::io;
use std::io::ErrorKind;
use tui_io::{Sink, Source};

/// Runs the command that the arguments name. If they name none, reads nothing, writes the usage line, which doesn't
/// allocate, and has the caller say how the program is used.
pub fn run<C: ProgramCommand + Drop, S: Source, K: Sink, H: Caller>(
    alloc: Global,
    arguments: &[String],
    source: &mut S,
    sink: &mut K,
    caller: &H,
) -> Outcome<(), C::Refusal>
    ensures { IsRun C.rules arguments.now
        (transcript_of (S.observed source.old) (S.observed source.new) (K.observed sink.old) (K.observed sink.new)) result }
{
    match C::from_arguments(arguments) {
        Some(command) => command.run(alloc, source, sink, caller),
        None => {
            let ended = report_stop::<C, K>(Stop::Usage, sink);
            caller.print_usage();
            Err(ended)
        }
    }
}

/// Runs the command that the system's arguments name, as `run` does. The first argument, the program's name, is left
/// out. If the system reports an invalid argument, runs with a single empty argument, so that the usage line is
/// written. If it reports that it is out of memory, nothing is read and nothing is written.
pub fn run_program<C: ProgramCommand + Drop, S: Source, K: Sink, H: Caller>(
    alloc: Global,
    args: io::Result<Args>,
    source: &mut S,
    sink: &mut K,
    caller: &H,
) -> Outcome<(), C::Refusal>
    ensures { IsRunFrom C.rules args
        (transcript_of (S.observed source.old) (S.observed source.new) (K.observed sink.old) (K.observed sink.new)) result }
{
    match args {
        Ok(all) => {
            let arguments = first_arguments(alloc, all);
            run::<C, S, K, H>(alloc, arguments.as_slice(), source, sink, caller)
        }
        Err(error) if error.kind() == ErrorKind::OutOfMemory => Err(Stop::NoMemory),
        Err(_) => run_rejected_argument::<C, S, K, H>(alloc, source, sink, caller),
    }
}

/// Runs with one empty argument, which doesn't allocate.
fn run_rejected_argument<C: ProgramCommand + Drop, S: Source, K: Sink, H: Caller>(
    alloc: Global,
    source: &mut S,
    sink: &mut K,
    caller: &H,
) -> Outcome<(), C::Refusal>
    ensures { (arguments : List (String Global)) × (map string_bytes arguments ≡ [] ∷ []) × IsRun C.rules arguments
        (transcript_of (S.observed source.old) (S.observed source.new) (K.observed sink.old) (K.observed sink.new)) result }
{
    let arguments = [String::new(alloc)];
    run::<C, S, K, H>(alloc, &arguments, source, sink, caller)
}
