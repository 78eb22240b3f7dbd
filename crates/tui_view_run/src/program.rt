//! A whole run, from the arguments and the input to the output.

ghost use Rattle.tui_system.specs.Opening.{CanBeOpen, EndsOpening};
ghost use Rattle.tui_view_run.specs.Ends.{AreFramesShown, Ends, EndsWith};

use crate::command::ViewCommand;
use crate::display_end::display_outcome;
use crate::frames::show_frames;
use crate::rows::RowsCommand;
use std::alloc::Global;
use tui_io::Sink;
use tui_program::{Outcome, report_stop, run_json};
use tui_schema::BadField;
use tui_system::{Console, NamedFile, System, command_of, depth, open_terminal};
use tui_terminal_model::Depth;

/// Runs the command that the system's arguments name, in the colour depth that its variables give.
///
/// `rows`, alone or with FILE, reads a scene in JSON (docs/SCENE.md) from FILE or from standard input, and draws it. It
/// writes the rows of the screen to `output`, from the top. The terminal is not opened. The outcome is `Ok` only if all
/// of this holds:
///
/// - the input was read to its end, within 1,048,576 bytes;
/// - these bytes are JSON that the schema accepts;
/// - no read and no write failed;
/// - `output` has what it had before, followed by the rows of the screen: the buffer that results from drawing the
///   scene's widgets on a blank one. Each row has the sequences that set the pen, and after it a newline, with the pen
///   reset.
///
/// `frames` opens the terminal. It reads scenes from the terminal's input, one a line, and shows each as `show_frames`
/// does. Nothing is written to `output`. The outcome is `Ok` only if every line was shown and the terminal was left. If the
/// terminal can't be opened, it is `WriteFault`.
///
/// Other arguments are rejected in one line on `output`, and the outcome is `Usage`. `Stop` lists the causes of the
/// other outcomes.
///
/// Call this only as the last action of a process: the memory of the run is leaked.
pub fn run_view<S: System, T: Console, K: Sink>(
    system: &S,
    terminal: &mut T,
    output: &mut K,
) -> Outcome<(), BadField>
    ensures { Ends (S.gives system.now) (CanBeOpen T.observed T.is_open (T.observed terminal.old)) (T.observed terminal.old) (T.observed terminal.new)
        (K.observed output.old) (K.observed output.new) result }
{
    match command_of::<ViewCommand, BadField, S>(system) {
        Ok(command) => run_command(system, &command, terminal, output),
        Err(stop) => Err(report_stop::<RowsCommand, K>(stop, output)),
    }
}

/// Runs a command. If memory runs out before its input is opened, nothing is written.
fn run_command<S: System, T: Console, K: Sink>(
    system: &S,
    command: &ViewCommand,
    terminal: &mut T,
    output: &mut K,
) -> Outcome<(), BadField>
    ensures { EndsWith (S.gives system.now) (CanBeOpen T.observed T.is_open (T.observed terminal.old)) (T.observed terminal.old) (T.observed terminal.new)
        (K.observed output.old) (K.observed output.new) command.now result }
{
    let alloc = system.alloc();
    let depth = depth(system)?;
    match command {
        ViewCommand::Frames => run_frames(alloc, depth, terminal),
        ViewCommand::Rows(_) => {
            let name = command.input_name();
            let mut source = system.open(name)?;
            run_json(
                &RowsCommand { depth },
                alloc,
                &mut source,
                output,
                &NamedFile { system, name },
            )
        }
    }
}

/// Opens the terminal, and shows on it the scenes that it gives.
fn run_frames<T: Console>(alloc: Global, depth: Depth, terminal: &mut T) -> Outcome<(), BadField>
    ensures { EndsOpening (CanBeOpen T.observed T.is_open (T.observed terminal.old)) (T.observed terminal.old) (T.observed terminal.new)
        (Unit {0}) (AreFramesShown depth (T.observed terminal.old) (T.observed terminal.new)) result }
{
    open_terminal::<BadField, T>(terminal)?;
    display_outcome(show_frames(alloc, depth, terminal))
}
