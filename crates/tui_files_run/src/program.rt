//! A whole run, from the arguments and the keys to what the terminal is sent, and to the path that was chosen.

ghost use Rattle.tui_files_run.specs.Ends.{Ends, EndsOn};
ghost use Rattle.tui_system.specs.Destination.{IsOpened};
ghost use Rattle.tui_system.specs.Opening.{CanBeOpen};

use crate::arguments::FilesCommand;
use crate::browsing::begin;
use crate::paths::FolderPaths;
use crate::running::run_browser;
use tui_app::Terminal;
use tui_files_lib::Folders;
use tui_program::{Outcome, report_stop};
use tui_system::{Console, Destination, Left, RejectsNothing, System, command_of, open_terminal};

/// Shows a folder on the terminal until the user quits, and then writes the selected path, or the folder that it lies
/// in, to `chosen`, if there is a place for it. The arguments are `--folder`, FOLDER and CHOSEN. The terminal is opened
/// first, then the place, if there is one, before the terminal is entered. If one of them can't be opened, the run ends
/// with `WriteFault`. If the folder can't be read, the run ends with `ReadFault`. In these cases the terminal is not
/// entered. `Stop` lists the causes of the other outcomes.
pub fn browse_files<S: System, P: FolderPaths, F: Folders + Drop, T: Console, A: Destination>(
    system: &S,
    paths: &P,
    folders: F,
    terminal: &mut T,
    chosen: &mut A,
) -> Outcome<Left, ()>
    ensures { Ends F F.lists (S.gives system.now)
        (record { lists = F.lists folders; resolves = P.resolves paths.now; is_folder = P.is_at_folder paths.now })
        (CanBeOpen T.observed T.is_open (T.observed terminal.old)) (T.observed terminal.old) (T.observed terminal.new) (A.Sink.observed chosen.old) (A.Sink.observed chosen.new)
        (λ place. IsOpened A.Sink.observed A.Destination.is_open_at place (A.Sink.observed chosen.old)) result }
{
    open_terminal::<(), T>(terminal)?;
    browse_on(system, paths, folders, terminal, chosen)
}

/// Browses on a terminal that is open.
fn browse_on<S: System, P: FolderPaths, F: Folders + Drop, T: Terminal, A: Destination>(
    system: &S,
    paths: &P,
    folders: F,
    terminal: &mut T,
    chosen: &mut A,
) -> Outcome<Left, ()>
    ensures { EndsOn F F.lists (S.gives system.now)
        (record { lists = F.lists folders; resolves = P.resolves paths.now; is_folder = P.is_at_folder paths.now })
        (T.observed terminal.old) (T.observed terminal.new) (A.Sink.observed chosen.old) (A.Sink.observed chosen.new)
        (λ place. IsOpened A.Sink.observed A.Destination.is_open_at place (A.Sink.observed chosen.old)) result }
{
    match command_of::<FilesCommand, (), S>(system) {
        Ok(command) => {
            let browsing = begin(system.alloc(), paths, folders, command)?;
            run_browser(system, paths, browsing, terminal, chosen)
        }
        Err(stop) => Err(report_stop::<RejectsNothing, T>(stop, terminal)),
    }
}
