//! From a browser to a session, and to the path that was chosen.

ghost use Rattle.std.specs.Prelude.{option_map};
ghost use Rattle.tui_files_run.specs.Ends.{EndsBrowsing, Readies};
ghost use Rattle.tui_system.specs.Destination.{IsOpened};
ghost use Rattle.tui_system.specs.Places.{place_data};

use crate::browsing::Browsing;
use crate::choosing::write_chosen;
use crate::paths::FolderPaths;
use tui_app::{AppEnd, Terminal, run};
use tui_files_lib::Folders;
use tui_io::Failed;
use tui_program::{Outcome, Stop};
use tui_system::{Destination, Left, Place, System, place_for, session_outcome, setting};

/// Opens the destination of the chosen path, if there is a place for it, shows the browser, and writes the path if the
/// user quit. If the destination can't be opened, the terminal is not entered.
pub(crate) fn run_browser<
    S: System,
    P: FolderPaths,
    F: Folders + Drop,
    T: Terminal,
    A: Destination,
>(
    system: &S,
    paths: &P,
    browsing: Browsing<F>,
    terminal: &mut T,
    chosen: &mut A,
) -> Outcome<Left, ()>
    ensures { EndsBrowsing F F.lists (S.gives system.now) (P.is_at_folder paths.now)
        (T.observed terminal.old) (T.observed terminal.new) (A.Sink.observed chosen.old) (A.Sink.observed chosen.new)
        (λ place. IsOpened A.Sink.observed A.Destination.is_open_at place (A.Sink.observed chosen.old)) browsing.command browsing.app result }
{
    let Browsing { command, app } = browsing;
    let mut app = app;
    let setting = setting(system)?;
    let place = place_for(system, &command.chosen)?;
    open_at(place, chosen)?;
    let end = run(
        system.alloc(),
        &mut app,
        setting.output,
        setting.size,
        terminal,
    );
    match (place, end) {
        (Some(_), AppEnd::Quit) => {
            write_chosen(system.alloc(), paths, &app, command.wants_folder, chosen)
        }
        _ => session_outcome(end),
    }
}

/// Opens a destination at a place, if there is one.
fn open_at<A: Destination>(place: Option<Place<'_>>, destination: &mut A) -> Outcome<(), ()>
    ensures { Readies (A.Sink.observed destination.old) (A.Sink.observed destination.new)
        (A.Destination.is_open_at destination.new) (option_map place_data place.entry) result }
{
    match place {
        Some(place) => match destination.open(place)? {
            Ok(()) => Ok(()),
            Err(Failed) => Err(Stop::WriteFault),
        },
        None => Ok(()),
    }
}
