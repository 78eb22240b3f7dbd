//! The browser that a run shows.

ghost use Rattle.std.specs.Prelude.{◌≡◌};
ghost use Rattle.tui_files_run.specs.Browsing.{BeginsOrStops, first_folder};

use crate::arguments::FilesCommand;
use crate::paths::FolderPaths;
use std::alloc::Global;
use tui_files_lib::{FilesApp, Folders};
use tui_program::{Outcome, Stop};

/// A browser, and the command that it was begun for.
#[derive(Drop)]
pub(crate) struct Browsing<F> {
    pub(crate) command: FilesCommand,
    pub(crate) app: FilesApp<F>,
}

/// Returns a browser of the folder that a command names, at its absolute path. Fails with `ReadFault` if there is nothing
/// at the path, or it can't be read as a folder.
pub(crate) fn begin<P: FolderPaths, F: Folders + Drop>(
    alloc: Global,
    paths: &P,
    folders: F,
    command: FilesCommand,
) -> Outcome<Browsing<F>, ()>
    ensures { BeginsOrStops
        (record { lists = F.lists folders; resolves = P.resolves paths.now; is_folder = P.is_at_folder paths.now })
        command result }
{
    let Some(path) = paths.resolve(first_folder(&command.folder))? else {
        return Err(Stop::ReadFault);
    };
    match FilesApp::new(alloc, folders, path.as_str())? {
        Some(app) => Ok(Browsing { command, app }),
        None => Err(Stop::ReadFault),
    }
}

/// Returns the folder to begin in.
fn first_folder(named: &Option<String>) -> &str
    ensures { result.now ≡ first_folder named.now }
{
    match named {
        Some(folder) => folder.as_str(),
        None => ".",
    }
}
