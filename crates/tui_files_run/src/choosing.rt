//! The path that was chosen.

ghost use Rattle.std.specs.Prelude.{IfOk, string_bytes, true};
ghost use Rattle.tui_files_lib.specs.Browsing.{chosen_path};
ghost use Rattle.tui_files_run.specs.Chosen.{EndsWriting, IsChosen};

use crate::paths::FolderPaths;
use std::alloc::Global;
use std::path::Path;
use tui_cells::Mem;
use tui_files_lib::{FilesApp, Folders};
use tui_io::{Sink, write_all};
use tui_program::Outcome;
use tui_system::Left;

/// Writes the selected path, or its folder if a folder is wanted, and a newline. Fails with `WriteFault` if the sink has
/// taken a first part of the bytes, but not all of them, and with `NoMemory` if nothing was written.
pub(crate) fn write_chosen<P: FolderPaths, F: Folders + Drop, K: Sink>(
    alloc: Global,
    paths: &P,
    app: &FilesApp<F>,
    wants_folder: bool,
    sink: &mut K,
) -> Outcome<Left, ()>
    ensures { EndsWriting (IsChosen (P.is_at_folder paths.now) wants_folder (chosen_path app.now.browser))
        (K.observed sink.old) (K.observed sink.new) result }
{
    let path = app.chosen(alloc)?;
    let mut line = wanted_path(alloc, paths, path, wants_folder)?;
    line.push('\n')?;
    write_all(sink, line.as_bytes())?;
    Ok(Left::Quit)
}

/// Returns the selected path itself, or its folder if a folder is wanted.
fn wanted_path<P: FolderPaths>(
    alloc: Global,
    paths: &P,
    path: String,
    wants_folder: bool,
) -> Mem<String>
    ensures { IfOk result (λ wanted. IsChosen (P.is_at_folder paths.now) wants_folder (string_bytes path) (string_bytes wanted)) }
{
    if wants_folder {
        folder_of(alloc, paths, path)
    } else {
        Ok(path)
    }
}

/// Returns the path itself if it is that of a folder, or else the folder that it lies in.
fn folder_of<P: FolderPaths>(alloc: Global, paths: &P, path: String) -> Mem<String>
    ensures { IfOk result (λ folder. IsChosen (P.is_at_folder paths.now) true (string_bytes path) (string_bytes folder)) }
{
    if paths.is_folder(path.as_str())? {
        return Ok(path);
    }
    match Path::new(path.as_str()).parent() {
        Some(folder) => Ok(String::from_str(alloc, folder.as_str())?),
        None => Ok(path),
    }
}
