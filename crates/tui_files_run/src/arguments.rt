//! The arguments of the program.

ghost use Rattle.std.specs.Prelude.{◌≡◌, ◌<◌, ◌++◌, [], IfSome, IsNone, length, option_to_list};
ghost use Rattle.tui_files_run.specs.Arguments.{ArePaths};

use arrayvec::{ArrayVec, IntoIter};
use std::alloc::Global;
use tui_system::SystemCommand;

/// What the arguments name: `--folder`, FOLDER and CHOSEN, in this order, of which each but FOLDER before CHOSEN may be
/// left out.
#[derive(Drop)]
pub struct FilesCommand {
    /// Whether the path to write is that of a folder.
    pub wants_folder: bool,
    /// The folder to begin in; the current one if it is left out.
    pub folder: Option<String>,
    /// The file for the chosen path.
    pub chosen: Option<String>,
}

impl SystemCommand for FilesCommand {
    ghost use Rattle.tui_files_run.specs.Arguments.{Name, few_arguments};

    ghost named = { Name };

    ghost few = { few_arguments };

    fn from_arguments(arguments: ArrayVec<String, 4, Global>) -> Option<FilesCommand> {
        let mut rest = arguments.into_iter();
        match rest.next() {
            None => Some(FilesCommand {
                wants_folder: false,
                folder: None,
                chosen: None,
            }),
            Some(word) if word.as_str() == "--folder" => {
                let folder = rest.next();
                with_chosen(true, folder, rest)
            }
            Some(folder) => with_chosen(false, Some(folder), rest),
        }
    }
}

/// Returns the command with FOLDER, if it is given, and with the rest of the arguments as CHOSEN, which may be left out.
/// Returns None if there are more arguments.
fn with_chosen(
    wants_folder: bool,
    folder: Option<String>,
    rest: IntoIter<String, 4, Global>,
) -> Option<FilesCommand>
    requires { IsNone folder → rest ≡ [] }
    ensures wants { IfSome result (λ command. command.wants_folder ≡ wants_folder) }
    ensures paths { IfSome result (λ command. ArePaths command.folder command.chosen (option_to_list folder ++ rest)) }
    ensures none { IsNone result → 1 < length rest }
{
    let mut rest = rest;
    let chosen = rest.next();
    match rest.next() {
        None => Some(FilesCommand {
            wants_folder,
            folder,
            chosen,
        }),
        Some(_) => None,
    }
}
