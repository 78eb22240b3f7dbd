//! The program `tui_files`: a browser of folders, on the terminal that `./live` provides. It writes the chosen path to a
//! file or to standard output.
#![tactic(auto)]

mod system;

use crate::system::SystemFolders;
use std::io::IsTerminal;
use std::process::ExitCode;
use tui_files_run::browse_files;
use tui_system::{Runtime, TerminalInput, finish};

/// The name of the program, with which its lines on standard error begin.
pub(crate) const NAME: &str = "tui_files";

fn main(rt: HostRuntime) -> ExitCode {
    let system = Runtime::new(&rt, NAME, TerminalInput::Keys, rt.stdout().is_terminal());
    let folders = SystemFolders { rt: &rt };
    let mut chosen = system.destination(rt.stderr());
    let outcome = browse_files(
        &system,
        &folders,
        folders,
        &mut system.terminal(),
        &mut chosen,
    );
    finish(&rt, &outcome, "tui_files [--folder] [FOLDER [CHOSEN]]")
}
