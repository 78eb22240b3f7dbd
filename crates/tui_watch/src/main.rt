//! The program `tui_watch`: a dashboard of the machine, on the terminal that `./live` provides.
#![tactic(auto)]

mod folder;

use crate::folder::SystemFolders;
use std::io::IsTerminal;
use std::process::ExitCode;
use tui_system::{Runtime, TerminalInput, finish};
use tui_watch_run::watch;

fn main(rt: HostRuntime) -> ExitCode {
    let system = Runtime::new(
        &rt,
        "tui_watch",
        TerminalInput::Keys,
        rt.stdout().is_terminal(),
    );
    let outcome = watch(&system, &SystemFolders { rt: &rt }, &mut system.terminal());
    finish(&rt, &outcome, "tui_watch [FOLDER]")
}
