//! The program `tui_browse`: it shows a file in a pager, on the terminal that `./live` provides.
#![tactic(auto)]

use std::io::IsTerminal;
use std::process::ExitCode;
use tui_browse_run::browse;
use tui_system::{Runtime, TerminalInput, finish};

fn main(rt: HostRuntime) -> ExitCode {
    let system = Runtime::new(
        &rt,
        "tui_browse",
        TerminalInput::Keys,
        rt.stdout().is_terminal(),
    );
    let outcome = browse(&system, &mut system.terminal());
    finish(&rt, &outcome, "tui_browse [--text] FILE")
}
