//! The program `tui_form`: it shows a form on the terminal that `./live` provides, and writes its answers to a file, to
//! standard output or to standard error.
#![tactic(auto)]

use std::io::IsTerminal;
use std::process::ExitCode;
use tui_form_run::run_form;
use tui_system::{Runtime, TerminalInput, finish};

fn main(rt: HostRuntime) -> ExitCode {
    let system = Runtime::new(
        &rt,
        "tui_form",
        TerminalInput::Keys,
        rt.stdout().is_terminal(),
    );
    let mut answers = system.destination(rt.stderr());
    let outcome = run_form(&system, &mut system.terminal(), &mut answers);
    finish(&rt, &outcome, "tui_form FORM [ANSWERS]")
}
