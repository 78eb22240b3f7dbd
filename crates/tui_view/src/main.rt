//! The program `tui_view`. It shows scenes in the colour depth that the environment gives.
//!
//! `rows` reads a scene in JSON from a file or from standard input, and writes the rows of its screen to standard
//! output. `frames` reads scenes from standard input, one a line, and shows each on the terminal.
#![tactic(auto)]

use std::io;
use std::io::IsTerminal;
use std::process::ExitCode;
use tui_io::StdSink;
use tui_system::{Runtime, TerminalInput, finish};
use tui_view_run::run_view;

fn main(rt: HostRuntime) -> ExitCode {
    let system = Runtime::new(
        &rt,
        "tui_view",
        TerminalInput::Lines,
        rt.stdout().is_terminal(),
    );
    let mut output = StdSink::new(io::writer(&rt));
    let outcome = run_view(&system, &mut system.terminal(), &mut output);
    finish(&rt, &outcome, "tui_view frames | tui_view rows [FILE]")
}
