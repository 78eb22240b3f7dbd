//! The program `tui_panes`: it reads a tree of panes and changes in JSON from standard input. It writes the screen, or
//! which leaf is at a position, to standard output.
#![tactic(auto)]

use std::process::ExitCode;
use std::{env, io};
use tui_io::{StdSink, StdSource};
use tui_panes_run::run_program;
use tui_program::Process;

fn main(rt: HostRuntime) -> ExitCode {
    let mut source = StdSource::new(rt.reader());
    let mut sink = StdSink::new(io::writer(&rt));
    let process = Process::new(&rt, "tui_panes", "tui_panes [at X Y]");
    run_program(rt.alloc(), env::args(&rt), &mut source, &mut sink, &process).exit_code()
}
