//! The program `tui_pager`. It reads entries and keys in JSON from standard input. It writes the states and the last
//! screen of a pager to standard output.
#![tactic(auto)]

use std::process::ExitCode;
use std::{env, io};
use tui_io::{StdSink, StdSource};
use tui_pager_run::run_program;
use tui_program::Process;

fn main(rt: HostRuntime) -> ExitCode {
    let mut source = StdSource::new(rt.reader());
    let mut sink = StdSink::new(io::writer(&rt));
    let process = Process::new(&rt, "tui_pager", "tui_pager");
    run_program(rt.alloc(), env::args(&rt), &mut source, &mut sink, &process).exit_code()
}
