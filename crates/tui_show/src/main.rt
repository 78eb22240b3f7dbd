//! The program `tui_show`. It reads a scene in JSON from standard input, and writes the drawn screen to standard
//! output.
#![tactic(auto)]

use std::process::ExitCode;
use std::{env, io};
use tui_io::{StdSink, StdSource};
use tui_program::Process;
use tui_show_run::run_program;

fn main(rt: HostRuntime) -> ExitCode {
    let mut source = StdSource::new(rt.reader());
    let mut sink = StdSink::new(io::writer(&rt));
    let process = Process::new(&rt, "tui_show", "tui_show scene | tui_show demo N");
    run_program(rt.alloc(), env::args(&rt), &mut source, &mut sink, &process).exit_code()
}
