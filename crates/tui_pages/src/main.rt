//! The program `tui_pages`. It reads a report in JSON from standard input, and writes its pages to standard output.
#![tactic(auto)]

use std::process::ExitCode;
use std::{env, io};
use tui_io::{StdSink, StdSource};
use tui_pages_run::run_program;
use tui_program::Process;

fn main(rt: HostRuntime) -> ExitCode {
    let mut source = StdSource::new(rt.reader());
    let mut sink = StdSink::new(io::writer(&rt));
    let process = Process::new(&rt, "tui_pages", "tui_pages [count]");
    run_program(rt.alloc(), env::args(&rt), &mut source, &mut sink, &process).exit_code()
}
