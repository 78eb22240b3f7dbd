//! Who runs a program, and what is said to them.

use crate::cleanup::Cleanup;
use std::io::Eprint;

/// Takes what is said in words about a rejected input.
pub trait Explainer {
    /// Writes a line in words about a rejected input on standard error. If that fails, nothing changes.
    fn explain(&self, text: &str);
}

/// Who runs a program and reads what it says in words. No outcome of a run depends on it.
pub trait Caller: Explainer {
    /// Returns what happens to the values of a run at its end.
    fn cleanup(&self) -> Cleanup;

    /// Writes a line on standard error that says how the program is used. If that fails, nothing changes. A caller to whom
    /// this is nothing new leaves it out.
    fn print_usage(&self) {}
}

/// A caller that continues after the run: values are dropped, and nothing is said.
#[derive(Clone, Copy, Debug, PartialEq, Eq)]
pub struct Library;

impl Explainer for Library {
    fn explain(&self, _text: &str) {}
}

impl Caller for Library {
    fn cleanup(&self) -> Cleanup {
        Cleanup::Dropped
    }
}

/// A process that ends with the run: values are left to the system, and standard error says what is wrong.
#[derive(Drop)]
pub struct Process<'h, H> {
    rt: &'h H,
    program: &'h str,
    usage: &'h str,
}

impl<'h, H: Eprint> Process<'h, H> {
    /// Returns the process, given the handle of `main`, the name of the program, with which the lines about its input
    /// begin, and how the program is used, in a form such as `tui_show scene | tui_show demo N`.
    pub fn new(rt: &'h H, program: &'h str, usage: &'h str) -> Process<'h, H> {
        Process { rt, program, usage }
    }
}

impl<'h, H: Eprint> Explainer for Process<'h, H> {
    fn explain(&self, text: &str) {
        let program = self.program;
        let _written = eprintln!(self.rt; "{program}: {text}");
    }
}

impl<'h, H: Eprint> Caller for Process<'h, H> {
    fn cleanup(&self) -> Cleanup {
        Cleanup::Left
    }

    fn print_usage(&self) {
        let usage = self.usage;
        let _written = eprintln!(self.rt; "usage: {usage}");
    }
}
