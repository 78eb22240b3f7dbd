//! The system that a process runs on.

ghost use Rattle.std.specs.Prelude.{◌≡◌, IfOk, IsNone, false, true, ⊤};

use crate::host::Host;
use crate::late::Late;
use crate::opened::{SystemOpened, SystemPlaces};
use crate::reports::print_reason;
use crate::streams::{
    InputStream, StreamTerminal, SystemStreams, TerminalInput, has_own_streams, input, variable,
};
use crate::system::System;
use std::alloc::Global;
use std::env::Args;
use std::io::Write;
use std::{env, io};
use tui_cells::Mem;

/// The system that a process runs on.
#[derive(Drop)]
pub struct Runtime<'r, R> {
    rt: &'r R,
    program: &'r str,
    input: TerminalInput,
    is_output_shown: bool,
}

impl<'r, R: Host> Runtime<'r, R> {
    /// Returns the system of a process, given the handle of `main`, the name of the program, with which the lines on
    /// standard error begin, where the input of its terminal comes from, and whether standard output is a terminal.
    pub fn new(
        rt: &'r R,
        program: &'r str,
        input: TerminalInput,
        is_output_shown: bool,
    ) -> Runtime<'r, R>
        ensures rt { result.rt.now ≡ rt.now }
        ensures program { result.program.now ≡ program.now }
        ensures input { result.input ≡ input }
        ensures shown { result.is_output_shown ≡ is_output_shown }
    {
        Runtime {
            rt,
            program,
            input,
            is_output_shown,
        }
    }

    /// Returns the terminal, which is not open.
    pub fn terminal(&self) -> Late<SystemStreams<'r, R>, StreamTerminal<'r, R>>
        ensures shut { IsNone result.opened }
        ensures rt { result.opener.rt.now ≡ self.now.rt.now }
        ensures program { result.opener.program.now ≡ self.now.program.now }
        ensures input { result.opener.input ≡ self.now.input }
    {
        Late::new(SystemStreams {
            rt: self.rt,
            program: self.program,
            input: self.input,
        })
    }

    /// Returns the destination of what the program gives at its end, which is not open. `errors` writes to standard
    /// error.
    pub fn destination<E: Write + Copy + Drop>(
        &self,
        errors: E,
    ) -> Late<SystemPlaces<'r, R, E>, SystemOpened<'r, R, E>>
        ensures shut { IsNone result.opened }
        ensures rt { result.opener.rt.now ≡ self.now.rt.now }
        ensures program { result.opener.program.now ≡ self.now.program.now }
        ensures errors { result.opener.errors ≡ errors }
    {
        Late::new(SystemPlaces {
            rt: self.rt,
            program: self.program,
            errors,
        })
    }
}

impl<'r, R: Host> System for Runtime<'r, R> {
    ghost use Rattle.tui_system.specs.System.{unknown};

    type Input = InputStream<R>;

    // No clause says what the system gives, since no clause of std does.
    ghost gives = { λ _. unknown };

    fn alloc(&self) -> Global {
        self.rt.alloc()
    }

    fn arguments(&self) -> io::Result<Args> {
        env::args(self.rt)
    }

    fn variable(&self, name: &str) -> Mem<String> {
        variable(self.rt, name)
    }

    fn open(&self, name: &str) -> Mem<InputStream<R>> {
        input(self.rt, self.program, self.input, name)
    }

    fn explain(&self, name: &str, text: &str) {
        print_reason(self.rt, self.program, name, text);
    }

    fn is_output_piped(&self) -> Mem<bool>
        ensures given { IfOk result (λ piped. ⊤) }
        ensures shown { self.now.is_output_shown ≡ true → IfOk result (λ piped. piped ≡ false) }
    {
        Ok(!self.is_output_shown && has_own_streams(self.rt)?)
    }
}
