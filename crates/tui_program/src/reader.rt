//! Commands of a program in which all commands read a JSON value.

ghost use Rattle.std.specs.Prelude.{◌≤◌, List, String, length};
ghost use Rattle.std.specs.declared.alloc.Global.{Global};
ghost use Rattle.tui_program.specs.Rules.{reading_rules};
ghost use Rattle.tui_program.specs.Arguments.{IsOnly, most_arguments};

use crate::caller::Caller;
use crate::command::ProgramCommand;
use crate::job::{Job, run_json};
use crate::stop::Outcome;
use std::alloc::Global;
use tui_io::{Sink, Source};

/// A command of a program in which all commands read a JSON value. It is a `ProgramCommand` that runs by `run_json`.
pub trait JsonCommand: Job + Sized {
    // The arguments that name each command.
    ghost named: { Self → List (String Global) → Type 0 };

    // No command has more arguments than these.
    ghost few: { (command : Self) (arguments : List (String Global)) → named command arguments → length arguments ≤ most_arguments };

    /// Returns the one command that the arguments name, if they name any.
    fn json_command_of(arguments: &[String]) -> Option<Self>
        ensures { IsOnly (λ command. named command arguments.now) result };
}

impl<C: JsonCommand> ProgramCommand for C {
    ghost rules = { reading_rules C.named C.job_rules };

    ghost few = { C.JsonCommand.few };

    fn from_arguments(arguments: &[String]) -> Option<C> {
        C::json_command_of(arguments)
    }

    fn run<S: Source, K: Sink, H: Caller>(
        &self,
        alloc: Global,
        source: &mut S,
        sink: &mut K,
        caller: &H,
    ) -> Outcome<(), C::Refusal> {
        run_json(self, alloc, source, sink, caller)
    }
}
