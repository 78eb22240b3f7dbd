//! Commands that are named by arguments.

ghost use Rattle.std.specs.Prelude.{◌≤◌, List, String, length};
ghost use Rattle.std.specs.declared.alloc.Global.{Global};
ghost use Rattle.tui_program.specs.Transcript.{transcript_of};
ghost use Rattle.tui_program.specs.Outcomes.{EndsBy};
ghost use Rattle.tui_program.specs.Rules.{Rules};
ghost use Rattle.tui_program.specs.Arguments.{IsOnly, most_arguments};

use crate::caller::Caller;
use crate::rejects::Rejects;
use crate::stop::Outcome;
use std::alloc::Global;
use tui_io::{Sink, Source};

/// A command of a program, named by its arguments.
pub trait ProgramCommand: Rejects + Sized {
    // The arguments that name each command, and what it has to do.
    ghost rules: { Rules Self Self.Refusal };

    // No command has more arguments than these; so a few first arguments decide which command all of them name.
    ghost few: { (command : Self) (arguments : List (String Global)) → rules.named command arguments → length arguments ≤ most_arguments };

    /// Returns the one command that the arguments name, if they name any.
    fn from_arguments(arguments: &[String]) -> Option<Self>
        ensures { IsOnly (λ command. rules.named command arguments.now) result };

    /// Runs the command: reads its input, and writes the expected output. Says to the caller, in words, what is wrong with
    /// a rejected input.
    fn run<S: Source, K: Sink, H: Caller>(
        &self,
        alloc: Global,
        source: &mut S,
        sink: &mut K,
        caller: &H,
    ) -> Outcome<(), Self::Refusal>
        requires { (arguments : List (String Global)) × rules.named self.now arguments }
        ensures { EndsBy (rules.task self.now)
            (transcript_of (S.observed source.old) (S.observed source.new) (K.observed sink.old) (K.observed sink.new)) result };
}
