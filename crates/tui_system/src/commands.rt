//! The command that the system's arguments name, and its file.

ghost use Rattle.std.specs.Prelude.{◌≡◌, ◌≤◌, IfSome, IsNone, List, String, length, ℕ};
ghost use Rattle.std.specs.declared.alloc.Global.{Global};
ghost use Rattle.tui_program.specs.Arguments.{most_arguments};
ghost use Rattle.tui_system.specs.Commands.{IsCommand, IsReadFor};

use crate::system::System;
use arrayvec::ArrayVec;
use std::alloc::Global;
use tui_program::{Outcome, Stop, given_arguments, read_input};

/// A command of a program, with what its arguments name.
pub trait SystemCommand: Sized {
    // The arguments that name a command.
    ghost named: { Self → List (String Global) → Type 0 };

    // No command has more arguments than these; so a few first arguments decide which command all of them name.
    ghost few: { (command : Self) (arguments : List (String Global)) → named command arguments → length arguments ≤ most_arguments };

    /// Returns the command that the arguments name, if they name any.
    fn from_arguments(arguments: ArrayVec<String, 4, Global>) -> Option<Self>
        ensures some { IfSome result (λ command. named command arguments.items) }
        ensures none { IsNone result → (command : Self) → named command arguments.items → ⊥ };
}

/// A command that reads one file.
pub trait FileCommand: SystemCommand {
    // The name of the file.
    ghost file: { Self → List ℕ };

    /// Returns the name of the file.
    fn file(&self) -> &str
        ensures { result.now ≡ file self.now };
}

/// Returns the command that the system's arguments name. Fails with `Usage` if they name none, or the system rejects
/// one of them.
pub fn command_of<C: SystemCommand, R, S: System>(system: &S) -> Outcome<C, R>
    ensures { IsCommand (S.gives system.now) C.named result }
{
    let arguments = given_arguments(system.alloc(), system.arguments())?;
    match C::from_arguments(arguments) {
        Some(command) => Ok(command),
        None => Err(Stop::Usage),
    }
}

/// Returns the command that the system's arguments name, and all bytes of its file. Fails as `command_of` and
/// `read_input` do.
pub fn read_for_command<C: FileCommand + Drop, R, S: System>(system: &S) -> Outcome<(C, Vec<u8>), R>
    ensures { IsReadFor (S.gives system.now) C.named C.file result }
{
    let command = command_of::<C, R, S>(system)?;
    let mut source = system.open(command.file())?;
    let bytes = read_input(system.alloc(), &mut source)?;
    Ok((command, bytes))
}
