//! The commands of the program: their arguments and their inputs.

ghost use Rattle.std.specs.Prelude.{◌≡◌, codes};
ghost use Rattle.tui_program.specs.Arguments.{StartWith};
ghost use Rattle.tui_view_run.specs.Arguments.{Name, input_name};

use arrayvec::ArrayVec;
use std::alloc::Global;
use tui_program::{is_single_argument, start_with};
use tui_system::SystemCommand;

/// A command that the arguments name.
#[derive(Drop)]
pub enum ViewCommand {
    /// `frames`: reads scenes from standard input, one a line, and shows each on the terminal.
    Frames,
    /// `rows`, alone or with FILE: reads a scene, and writes the rows of its screen in colour.
    Rows(Option<String>),
}

impl ViewCommand {
    /// Returns the name of the input: FILE, or `-`, standard input, if there is no FILE.
    pub fn input_name(&self) -> &str
        ensures { result.now ≡ input_name self.now }
    {
        match self {
            ViewCommand::Rows(Some(file)) => file.as_str(),
            ViewCommand::Rows(None) | ViewCommand::Frames => "-",
        }
    }
}

impl SystemCommand for ViewCommand {
    ghost use Rattle.tui_view_run.specs.Arguments.{Name, few_arguments};

    ghost named = { Name };

    ghost few = { few_arguments };

    #[tactic(auto, using(crate::specs::Arguments::two_with_file))]
    fn from_arguments(arguments: ArrayVec<String, 4, Global>) -> Option<ViewCommand> {
        if is_single_argument(arguments.as_slice(), "frames") {
            Some(ViewCommand::Frames)
        } else if is_single_argument(arguments.as_slice(), "rows") {
            Some(ViewCommand::Rows(None))
        } else if start_with(arguments.as_slice(), 2, "rows") {
            Some(rows_of_file(arguments))
        } else {
            None
        }
    }
}

/// Returns `rows` with the last argument as FILE.
fn rows_of_file(arguments: ArrayVec<String, 4, Global>) -> ViewCommand
    requires { StartWith (codes "rows") 2 arguments.items }
    ensures { Name result arguments.items }
{
    let mut arguments = arguments;
    ViewCommand::Rows(arguments.pop())
}
