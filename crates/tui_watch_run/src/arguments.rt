//! The arguments of the program.

use arrayvec::ArrayVec;
use std::alloc::Global;
use tui_system::SystemCommand;

/// What the arguments name: FOLDER, which may be left out.
#[derive(Drop)]
pub struct WatchCommand {
    pub folder: Option<String>,
}

impl SystemCommand for WatchCommand {
    ghost use Rattle.tui_watch_run.specs.Arguments.{Name, few_arguments};

    ghost named = { Name };

    ghost few = { few_arguments };

    fn from_arguments(arguments: ArrayVec<String, 4, Global>) -> Option<WatchCommand> {
        let mut arguments = arguments;
        if arguments.len() > 1 {
            return None;
        }
        Some(WatchCommand {
            folder: arguments.pop(),
        })
    }
}
