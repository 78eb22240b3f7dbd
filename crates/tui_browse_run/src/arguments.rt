//! The arguments of the program.

ghost use Rattle.std.specs.Prelude.{◌≡◌, IfSome, IsNone, List, String, length, string_bytes};
ghost use Rattle.std.specs.declared.alloc.Global.{Global};
ghost use Rattle.tui_browse_run.specs.Arguments.{HaveFormat, Name, NamesFile};
ghost use Rattle.tui_browse_run.specs.declared.format.Format.{Format};
ghost use Rattle.tui_program.specs.Arguments.{IsOnly};

use crate::format::Format;
use arrayvec::ArrayVec;
use std::alloc::Global;
use tui_program::start_with;
use tui_system::{FileCommand, SystemCommand};

/// What the arguments name: FILE alone is JSON entries, and FILE after `--text` is text.
#[derive(Drop)]
pub struct BrowseCommand {
    pub format: Format,
    pub file: String,
}

impl SystemCommand for BrowseCommand {
    ghost use Rattle.tui_browse_run.specs.Arguments.{Name, few_arguments};

    ghost named = { Name };

    ghost few = { few_arguments };

    fn from_arguments(arguments: ArrayVec<String, 4, Global>) -> Option<BrowseCommand> {
        let format = format_of(arguments.as_slice())?;
        Some(BrowseCommand {
            format,
            file: last(arguments, format)?,
        })
    }
}

impl FileCommand for BrowseCommand {
    ghost file = { λ command. string_bytes command.file };

    fn file(&self) -> &str {
        self.file.as_str()
    }
}

fn format_of(arguments: &[String]) -> Option<Format>
    ensures { IsOnly (λ format. HaveFormat format arguments.now) result }
{
    if arguments.len() == 1 {
        Some(Format::Entries)
    } else if start_with(arguments, 2, "--text") {
        Some(Format::Text)
    } else {
        None
    }
}

/// Returns the last argument.
fn last(arguments: ArrayVec<String, 4, Global>, format: Format) -> Option<String>
    requires { HaveFormat format arguments.items }
    ensures some { IfSome result (λ file. NamesFile format file arguments.items) }
    ensures none { IsNone result → ⊥ }
{
    let mut arguments = arguments;
    arguments.pop()
}
