//! The arguments of the program.

ghost use Rattle.std.specs.Prelude.{string_bytes};

use arrayvec::ArrayVec;
use std::alloc::Global;
use tui_system::{FileCommand, SystemCommand};

/// The files that the arguments name.
#[derive(Drop)]
pub struct FormFiles {
    /// FORM: the form in JSON.
    pub form: String,
    /// ANSWERS: the destination of the answers. If it is left out, they go to standard output if that is the user's and
    /// no terminal, or else to standard error.
    pub answers: Option<String>,
}

impl SystemCommand for FormFiles {
    ghost use Rattle.tui_form_run.specs.Arguments.{Name, few_arguments};

    ghost named = { Name };

    ghost few = { few_arguments };

    fn from_arguments(arguments: ArrayVec<String, 4, Global>) -> Option<FormFiles> {
        let mut arguments = arguments;
        let answers = if arguments.len() == 2 {
            arguments.pop()
        } else {
            None
        };
        if arguments.len() == 1 {
            let form = arguments.pop()?;
            Some(FormFiles { form, answers })
        } else {
            None
        }
    }
}

impl FileCommand for FormFiles {
    ghost file = { λ files. string_bytes files.form };

    fn file(&self) -> &str {
        self.form.as_str()
    }
}
