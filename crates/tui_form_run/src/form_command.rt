//! The command of the program.

use crate::bad_form::BadForm;
use tui_io::{Sink, WriteFault};
use tui_program::{Rejects, write_refused_field};

/// The one command of the program, with FORM, or FORM and ANSWERS as arguments.
pub(crate) struct FormCommand;

impl Rejects for FormCommand {
    ghost use Rattle.tui_form_run.specs.Refusals.{refusal_line};

    type Refusal = BadForm;

    ghost line = { refusal_line };

    fn reject<K: Sink>(refusal: BadForm, sink: &mut K) -> Result<(), WriteFault> {
        write_refused_field(refusal.key.name(), refusal.at, sink)
    }
}
