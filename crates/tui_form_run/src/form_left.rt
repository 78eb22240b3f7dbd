//! How a form was left.

ghost use Rattle.std.specs.Prelude.{◌≡◌};
ghost use Rattle.tui_form_run.specs.FormLeft.{left_as};

use tui_app::AppEnd;
use tui_form_lib::Outcome as FormOutcome;
use tui_program::{Done, Outcome, Stop};

/// How a form was left that was shown.
#[derive(Clone, Copy, Debug, PartialEq, Eq)]
pub enum FormLeft {
    /// The user accepted the form, and its answers were written.
    Accepted,
    /// The user left the form.
    Left,
    /// The input of keys has ended.
    Ended,
}

impl Done for FormLeft {
    ghost use Rattle.tui_form_run.specs.FormLeft.{status_of};

    ghost status = { status_of };

    fn status(&self) -> u8 {
        match self {
            FormLeft::Accepted => 0,
            FormLeft::Left | FormLeft::Ended => 1,
        }
    }
}

/// Returns the outcome of a run, given why its session ended and what became of the form. A form has answers only if the
/// session quit with the form accepted.
pub(crate) fn left_as<R>(end: AppEnd, outcome: FormOutcome) -> Outcome<FormLeft, R>
    ensures { result ≡ left_as end outcome }
{
    match end {
        AppEnd::Quit => match outcome {
            FormOutcome::Accepted => Ok(FormLeft::Accepted),
            _ => Ok(FormLeft::Left),
        },
        AppEnd::Ended => Ok(FormLeft::Ended),
        AppEnd::ReadFault => Err(Stop::ReadFault),
        AppEnd::WriteFault => Err(Stop::WriteFault),
        AppEnd::NoMemory => Err(Stop::NoMemory),
        AppEnd::ManyReads => Err(Stop::ManyReads),
    }
}
