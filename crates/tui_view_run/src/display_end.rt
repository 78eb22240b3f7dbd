//! The outcome of `frames`.

ghost use Rattle.std.specs.Prelude.{◌≡◌};
ghost use Rattle.tui_view_run.specs.DisplayOutcome.{display_outcome};

use tui_display::DisplayEnd;
use tui_program::{Outcome, Stop};

/// Returns the outcome of `frames`, given why the display ended.
pub fn display_outcome<R>(end: DisplayEnd) -> Outcome<(), R>
    ensures { result ≡ display_outcome end }
{
    match end {
        DisplayEnd::Ended => Ok(()),
        DisplayEnd::TooLong => Err(Stop::TooLong),
        DisplayEnd::ReadFault => Err(Stop::ReadFault),
        DisplayEnd::ManyReads => Err(Stop::ManyReads),
        DisplayEnd::WriteFault => Err(Stop::WriteFault),
        DisplayEnd::NoMemory => Err(Stop::NoMemory),
    }
}
