//! How sessions end.

ghost use Rattle.std.specs.Prelude.{◌≡◌};
ghost use Rattle.tui_system.specs.Left.{left_of};

use tui_app::AppEnd;
use tui_program::{Done, Outcome, Stop};

/// How the user left a session.
#[derive(Clone, Copy, Debug, PartialEq, Eq)]
pub enum Left {
    /// The app quit.
    Quit,
    /// The input of keys has ended.
    Ended,
}

impl Done for Left {
    ghost status = { λ _. 0 };

    fn status(&self) -> u8 {
        0
    }
}

/// Returns the outcome of a run, given why its session ended.
pub fn session_outcome<R>(end: AppEnd) -> Outcome<Left, R>
    ensures { result ≡ left_of end }
{
    match end {
        AppEnd::Quit => Ok(Left::Quit),
        AppEnd::Ended => Ok(Left::Ended),
        AppEnd::ReadFault => Err(Stop::ReadFault),
        AppEnd::WriteFault => Err(Stop::WriteFault),
        AppEnd::NoMemory => Err(Stop::NoMemory),
        AppEnd::ManyReads => Err(Stop::ManyReads),
    }
}
