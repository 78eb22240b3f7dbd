//! The outcome of a run of the program.

use crate::bad_input::BadInput;
use crate::field::PagerField;
use std::process::ExitCode;
use tui_program::{Outcome, Stop};

/// The outcome of a run. Only `Ok` has written the output completely. The outcomes from `Usage` to `BadInput` have
/// written one line that says what is wrong.
#[derive(Clone, Copy, Debug, PartialEq, Eq)]
pub enum PagerEnded {
    /// Everything was read and written.
    Ok,
    /// There are arguments.
    Usage,
    /// The input has more than 1,048,576 bytes.
    TooLong,
    /// The input is not JSON in UTF-8.
    NotJson,
    /// A field of the input, or of the entry or the key with this number, from 0, is missing or of the wrong kind.
    BadInput {
        at: Option<usize>,
        field: PagerField,
    },
    /// A read failed. Nothing was written.
    ReadFault,
    /// A write failed. The sink has the first bytes of the output.
    WriteFault,
    /// Out of memory. Nothing was written.
    NoMemory,
}

impl From<Outcome<(), BadInput>> for PagerEnded {
    ghost use Rattle.std.specs.Prelude.{◌≡◌};
    ghost use Rattle.tui_program.specs.Stops.{IsOfCommand};
    ghost use Rattle.tui_pager_run.specs.Ended.{outcome_of};

    ghost from_gives = { λ outcome ended. IsOfCommand outcome → outcome_of ended ≡ outcome };

    fn from(outcome: Outcome<(), BadInput>) -> PagerEnded {
        match outcome {
            Ok(()) => PagerEnded::Ok,
            Err(Stop::Usage) => PagerEnded::Usage,
            Err(Stop::TooLong) => PagerEnded::TooLong,
            Err(Stop::NotJson | Stop::NotText) => PagerEnded::NotJson,
            Err(Stop::Rejected(BadInput { at, field })) => { PagerEnded::BadInput { at, field } }
            Err(Stop::ReadFault | Stop::ManyReads) => PagerEnded::ReadFault,
            Err(Stop::WriteFault) => PagerEnded::WriteFault,
            Err(Stop::NoMemory) => PagerEnded::NoMemory,
        }
    }
}

impl PagerEnded {
    ghost use Rattle.std.specs.Prelude.{◌≡◌};
    ghost use Rattle.std.specs.Process.{exit_status};
    ghost use Rattle.tui_pager_run.specs.Ended.{status_of};

    /// Returns the exit status of the program.
    pub fn status(&self) -> u8
        ensures { result ≡ status_of self.now }
    {
        match self {
            PagerEnded::Ok => 0,
            PagerEnded::Usage => 2,
            PagerEnded::TooLong => 3,
            PagerEnded::NotJson => 4,
            PagerEnded::BadInput { .. } => 5,
            PagerEnded::ReadFault => 6,
            PagerEnded::WriteFault => 7,
            PagerEnded::NoMemory => 8,
        }
    }

    /// Returns the exit status as an `ExitCode` for `main`.
    pub fn exit_code(&self) -> ExitCode
        ensures { exit_status result ≡ status_of self.now }
    {
        ExitCode::from(self.status())
    }
}
