//! The outcome of a run of the program.

ghost use Rattle.std.specs.Prelude.{◌≡◌};

use std::process::ExitCode;
use tui_program::{Outcome, Stop};
use tui_schema::{BadField, Field};

/// The outcome of a run. Only `Ok` has written the screen completely. The outcomes from `Usage` to `BadField` have
/// written one line that says what is wrong.
#[derive(Clone, Copy, Debug, PartialEq, Eq)]
pub enum Ended {
    /// Everything was read, drawn and written.
    Ok,
    /// The arguments name no command.
    Usage,
    /// The input has more than 1,048,576 bytes.
    TooLong,
    /// The input is not JSON in UTF-8.
    NotJson,
    /// A field of the scene, or of the item with this number, from 0, is missing or of the wrong kind.
    BadField { item: Option<usize>, field: Field },
    /// A read failed. Nothing was written.
    ReadFault,
    /// A write failed. The sink has the first bytes of the output.
    WriteFault,
    /// Out of memory. Nothing was written.
    NoMemory,
}

impl From<Outcome<(), BadField>> for Ended {
    ghost use Rattle.tui_program.specs.Stops.{IsOfCommand};
    ghost use Rattle.tui_show_run.specs.Ended.{outcome_of};

    ghost from_gives = { λ outcome ended. IsOfCommand outcome → outcome_of ended ≡ outcome };

    fn from(outcome: Outcome<(), BadField>) -> Ended {
        match outcome {
            Ok(()) => Ended::Ok,
            Err(Stop::Usage) => Ended::Usage,
            Err(Stop::TooLong) => Ended::TooLong,
            Err(Stop::NotJson | Stop::NotText) => Ended::NotJson,
            Err(Stop::Rejected(BadField { item, field })) => Ended::BadField { item, field },
            Err(Stop::ReadFault | Stop::ManyReads) => Ended::ReadFault,
            Err(Stop::WriteFault) => Ended::WriteFault,
            Err(Stop::NoMemory) => Ended::NoMemory,
        }
    }
}

impl Ended {
    ghost use Rattle.std.specs.Process.{exit_status};
    ghost use Rattle.tui_show_run.specs.Ended.{status_of};

    /// Returns the exit status of the program.
    pub fn status(&self) -> u8
        ensures { result ≡ status_of self.now }
    {
        match self {
            Ended::Ok => 0,
            Ended::Usage => 2,
            Ended::TooLong => 3,
            Ended::NotJson => 4,
            Ended::BadField { .. } => 5,
            Ended::ReadFault => 6,
            Ended::WriteFault => 7,
            Ended::NoMemory => 8,
        }
    }

    /// Returns the exit status as an `ExitCode` for `main`.
    pub fn exit_code(&self) -> ExitCode
        ensures { exit_status result ≡ status_of self.now }
    {
        ExitCode::from(self.status())
    }
}
