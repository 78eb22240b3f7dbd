//! The outcome of a run of the program.

ghost use Rattle.std.specs.Prelude.{◌≡◌};

use crate::field::ReportField;
use crate::refusal::PagesRefusal;
use std::process::ExitCode;
use tui_program::{Outcome, Stop};

/// The outcome of a run. Only `Ok` has written the output completely. The outcomes from `Usage` to `TooTall` have
/// written one line that says what is wrong.
#[derive(Clone, Copy, Debug, PartialEq, Eq)]
pub enum PagesEnded {
    /// Everything was read and written.
    Ok,
    /// The arguments name no command.
    Usage,
    /// The input has more than 1,048,576 bytes.
    TooLong,
    /// The input is not JSON in UTF-8.
    NotJson,
    /// A field of the input, or of the column or the record with this number, from 0, is missing or of the wrong kind.
    BadInput {
        at: Option<usize>,
        field: ReportField,
    },
    /// A record has more than 4096 lines. `place` is the number of the first such record, from 0.
    TooTall {
        place: usize,
    },
    /// A read failed. Nothing was written.
    ReadFault,
    /// A write failed. The sink has the first bytes of the output.
    WriteFault,
    /// Out of memory. Nothing was written, or the first pages, each of them complete.
    NoMemory,
}

impl From<Outcome<(), PagesRefusal>> for PagesEnded {
    ghost use Rattle.tui_program.specs.Stops.{IsOfCommand};
    ghost use Rattle.tui_pages_run.specs.Ended.{outcome_of};

    ghost from_gives = { λ outcome ended. IsOfCommand outcome → outcome_of ended ≡ outcome };

    fn from(outcome: Outcome<(), PagesRefusal>) -> PagesEnded {
        match outcome {
            Ok(()) => PagesEnded::Ok,
            Err(Stop::Usage) => PagesEnded::Usage,
            Err(Stop::TooLong) => PagesEnded::TooLong,
            Err(Stop::NotJson | Stop::NotText) => PagesEnded::NotJson,
            Err(Stop::Rejected(PagesRefusal::BadInput { at, field })) => {
                PagesEnded::BadInput { at, field }
            }
            Err(Stop::Rejected(PagesRefusal::TooTall { place })) => {
                PagesEnded::TooTall { place }
            }
            Err(Stop::ReadFault | Stop::ManyReads) => PagesEnded::ReadFault,
            Err(Stop::WriteFault) => PagesEnded::WriteFault,
            Err(Stop::NoMemory) => PagesEnded::NoMemory,
        }
    }
}

impl PagesEnded {
    ghost use Rattle.std.specs.Process.{exit_status};
    ghost use Rattle.tui_pages_run.specs.Ended.{status_of};

    /// Returns the exit status of the program.
    pub fn status(&self) -> u8
        ensures { result ≡ status_of self.now }
    {
        match self {
            PagesEnded::Ok => 0,
            PagesEnded::Usage => 2,
            PagesEnded::TooLong => 3,
            PagesEnded::NotJson => 4,
            PagesEnded::BadInput { .. } => 5,
            PagesEnded::ReadFault => 6,
            PagesEnded::WriteFault => 7,
            PagesEnded::NoMemory => 8,
            PagesEnded::TooTall { .. } => 9,
        }
    }

    /// Returns the exit status as an `ExitCode` for `main`.
    pub fn exit_code(&self) -> ExitCode
        ensures { exit_status result ≡ status_of self.now }
    {
        ExitCode::from(self.status())
    }
}
