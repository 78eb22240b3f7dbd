//! How a run of the program ends.

use crate::field::PaneField;
use crate::refusal::PanesRefusal;
use std::process::ExitCode;
use tui_program::{Outcome, Stop};
use tui_schema::{BadField, Field};

/// How a run ends. Only `Ok` has written the output in full. `Usage`, `TooLong`, `NotJson`, `BadPane` and `BadField`
/// have written one line that says so.
#[derive(Clone, Copy, Debug, PartialEq, Eq)]
pub enum PanesEnded {
    /// The input was read, and the output was written.
    Ok,
    /// The arguments name no command.
    Usage,
    /// The input has more than 1,048,576 bytes.
    TooLong,
    /// The input is not JSON in UTF-8.
    NotJson,
    /// A field is missing or of the wrong kind. With `pane` it is a field of the pane of this number; otherwise it is a
    /// field of the input. Panes are numbered from 0, a split before its parts, and its parts in order.
    BadPane {
        pane: Option<usize>,
        field: PaneField,
    },
    /// A field of the widget of this number is missing or of the wrong kind. The widget of a leaf has the leaf's
    /// number, from 0. The widget of a change has the number of leaves plus the index of the change, from 0.
    BadField {
        item: Option<usize>,
        field: Field,
    },
    /// A read failed; nothing was written.
    ReadFault,
    /// A write failed; the sink has a first part of the output.
    WriteFault,
    /// Memory ran out; nothing was written.
    NoMemory,
}

impl From<Outcome<(), PanesRefusal>> for PanesEnded {
    ghost use Rattle.std.specs.Prelude.{◌≡◌};
    ghost use Rattle.tui_program.specs.Stops.{IsOfCommand};
    ghost use Rattle.tui_panes_run.specs.Ended.{outcome_of};

    ghost from_gives = { λ outcome ended. IsOfCommand outcome → outcome_of ended ≡ outcome };

    fn from(outcome: Outcome<(), PanesRefusal>) -> PanesEnded {
        match outcome {
            Ok(()) => PanesEnded::Ok,
            Err(Stop::Usage) => PanesEnded::Usage,
            Err(Stop::TooLong) => PanesEnded::TooLong,
            Err(Stop::NotJson | Stop::NotText) => PanesEnded::NotJson,
            Err(Stop::Rejected(PanesRefusal::BadPane { pane, field })) => {
                PanesEnded::BadPane { pane, field }
            }
            Err(Stop::Rejected(PanesRefusal::BadField(BadField { item, field }))) => {
                PanesEnded::BadField { item, field }
            }
            Err(Stop::ReadFault | Stop::ManyReads) => PanesEnded::ReadFault,
            Err(Stop::WriteFault) => PanesEnded::WriteFault,
            Err(Stop::NoMemory) => PanesEnded::NoMemory,
        }
    }
}

impl PanesEnded {
    ghost use Rattle.std.specs.Prelude.{◌≡◌};
    ghost use Rattle.std.specs.Process.{exit_status};
    ghost use Rattle.tui_panes_run.specs.Ended.{status_of};

    /// Returns the exit status of the program.
    pub fn status(&self) -> u8
        ensures { result ≡ status_of self.now }
    {
        match self {
            PanesEnded::Ok => 0,
            PanesEnded::Usage => 2,
            PanesEnded::TooLong => 3,
            PanesEnded::NotJson => 4,
            PanesEnded::BadPane { .. } => 5,
            PanesEnded::BadField { .. } => 5,
            PanesEnded::ReadFault => 6,
            PanesEnded::WriteFault => 7,
            PanesEnded::NoMemory => 8,
        }
    }

    /// Returns the exit status as `main` returns it.
    pub fn exit_code(&self) -> ExitCode
        ensures { exit_status result ≡ status_of self.now }
    {
        ExitCode::from(self.status())
    }
}
