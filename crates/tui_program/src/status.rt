//! Exit statuses.

ghost use Rattle.std.specs.Prelude.{◌≡◌, ℕ};
ghost use Rattle.std.specs.Process.{exit_status};
ghost use Rattle.tui_program.specs.Stops.{outcome_status, stop_status};

use crate::stop::{Outcome, Stop};
use std::process::ExitCode;

/// What a run gives that was not stopped.
pub trait Done {
    // The exit status.
    ghost status: { Self → ℕ };

    /// Returns the exit status of such a run.
    fn status(&self) -> u8
        ensures { result ≡ status self.now };
}

/// Output that was written.
impl Done for () {
    ghost status = { λ _. 0 };

    fn status(&self) -> u8 {
        0
    }
}

impl<R> Stop<R> {
    /// Returns the exit status of a run that was stopped.
    pub fn status(&self) -> u8
        ensures { result ≡ stop_status (λ _. 5) self.now }
    {
        match self {
            Stop::Usage => 2,
            Stop::TooLong => 3,
            Stop::NotJson | Stop::NotText => 4,
            Stop::Rejected(_) => 5,
            Stop::ReadFault | Stop::ManyReads => 6,
            Stop::WriteFault => 7,
            Stop::NoMemory => 8,
        }
    }
}

/// Returns the exit status of a run, as `main` returns it.
pub fn exit_code<D: Done, R>(outcome: &Outcome<D, R>) -> ExitCode
    ensures { exit_status result ≡ outcome_status D.Done.status (λ _. 5) outcome.now }
{
    ExitCode::from(match outcome {
        Ok(done) => done.status(),
        Err(stop) => stop.status(),
    })
}
