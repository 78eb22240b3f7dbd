//! Why a run stopped.

ghost use Rattle.std.specs.Prelude.{◌≡◌};

use std::alloc::{AllocError, AllocFailed};
use tui_cells::NoMemory;
use tui_io::WriteFault;
use tui_json::InputError;

/// Why a run did not do what it is for. `R` is what the program rejects its input with.
#[derive(Clone, Copy, Debug, PartialEq, Eq)]
pub enum Stop<R> {
    /// The arguments are not those of the program.
    Usage,
    /// The input has more than 1,048,576 bytes, or more parts than the program takes.
    TooLong,
    /// The input is not JSON in UTF-8.
    NotJson,
    /// The input is not UTF-8 text.
    NotText,
    /// The value of the input is rejected.
    Rejected(R),
    /// The input could not be opened, or a read failed.
    ReadFault,
    /// A write failed. The sink has the first bytes of the output.
    WriteFault,
    /// Out of memory. Nothing was written, or a part of the output that the program's rules allow to remain.
    NoMemory,
    /// The session has made the most reads that it may make, 4,294,967,296.
    ManyReads,
}

/// The outcome of a run: what it gives if it did what it is for, or why it stopped.
pub type Outcome<D, R> = Result<D, Stop<R>>;

impl<R> From<NoMemory> for Stop<R> {
    ghost use Rattle.std.specs.Prelude.{◌≡◌};
    ghost use Rattle.tui_program.specs.declared.stop.Stop.TheVariants as stops;

    ghost from_gives = { λ _ e. e ≡ stops.NoMemory };

    fn from(_error: NoMemory) -> Stop<R> {
        Stop::NoMemory
    }
}

impl<R> From<InputError<R>> for Stop<R> {
    ghost use Rattle.std.specs.Prelude.{◌≡◌};
    ghost use Rattle.tui_json.specs.Refusals.{by_error};
    ghost use Rattle.tui_program.specs.declared.stop.Stop.TheVariants as stops;

    ghost from_gives = { λ error stop. stop ≡ by_error stops.Rejected stops.NoMemory error };

    fn from(error: InputError<R>) -> Stop<R> {
        match error {
            InputError::Refused(refusal) => Stop::Rejected(refusal),
            InputError::NoMemory => Stop::NoMemory,
        }
    }
}

impl<R> From<WriteFault> for Stop<R> {
    ghost use Rattle.std.specs.Prelude.{◌≡◌};
    ghost use Rattle.tui_program.specs.declared.stop.Stop.TheVariants as stops;

    ghost from_gives = { λ _ e. e ≡ stops.WriteFault };

    fn from(_error: WriteFault) -> Stop<R> {
        Stop::WriteFault
    }
}

impl<R> From<AllocError> for Stop<R> {
    ghost use Rattle.std.specs.Prelude.{◌≡◌};
    ghost use Rattle.tui_program.specs.declared.stop.Stop.TheVariants as stops;

    ghost from_gives = { λ _ e. e ≡ stops.NoMemory };

    fn from(_error: AllocError) -> Stop<R> {
        Stop::NoMemory
    }
}

impl<R, T: Drop> From<AllocFailed<T>> for Stop<R> {
    ghost use Rattle.std.specs.Prelude.{◌≡◌};
    ghost use Rattle.tui_program.specs.declared.stop.Stop.TheVariants as stops;

    ghost from_gives = { λ _ e. e ≡ stops.NoMemory };

    fn from(_error: AllocFailed<T>) -> Stop<R> {
        Stop::NoMemory
    }
}
