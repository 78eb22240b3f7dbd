//! Why a value is no valid input.

use std::alloc::{AllocError, AllocFailed};
use tui_cells::NoMemory;

/// Why a value is no valid input of a program. `R` is what the program rejects it with.
#[derive(Clone, Copy, Debug, PartialEq, Eq)]
pub enum InputError<R> {
    /// The error of the first test that fails.
    Refused(R),
    /// There was not enough memory for the input.
    NoMemory,
}

impl<R> From<NoMemory> for InputError<R> {
    ghost use Rattle.std.specs.Prelude.{◌≡◌};
    ghost use Rattle.tui_json.specs.declared.input_error.InputError.TheVariants as errors;

    ghost from_gives = { λ _ e. e ≡ errors.NoMemory };

    fn from(_error: NoMemory) -> InputError<R> {
        InputError::NoMemory
    }
}

impl<R> From<AllocError> for InputError<R> {
    ghost use Rattle.std.specs.Prelude.{◌≡◌};
    ghost use Rattle.tui_json.specs.declared.input_error.InputError.TheVariants as errors;

    ghost from_gives = { λ _ e. e ≡ errors.NoMemory };

    fn from(_error: AllocError) -> InputError<R> {
        InputError::NoMemory
    }
}

impl<R, T: Drop> From<AllocFailed<T>> for InputError<R> {
    ghost use Rattle.std.specs.Prelude.{◌≡◌};
    ghost use Rattle.tui_json.specs.declared.input_error.InputError.TheVariants as errors;

    ghost from_gives = { λ _ e. e ≡ errors.NoMemory };

    fn from(_error: AllocFailed<T>) -> InputError<R> {
        InputError::NoMemory
    }
}
