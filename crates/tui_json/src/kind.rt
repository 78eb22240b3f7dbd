//! Kinds of value: types that are read from JSON.

ghost use Rattle.std.specs.Prelude.{◌≡◌, Option};
ghost use Rattle.serde_json.specs.Data.{Data};
ghost use Rattle.serde_json.specs.View.{view};
ghost use Rattle.tui_json.specs.Kinds.{Reads};

use serde_json::Value;
use std::alloc::{AllocError, AllocFailed, Global};
use tui_cells::NoMemory;

/// A type that is read from JSON in one way, for the fields `F`. Strings are borrowed from the value. `F` is a type of
/// the crate that defines the fields. It lets that crate implement this trait for types of other crates.
pub trait Kind<'v, F>: Sized {
    // What a value of this type means, as plain data.
    ghost AsData: { Type 0 };

    ghost as_data: { Self → AsData };

    // The JSON value as this kind. None if the value, or one inside it, is not of this kind.
    ghost kind: { Data → Option AsData };

    /// Reads the value as this kind. Fails with `WrongKind` if the value, or one inside it, is not of its kind.
    fn read(alloc: Global, value: &'v Value) -> Result<Self, KindError>
        ensures { Reads as_data result (kind (view value.now)) };
}

/// Why a value was not read as a kind.
#[derive(Clone, Copy, Debug, PartialEq, Eq)]
pub enum KindError {
    /// The value, or one inside it, is not of its kind.
    WrongKind,
    /// There was not enough memory for the value.
    NoMemory,
}

impl From<NoMemory> for KindError {
    ghost use Rattle.tui_json.specs.declared.kind.KindError.TheVariants as errors;

    ghost from_gives = { λ _ e. e ≡ errors.NoMemory };

    fn from(_error: NoMemory) -> KindError {
        KindError::NoMemory
    }
}

impl From<AllocError> for KindError {
    ghost use Rattle.tui_json.specs.declared.kind.KindError.TheVariants as errors;

    ghost from_gives = { λ _ e. e ≡ errors.NoMemory };

    fn from(_error: AllocError) -> KindError {
        KindError::NoMemory
    }
}

impl<T: Drop> From<AllocFailed<T>> for KindError {
    ghost use Rattle.tui_json.specs.declared.kind.KindError.TheVariants as errors;

    ghost from_gives = { λ _ e. e ≡ errors.NoMemory };

    fn from(_error: AllocFailed<T>) -> KindError {
        KindError::NoMemory
    }
}
