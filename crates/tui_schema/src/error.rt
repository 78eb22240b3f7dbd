//! Why a value is no valid scene.

ghost use Rattle.std.specs.Prelude.{◌≡◌};

use crate::bad_field::BadField;
use crate::field::Field;
use thiserror::Error;
use tui_json::InputError;

/// Why a value is no valid scene.
#[derive(Clone, Copy, Debug, PartialEq, Eq, Error)]
pub enum SceneError {
    /// The first field that is missing though required, or whose value is not of its kind: of the scene, or of the item
    /// with this number, from 0.
    #[error("BadField")]
    BadField { item: Option<usize>, field: Field },
    /// There was not enough memory for the scene.
    #[error("NoMemory")]
    NoMemory,
}

impl From<InputError<BadField>> for SceneError {
    ghost use Rattle.tui_schema.specs.Refusals.{input_error};

    ghost from_gives = { λ input error. input_error error ≡ input };

    fn from(input: InputError<BadField>) -> SceneError {
        match input {
            InputError::Refused(BadField { item, field }) => SceneError::BadField { item, field },
            InputError::NoMemory => SceneError::NoMemory,
        }
    }
}
