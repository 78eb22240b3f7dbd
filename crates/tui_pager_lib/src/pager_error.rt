//! Why a pager can't be made.

use thiserror::Error;
use tui_cells::NoMemory;

/// Why a pager can't be made or resized.
#[derive(Clone, Copy, Debug, PartialEq, Eq, Error)]
pub enum PagerError {
    /// The width is below 12 or the height below 5.
    #[error("TooSmall")]
    TooSmall,
    /// Out of memory for the pager and its screens.
    #[error("NoMemory")]
    NoMemory,
}

impl From<NoMemory> for PagerError {
    ghost use Rattle.std.specs.Prelude.{◌≡◌};
    ghost use Rattle.tui_pager_lib.specs.declared.pager_error.PagerError.TheVariants as errors;

    ghost from_gives = { λ _ e. e ≡ errors.NoMemory };

    fn from(_error: NoMemory) -> PagerError {
        PagerError::NoMemory
    }
}
