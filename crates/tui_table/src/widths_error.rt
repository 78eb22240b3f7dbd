//! Why widths of columns are rejected.

use thiserror::Error;
use tui_cells::NoMemory;

/// Why a table rejects the widths of its columns.
#[derive(Clone, Copy, Debug, PartialEq, Eq, Error)]
pub enum WidthsError {
    /// A width is a percentage above 100. `index` is the first such width, from 0.
    #[error("PercentageAbove100")]
    PercentageAbove100 { index: usize },
    /// There was no memory for the table.
    #[error("NoMemory")]
    NoMemory,
}

impl From<NoMemory> for WidthsError {
    ghost use Rattle.std.specs.Prelude.{◌≡◌};
    ghost use Rattle.tui_table.specs.declared.widths_error.WidthsError.TheVariants as errors;

    ghost from_gives = { λ _ e. e ≡ errors.NoMemory };

    fn from(_error: NoMemory) -> WidthsError {
        WidthsError::NoMemory
    }
}
