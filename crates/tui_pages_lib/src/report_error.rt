//! Why a report can't be made.

use thiserror::Error;
use tui_cells::NoMemory;

/// Why a report of some records can't be made.
#[derive(Clone, Copy, Debug, PartialEq, Eq, Error)]
pub enum ReportError {
    /// The width is 0 or the height is below 4.
    #[error("TooSmall")]
    TooSmall,
    /// A record has more than 4096 lines. `place` is the index of the first such record.
    #[error("TooTall")]
    TooTall { place: usize },
    /// Out of memory for the report.
    #[error("NoMemory")]
    NoMemory,
}

impl From<NoMemory> for ReportError {
    ghost use Rattle.std.specs.Prelude.{◌≡◌};
    ghost use Rattle.tui_pages_lib.specs.declared.report_error.ReportError.TheVariants as errors;

    ghost from_gives = { λ _ e. e ≡ errors.NoMemory };

    fn from(_error: NoMemory) -> ReportError {
        ReportError::NoMemory
    }
}
