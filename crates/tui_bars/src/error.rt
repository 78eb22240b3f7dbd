//! Errors.

use thiserror::Error;

/// Why the share of a gauge is invalid.
#[derive(Clone, Copy, Debug, PartialEq, Eq, Error)]
pub enum GaugeError {
    /// The share is more than 100 percent.
    #[error("PercentAbove100")]
    PercentAbove100,
    /// The denominator of the fraction is 0 or less than its numerator.
    #[error("RatioOutOfRange")]
    RatioOutOfRange,
}
