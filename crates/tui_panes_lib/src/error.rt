//! Why panes can't be placed.

use thiserror::Error;

/// Why panes can't be placed.
#[derive(Clone, Copy, Debug, PartialEq, Eq, Error)]
pub enum PanesError {
    /// The tree has more than 32 levels. A lone leaf has one.
    #[error("TooDeep")]
    TooDeep,
    /// Out of memory.
    #[error("NoMemory")]
    NoMemory,
}
