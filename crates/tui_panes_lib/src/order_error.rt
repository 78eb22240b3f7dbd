//! Why panes can't be drawn.

use thiserror::Error;

/// Why panes can't be drawn, or not all of them.
#[derive(Clone, Copy, Debug, PartialEq, Eq, Error)]
pub enum OrderError {
    /// The order does not have the number of each leaf exactly once and no other number.
    #[error("NotOrder")]
    NotOrder,
    /// Out of memory in the leaf numbered `at`, counted from 0.
    #[error("NoMemory")]
    NoMemory { at: usize },
}
